//! Bytes from a source, and from a source over a reader of std: its failures, after which no further read follows.
use super::{TETRAHEDRON, Wanted, Way, assert_gave, assert_read};
use qh_fixtures::files::{COMMENTED_TETRAHEDRON, CUBE, ONE_POINT};
use qh_fixtures::table;
use qh_model::{BYTE_LIMIT, Form};
use qh_read::fakes::{FailSource, Spaces};
use qh_read::{ReadFault, Source, StdSource, read_form_threads, read_from, read_off_from};
use std::alloc::Global;
use std::io::{self, ErrorKind, Read};
use std::sync::atomic::{AtomicU64, Ordering};

#[test]
fn reads_to_the_end(rt: HostRuntime) {
    let bytes = COMMENTED_TETRAHEDRON.as_bytes();
    let mut source = StdSource::new(bytes);
    let outcome = read_from(rt.alloc(), &mut source);
    assert_gave(&rt, outcome, Ok(&TETRAHEDRON), "from a reader", Way::Source);
    assert_eq!(rt; source.failures(), 0);
}

#[test]
fn tells_a_failing_read(rt: HostRuntime) {
    for fails_at in 1..55 {
        // The 52 bytes and the end are 53 reads.
        let want = match fails_at {
            54 => (Ok(8), 0),
            _ => (Err(ReadFault::Device), 1),
        };
        let mut source = FailSource::new(CUBE.as_bytes(), 1, Some(fails_at));
        let count = read_from(rt.alloc(), &mut source).map(|points| points.len());
        assert_eq!(rt; (count, source.failures()), want, "read {fails_at}");
    }
}

#[test]
fn goes_on_after_a_fault_of_the_text(rt: HostRuntime) {
    let mut source = FailSource::new(b"x\n1 2 3\n", 2, Some(4));
    let outcome = read_from(rt.alloc(), &mut source);
    let way = Way::FailingRead(4);
    assert_gave(&rt, outcome, Err(ReadFault::Device), "a fault", way);
}

#[test]
fn stops_at_the_limit(rt: HostRuntime) {
    for outcome in [
        read_from(rt.alloc(), &mut Spaces),
        read_off_from(rt.alloc(), &mut Spaces),
        read_form_threads(&rt, rt.alloc(), 4, Form::Qhull, &mut Spaces),
    ] {
        let want = Err(ReadFault::Big);
        assert_gave(&rt, outcome, want, "without end", Way::Source);
    }
}

#[test]
fn tells_a_failing_read_of_an_off_file(rt: HostRuntime) {
    let bytes = b"OFF\n1 0 0\n5 5 5\n";
    for fails_at in 1..19 {
        // The 16 bytes and the end are 17 reads.
        let want: Wanted = match fails_at {
            18 => Ok(&[(5, 5, 5)]),
            _ => Err(ReadFault::Device),
        };
        assert_read(&rt, Form::Off, bytes, Way::FailingRead(fails_at), want);
    }
}

/// A reader that returns one point file byte by byte, and fails at one of the reads.
#[derive(Drop)]
struct Failing<'a> {
    rest: &'a [u8],
    /// The number of reads.
    reads: &'a AtomicU64,
    /// The number of the read that fails, from 1.
    fails_at: u64,
    kind: ErrorKind,
}

impl Read for Failing<'_> {
    fn read(&mut self, buf: &mut [u8]) -> io::Result<usize> {
        let earlier = self.reads.fetch_add(1, Ordering::SeqCst);
        if earlier.saturating_add(1) == self.fails_at {
            return Err(io::Error::from(self.kind));
        }
        let count = self.rest.len().min(buf.len()).min(1);
        let (piece, rest) = self.rest.split_at(count);
        buf[..count].copy_from_slice(piece);
        self.rest = rest;
        Ok(count)
    }
}

/// A reader that returns blanks without end, and counts them.
#[derive(Drop)]
struct Endless<'a> {
    given: &'a AtomicU64,
}

impl Read for Endless<'_> {
    fn read(&mut self, buf: &mut [u8]) -> io::Result<usize> {
        buf.fill(b' ');
        self.given.fetch_add(buf.len() as u64, Ordering::SeqCst);
        Ok(buf.len())
    }
}

#[test]
fn reads_one_piece_too_many(rt: HostRuntime) {
    let count = AtomicU64::new(0);
    let mut source = StdSource::new(Endless { given: &count });
    let fault = read_from(rt.alloc(), &mut source).err();
    assert_eq!(rt; fault, Some(ReadFault::Big));
    let given = count.load(Ordering::SeqCst);
    let some_more = u64::from(BYTE_LIMIT) + 1..=u64::from(BYTE_LIMIT) + 65536;
    assert!(rt; some_more.contains(&given), "{given} bytes");
}

/// Returns the fault of a reading whose reader fails at one read, the failures of the source, and the reads.
fn read_failing(alloc: Global, kind: ErrorKind, fails_at: u64) -> (Option<ReadFault>, u64, u64) {
    let reads = AtomicU64::new(0);
    let mut source = StdSource::new(Failing {
        rest: ONE_POINT.as_bytes(),
        reads: &reads,
        fails_at,
        kind,
    });
    let fault = read_from(alloc, &mut source).err();
    (fault, source.failures(), reads.load(Ordering::SeqCst))
}

#[test]
fn reads_no_reader_that_failed(rt: HostRuntime) {
    // An interrupted read is a failure like others, although the reader could continue.
    for kind in table![ErrorKind::Other; ErrorKind::Interrupted; ErrorKind::WouldBlock;] {
        // The 10 bytes, and the end.
        for fails_at in 1..12 {
            let want = (Some(ReadFault::Device), 1, fails_at);
            assert_eq!(rt; read_failing(rt.alloc(), kind, fails_at), want, "{kind:?}");
        }
    }
}
