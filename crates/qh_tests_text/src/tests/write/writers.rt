//! A sink over a writer of std: the calls of the writer, and its failures.
use qh_fixtures::{Host, table};
use qh_write::{SendFault, Sink, StdSink, send};
use std::io::{self, ErrorKind, Write};
use std::sync::atomic::AtomicU64;
use std::sync::atomic::Ordering::SeqCst;

/// The behaviour of a writer.
#[derive(Clone, Copy, Debug, Drop)]
struct Manner {
    /// The greatest number of bytes that a write accepts.
    greatest_piece: usize,
    /// The error of each write, if it fails.
    write_error: Option<ErrorKind>,
    /// The error of the flush, if it fails.
    flush_error: Option<ErrorKind>,
}

/// The calls that a writer received.
#[derive(Drop)]
struct Calls {
    writes: AtomicU64,
    bytes: AtomicU64,
    flushes: AtomicU64,
    /// The number of bytes received before the last flush.
    bytes_at_flush: AtomicU64,
}

impl Calls {
    fn none() -> Calls {
        Calls {
            writes: AtomicU64::new(0),
            bytes: AtomicU64::new(0),
            flushes: AtomicU64::new(0),
            bytes_at_flush: AtomicU64::new(0),
        }
    }

    /// Returns the number of writes, of accepted bytes and of flushes, and the number of bytes at the last flush.
    fn counts(&self) -> [u64; 4] {
        let (writes, bytes) = (self.writes.load(SeqCst), self.bytes.load(SeqCst));
        let (flushes, at_flush) = (self.flushes.load(SeqCst), self.bytes_at_flush.load(SeqCst));
        [writes, bytes, flushes, at_flush]
    }
}

/// A writer that counts its calls.
#[derive(Drop)]
struct Counting<'a> {
    calls: &'a Calls,
    manner: Manner,
}

impl Write for Counting<'_> {
    fn write(&mut self, buf: &[u8]) -> io::Result<usize> {
        self.calls.writes.fetch_add(1, SeqCst);
        if let Some(kind) = self.manner.write_error {
            return Err(io::Error::from(kind));
        }
        let count = buf.len().min(self.manner.greatest_piece);
        self.calls.bytes.fetch_add(count as u64, SeqCst);
        Ok(count)
    }

    fn flush(&mut self) -> io::Result<()> {
        self.calls.flushes.fetch_add(1, SeqCst);
        let bytes = self.calls.bytes.load(SeqCst);
        self.calls.bytes_at_flush.store(bytes, SeqCst);
        match self.manner.flush_error {
            None => Ok(()),
            Some(kind) => Err(io::Error::from(kind)),
        }
    }
}

/// A writer that accepts all bytes, and never fails.
const TAKES_ALL: Manner = Manner {
    greatest_piece: 100,
    write_error: None,
    flush_error: None,
};

/// The result of sending bytes.
type Sent = Result<(), SendFault>;

/// Asserts the result of sending bytes to a writer, and the calls that the writer received.
fn assert_calls(rt: &impl Host, manner: Manner, bytes: &[u8], want: Sent, counts: [u64; 4]) {
    let received = Calls::none();
    let calls = &received;
    let mut sink = StdSink::new(Counting { calls, manner });
    let found = (send(&mut sink, bytes), sink.failures(), calls.counts());
    let failures = u64::from(want.is_err());
    assert_eq!(rt; found, (want, failures, counts), "{manner:?}");
}

#[test]
fn flushes_once_and_calls_no_writer_that_failed(rt: HostRuntime) {
    // A writer, the result of sending 10 bytes, and the calls that the writer received.
    let rows = table![
        (TAKES_ALL, Ok(()), [1, 10, 1, 10]);
        (Manner { greatest_piece: 10, ..TAKES_ALL }, Ok(()), [1, 10, 1, 10]);
        (Manner { greatest_piece: 3, ..TAKES_ALL }, Ok(()), [4, 10, 1, 10]);
        (Manner { greatest_piece: 1, ..TAKES_ALL }, Ok(()), [10, 10, 1, 10]);
        (Manner { greatest_piece: 0, ..TAKES_ALL }, Err(SendFault), [1, 0, 0, 0]);
        (Manner { write_error: Some(ErrorKind::Other), ..TAKES_ALL }, Err(SendFault), [1, 0, 0, 0]);
        (Manner { write_error: Some(ErrorKind::Interrupted), ..TAKES_ALL }, Err(SendFault), [1, 0, 0, 0]);
        (Manner { flush_error: Some(ErrorKind::Other), ..TAKES_ALL }, Err(SendFault), [1, 10, 1, 10]);
        (Manner { flush_error: Some(ErrorKind::Interrupted), ..TAKES_ALL }, Err(SendFault), [1, 10, 1, 10]);
    ];
    for (manner, want, counts) in rows {
        assert_calls(&rt, manner, b"OFF\n1 1 0\n", want, counts);
    }
}

#[test]
fn flushes_where_nothing_is_sent(rt: HostRuntime) {
    assert_calls(&rt, TAKES_ALL, b"", Ok(()), [0, 0, 1, 0]);
}
