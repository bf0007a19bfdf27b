//! Rows: the result for each text, for each way to read it.
ghost use Rattle.std.specs.Prelude.{◌-◌, ◌^◌, ◌<◌};

use qh_fixtures::{Host, table};
use qh_model::{Form, Point};
use qh_read::fakes::FailSource;
use qh_read::{
    FeedFault, MemSource, ReadFault, Reader, Sizes, Source, read_form_sizes, read_from, read_off,
    read_off_from, read_points,
};
use std::alloc::{AllocError, Global};

/// The coordinates of a point.
type Place = (i32, i32, i32);

/// The points of the tetrahedron file.
const TETRAHEDRON: [Place; 4] = [(0, 0, 0), (1, 0, 0), (0, 1, 0), (0, 0, 1)];

/// The result of a reading.
type Outcome = Result<Vec<Point>, ReadFault>;

/// The expected result of a reading: exactly these points, in this order, or this fault.
type Wanted<'a> = Result<&'a [Place], ReadFault>;

/// A way to read a text.
#[derive(Clone, Copy, Debug)]
enum Way {
    /// All at once.
    Whole,
    /// From a source.
    Source,
    /// From a source of single bytes, whose read with this number fails.
    FailingRead(u64),
    /// In pieces of this length.
    Pieces(usize),
    /// Cut in two after this number of bytes.
    Cut(usize),
    /// By threads, in these sizes.
    Threads(Sizes),
}

/// The sizes with this start, batch and number of segments, and this number of threads.
macro_rules! sizes {
    ($start:expr, $batch:expr, $segments:expr, $threads:expr) => {
        Sizes { start: $start, batch: $batch, segments: $segments, threads: $threads }
    };
}

mod numbers;
mod pieces;
mod refusals;
mod rows;
mod sources;
mod threads;

/// Sizes of a few bytes.
const SMALL: [Sizes; 6] = table![
    sizes!(0, 1, 2, 2); sizes!(0, 16, 1, 3); sizes!(16, 64, 1, 2); sizes!(0, 151, 2, 4); sizes!(7, 230, 3, 1);
    sizes!(0, 4096, 4, 3);
];

/// Returns true if a reading gave what is expected.
fn gave(outcome: &Outcome, want: Wanted) -> bool {
    match (outcome, want) {
        (Ok(points), Ok(places)) => {
            let mut both = points.iter().zip(places);
            points.len() == places.len() && both.all(|(p, place)| (p.x(), p.y(), p.z()) == *place)
        }
        (Err(found), Err(fault)) => *found == fault,
        _ => false,
    }
}

/// Asserts the result of a reading. A failure names the text and the way.
fn assert_gave(rt: &impl Host, outcome: Outcome, want: Wanted, text: &str, way: Way) {
    let gave = gave(&outcome, want);
    assert!(rt; gave, "{text:?}, {way:?}: {:?}", outcome.err());
}

/// Returns the result of reading a source of this form.
fn read_source<S: Source>(alloc: Global, form: Form, source: &mut S) -> Outcome
    requires { S.failure_count source.old < 2 ^ 64 - 1 }
{
    match form {
        Form::Qhull => read_from(alloc, source),
        Form::Off => read_off_from(alloc, source),
    }
}

/// Returns the result of reading these bytes in this way.
fn read(rt: &impl Host, form: Form, bytes: &[u8], way: Way) -> Outcome {
    let alloc = rt.alloc();
    match way {
        Way::Whole if form == Form::Off => read_off(alloc, bytes),
        Way::Whole => read_points(alloc, bytes),
        Way::Source => read_source(alloc, form, &mut MemSource::new(bytes)),
        Way::FailingRead(at) => {
            read_source(alloc, form, &mut FailSource::new(bytes, 1, Some(at)))
        }
        Way::Pieces(length) => read_in_pieces(alloc, form, bytes, length),
        Way::Cut(at) => read_cut(alloc, form, bytes, at),
        Way::Threads(sizes) => {
            read_form_sizes(rt, alloc, form, &mut MemSource::new(bytes), sizes)
        }
    }
}

/// Asserts the result of reading these bytes in this way. A failure names the beginning of the text.
fn assert_read(rt: &impl Host, form: Form, bytes: &[u8], way: Way, want: Wanted) {
    let text = str::from_utf8(&bytes[..bytes.len().min(200)]).unwrap_or("no text");
    assert_gave(rt, read(rt, form, bytes, way), want, text, way);
}

/// Asserts the result of reading these bytes by threads, in each of the small sizes.
fn assert_read_in_sizes(rt: &impl Host, form: Form, bytes: &[u8], want: Wanted) {
    for sizes in SMALL {
        assert_read(rt, form, bytes, Way::Threads(sizes), want);
    }
}

/// Asserts the result of reading a text all at once, from a source, byte by byte, and by threads.
fn assert_read_in_all_ways(rt: &impl Host, form: Form, text: &str, want: Wanted) {
    for way in [Way::Whole, Way::Source, Way::Pieces(1)] {
        assert_read(rt, form, text.as_bytes(), way, want);
    }
    assert_read_in_sizes(rt, form, text.as_bytes(), want);
}

/// Returns these texts, one after the other.
fn joined(alloc: Global, texts: &[&str]) -> Result<Vec<u8>, AllocError> {
    let mut bytes = Vec::new(alloc);
    for text in texts {
        bytes.extend_from_slice(text.as_bytes())?;
    }
    Ok(bytes)
}

/// Returns a reader of files of this form.
fn reader_of(alloc: Global, form: Form) -> Reader {
    match form {
        Form::Qhull => Reader::new(alloc),
        Form::Off => Reader::new_off(alloc),
    }
}

/// Feeds a piece `times` times.
fn feed_times(reader: &mut Reader, piece: &[u8], times: u32) -> Result<(), FeedFault> {
    for _ in 0..times {
        reader.feed(piece)?;
    }
    Ok(())
}

/// Asserts that a reader was fed the greatest number of bytes that it accepts.
fn assert_full(rt: &impl Host, reader: &mut Reader) {
    let answers = (reader.feed(b" "), reader.feed(b""));
    assert_eq!(rt; answers, (Err(FeedFault::Big), Ok(())));
}

/// Returns the result of reading these bytes, cut in two.
fn read_cut(alloc: Global, form: Form, bytes: &[u8], at: usize) -> Outcome {
    let (front, back) = bytes.split_at(at.min(bytes.len()));
    let mut reader = reader_of(alloc, form);
    reader.feed(front)?;
    reader.feed(back)?;
    reader.finish()
}

/// Returns the result of reading these bytes in pieces of this length, at least 1.
fn read_in_pieces(alloc: Global, form: Form, bytes: &[u8], length: usize) -> Outcome {
    let mut reader = reader_of(alloc, form);
    for piece in bytes.chunks(length.max(1)) {
        reader.feed(piece)?;
    }
    reader.finish()
}
