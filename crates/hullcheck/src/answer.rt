//! What the program writes on standard output, and the exit statuses.
ghost use Rattle.std.specs.Prelude.{◌≡◌, Some};
ghost use Rattle.hullcheck.specs.contract.{Answering.answer_text, Statuses.answer_status};

use qh_check::{Judgement, SurfaceVerdict};
use std::fmt;

/// The text that `--help` prints, without the last line end.
pub const HELP: &str =
    "hullcheck: whether faces, written by any program, are the convex hull of points

Usage: hullcheck [--workers N] [--indices | --counted] [--clockwise] POINTS [FACES]

POINTS is a point file, as qconvex reads it. FACES is a file of faces, by
default standard input: an OFF file, if no option says otherwise.

    qconvex off < points.txt | hullcheck points.txt

Options:
  --indices    FACES has the number of faces, then a line for each face with
               the indices of its points from 0, as qhull i writes them
  --counted    the same, with the number of corners before them in each line
  --clockwise  faces go clockwise seen from outside, as Qhull writes them
  --workers N  how many threads share the work, 1 to 64 [default: 4]
  -h, --help   print this text

Exit status:
  0  the faces are the hull
  1  they are not, and a line on standard output says what is wrong
  2  the command line is refused
  3  out of memory
  4  a file could not be read, or standard output could not be written
  5  POINTS is no point file, or FACES has another form";

/// What the program writes for a command line.
#[derive(Clone, Copy)]
pub enum Answer {
    /// The help text, which the command line requests.
    Help,
    /// The judgement on the faces.
    Told(Judgement),
}

impl fmt::Display for Answer {
    ghost output = { λ a. Some (answer_text a) };

    fn fmt<W: fmt::Write>(&self, f: &mut fmt::Formatter<W>) -> fmt::Result {
        match self {
            Answer::Help => write!(f, "{HELP}"),
            Answer::Told(judgement) => write!(f, "{judgement}"),
        }
    }
}

/// Returns the exit status of an answer: 1 if the faces are not right, else 0.
pub fn status_of(answer: &Answer) -> u8
    ensures { result ≡ answer_status answer.now }
{
    match answer {
        Answer::Help | Answer::Told(Judgement::Told(SurfaceVerdict::Right)) => 0,
        _ => 1,
    }
}
