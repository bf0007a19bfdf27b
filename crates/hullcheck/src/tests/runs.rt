//! The program with fake files and line devices.
ghost use Rattle.std.specs.Prelude.{◌≡◌};

use super::fakes::{FakeFiles, FakeLines};
use super::judgements::{BY_INDICES, COUNTED, CUBE, words};
use crate::answer::HELP;
use crate::program::run;
use std::test::Fail;
use std::thread::Threads;

const USAGE: &str =
    "usage: hullcheck [--workers N] [--indices | --counted] [--clockwise] POINTS [FACES]\n";

/// The files that the rows name. One of them cannot be read.
const FILES: [(&str, Option<&str>); 5] = [
    ("cube", Some(CUBE)),
    ("faces", Some(COUNTED)),
    ("word", Some("3\n1\n0 0 0.5\n")),
    ("stranger", Some("2\n3 0 1 2\n3 0 1 10\n")),
    ("broken", None),
];

/// Words, the standard input, the exit status, the text on the output and the text on the errors.
const RUNS: [(&[&str], &str, u8, &str, &str); 12] = table![
    (&["hullcheck", "cube", "faces", "--counted"], "", 0, "all right\n", "");
    (&["hullcheck", "--counted", "cube"], COUNTED, 0, "all right\n", "");
    (&["hullcheck", "--indices", "--clockwise", "cube"], BY_INDICES, 0, "all right\n", "");
    (&["hullcheck", "--counted", "cube", "stranger"], COUNTED, 1, "face 1: one of its corners is not a point of the set\n", "");
    (&["hullcheck"], COUNTED, 2, "", USAGE);
    (&["--help"], COUNTED, 2, "", USAGE);
    (&["hullcheck", "cube", "--helper"], COUNTED, 2, "", USAGE);
    (&["hullcheck", "cube", "none"], COUNTED, 4, "", "hullcheck: the faces: the file could not be read\n");
    (&["hullcheck", "broken", "faces"], "", 4, "", "hullcheck: the points: the file could not be read\n");
    (&["hullcheck", "cube", "broken"], "", 4, "", "hullcheck: the faces: the file could not be read\n");
    (&["hullcheck", "word", "faces"], "", 5, "", "hullcheck: the points: BadNumber at line 3\n");
    (&["hullcheck", "cube", "--counted"], "2\n3 0 1 2\n", 5, "", "hullcheck: the faces: Short\n");
];

/// Returns the exit status of a run that writes to this output, and the text on the errors.
fn ended<R: AllocGlobal + Threads + Sync>(
    rt: &R,
    texts: &[&str],
    input: &str,
    output: &mut FakeLines,
) -> Result<(u8, String), Fail>
    requires { output.old.failures ≡ 0 }
{
    let mut files = FakeFiles {
        named: &FILES,
        input,
        failed: false,
    };
    let words = words(rt.alloc(), texts)?;
    let mut errors = FakeLines::kept(rt.alloc());
    let status = run(
        rt,
        rt.alloc(),
        Ok(words),
        4,
        &mut files,
        output,
        &mut errors,
    );
    Ok((status, errors.text))
}

#[test]
fn runs(rt: HostRuntime) -> Result<(), Fail> {
    for (texts, input, status, wanted, line) in RUNS {
        let mut output = FakeLines::kept(rt.alloc());
        let (ended, errors) = ended(&rt, texts, input, &mut output)?;
        let told = (ended, output.text.as_str(), errors.as_str());
        assert_eq!(rt; told, (status, wanted, line), "at {texts:?}");
    }
    Ok(())
}

/// Command lines that request help, some of which are invalid without the request.
const HELPED: [&[&str]; 4] = [
    &["hullcheck", "--help"],
    &["hullcheck", "-h"],
    &["hullcheck", "none", "--counted", "--help"],
    &["hullcheck", "--workers", "0", "-h", "a", "b", "c"],
];

/// Parts of the help text: how the program is called, each option and each exit status.
const PARTS: [&str; 12] = table![
    "\nUsage: hullcheck [--workers N] [--indices | --counted] [--clockwise] POINTS [FACES]\n";
    "\n  --indices "; "\n  --counted "; "\n  --clockwise "; "\n  --workers N "; "1 to 64 [default: 4]\n";
    "\n  0  the faces are the hull\n"; "\n  1  they are not"; "\n  2  the command line is refused\n";
    "\n  3  out of memory\n"; "\n  4  a file could not be read"; "\n  5  POINTS is no point file";
];

#[test]
fn a_word_requests_help(rt: HostRuntime) -> Result<(), Fail> {
    for texts in HELPED {
        let mut output = FakeLines::kept(rt.alloc());
        let (ended, errors) = ended(&rt, texts, "", &mut output)?;
        assert_eq!(rt; (ended, errors.as_str()), (0, ""), "at {texts:?}");
        assert!(rt; output.text.starts_with(HELP) && output.text.len() == HELP.len() + 1);
        for part in PARTS {
            assert!(rt; output.text.contains(part), "{part}");
        }
    }
    Ok(())
}

#[test]
fn an_answer_that_cannot_be_written_is_a_fault(rt: HostRuntime) -> Result<(), Fail> {
    let lines: [&[&str]; 2] = [
        &["hullcheck", "cube", "--counted"],
        &["hullcheck", "--help"],
    ];
    for texts in lines {
        let mut output = FakeLines::failing(rt.alloc());
        let (ended, errors) = ended(&rt, texts, COUNTED, &mut output)?;
        let wanted = "hullcheck: the judgement could not be written\n";
        assert_eq!(rt; (ended, errors.as_str()), (4, wanted), "at {texts:?}");
    }
    Ok(())
}
