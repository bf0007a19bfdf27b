//! Valid and invalid command lines.
use crate::command_line::{ArgFault, settings_of};
use crate::help::{HELP, VERSION};
use qh_model::Form;
use std::alloc::{AllocError, Global};
use std::process::Abort;
use std::test::Fail;

/// The rows of a table, each of which ends in a semicolon.
macro_rules! table {
    ($($row:expr;)*) => { [$($row),*] };
}

/// Returns the words of a line, with the program's name before them.
fn words(alloc: Global, line: &str) -> Result<Vec<String>, AllocError> {
    let mut words = Vec::new(alloc);
    words.push(String::from_str(alloc, "qconvex")?)?;
    for word in line.split(' ').filter(|word| !word.is_empty()) {
        words.push(String::from_str(alloc, word)?)?;
    }
    Ok(words)
}

/// Lines that are refused.
const REFUSED: [&str; 20] = table![
    "--workers 0"; "--workers 65"; "--workers two"; "--block 0"; "--block 1048577"; "Fy"; "fx"; "OFFT"; "help";
    "--workers 2 --workers 2"; "--block 2 --block 3"; "--work 2"; "-V"; "--version=1"; "--workers 0 --version";
    "--from"; "--from obj"; "--from OFF"; "--from off --from off"; "--from off,qhull";
];

/// Lines that are accepted, with their settings.
const ACCEPTED: [(&str, Numbers); 12] = table![
    ("", (4, 4096, 1, Form::Qhull));
    ("rank", (4, 4096, 1, Form::Qhull));
    ("rank --workers 2 s", (2, 4096, 2, Form::Qhull));
    ("--block=3 rank", (4, 3, 1, Form::Qhull));
    ("-- rank", (4, 4096, 1, Form::Qhull));
    ("off Fx s rank off", (4, 4096, 5, Form::Qhull));
    ("offt rank off offt", (4, 4096, 4, Form::Qhull));
    ("--workers 64 --block 1048576", (64, 1048576, 1, Form::Qhull));
    ("--workers +4 --block 004", (4, 4, 1, Form::Qhull));
    ("--from qhull", (4, 4096, 1, Form::Qhull));
    ("--from off rank", (4, 4096, 1, Form::Off));
    ("off --from=off --block 2 Fx", (4, 2, 2, Form::Off));
];

#[test]
fn refuses_lines(rt: HostRuntime) -> Result<(), Fail> {
    for line in &REFUSED {
        let judged = settings_of(rt.alloc(), words(rt.alloc(), line)?);
        assert!(rt; matches!(judged, Err(ArgFault::Usage)), "at {line}");
    }
    Ok(())
}

/// Settings: the workers, the block size, the number of outputs and the form.
type Numbers = (u32, u32, usize, Form);

/// Asserts the settings of a line.
fn assert_accepted<R: AllocGlobal + Abort>(rt: &R, line: &str, want: Numbers) -> Result<(), Fail> {
    let Ok(settings) = settings_of(rt.alloc(), words(rt.alloc(), line)?) else {
        return Err("the line is a command line".into());
    };
    let outs = settings.outs().len();
    let numbers = (settings.workers(), settings.block(), outs, settings.form());
    assert_eq!(rt; numbers, want, "at {line}");
    Ok(())
}

#[test]
fn accepts_lines(rt: HostRuntime) -> Result<(), Fail> {
    for (line, want) in &ACCEPTED {
        assert_accepted(&rt, line, *want)?;
    }
    Ok(())
}

/// Parts of the help text: the options with their ranges, each output and each exit status.
const HELPED: [&str; 17] = table![
    "Usage: qconvex [--from FORM] [--workers N] [--block N] [OUT]...\n"; "standard input"; "\n  rank "; "\n  s ";
    "\n  Fx "; "\n  off "; "\n  offt "; "\n  --from FORM "; "\n  --workers N "; "1 to 64 [default: 4]";
    "\n  --block N "; "1 to 1048576 [default: 4096]"; "\n  --version "; "\n  1  the input is refused";
    "\n  2  the command line is refused"; "\n  3  out of memory"; "\n  4  a device failed";
];

/// Asserts that a line is answered with this text.
fn assert_helped<R: AllocGlobal + Abort>(rt: &R, line: &str, wanted: &str) -> Result<(), Fail> {
    let Err(ArgFault::Help(text)) = settings_of(rt.alloc(), words(rt.alloc(), line)?) else {
        return Err("the line asks for a text".into());
    };
    assert_eq!(rt; text.as_str(), wanted, "at {line}");
    Ok(())
}

#[test]
fn helps(rt: HostRuntime) -> Result<(), Fail> {
    for line in ["--help", "-h", "rank --help --workers 0"] {
        assert_helped(&rt, line, HELP)?;
    }
    for words in HELPED {
        assert!(rt; HELP.contains(words), "{words}");
    }
    Ok(())
}

#[test]
fn tells_the_version(rt: HostRuntime) -> Result<(), Fail> {
    for line in ["--version", "rank --version --workers 0"] {
        assert_helped(&rt, line, VERSION)?;
    }
    assert!(rt; HELP.starts_with(VERSION.trim_end()));
    Ok(())
}
