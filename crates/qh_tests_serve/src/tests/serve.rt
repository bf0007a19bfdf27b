//! The worked rows: the results of `answer` and `serve` for settings and an input.

mod devices;
mod faults;
mod limits;
mod near_flat_sets;
mod off_files;
mod refusals;
mod rows;
mod solids;

use crate::tests::outcomes::{Asked, Told};
use qh_fixtures::Host;
use qh_fixtures::faults::FaultRow;
use qh_run::NoGate;
use std::test::Fail;

/// Returns the beginning of an input, for messages.
fn beginning(input: &[u8]) -> &str {
    str::from_utf8(&input[..input.len().min(200)]).unwrap_or("no text")
}

/// Asserts the result of `answer` for an input and settings.
fn assert_answered(rt: &impl Host, asked: Asked, input: &[u8], want: Told) -> Result<(), Fail> {
    let answered = asked.answered(rt, input, &NoGate)?;
    let begins = beginning(input);
    assert_eq!(rt; answered.told(), want, "answer at {asked:?}: {begins:?}");
    Ok(())
}

/// Asserts the results of `answer` and `serve` for an input and settings.
fn assert_gives(rt: &impl Host, asked: Asked, input: &[u8], want: Told) -> Result<(), Fail> {
    assert_answered(rt, asked, input, want)?;
    let served = asked.served(rt, input, &NoGate)?;
    let begins = beginning(input);
    assert_eq!(rt; served.told(), want, "serve at {asked:?}: {begins:?}");
    Ok(())
}

/// Asserts the text of each row, which has settings, an input and its text.
fn assert_rows(rt: &impl Host, rows: &[(Asked, &str, &str)]) -> Result<(), Fail> {
    for (asked, input, text) in rows {
        assert_gives(rt, *asked, input.as_bytes(), (text, "", 0))?;
    }
    Ok(())
}

/// Asserts that each file of each row is refused with the row's line and status 1.
fn assert_faults(rt: &impl Host, asked: Asked, rows: &[FaultRow]) -> Result<(), Fail> {
    for (_, line, files) in rows {
        for file in *files {
            assert_gives(rt, asked, file.as_bytes(), ("", line, 1))?;
        }
    }
    Ok(())
}
