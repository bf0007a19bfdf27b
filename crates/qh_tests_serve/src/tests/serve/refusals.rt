//! Calls during which one allocation fails: the text is right, or the call is out of memory and returns the right text
//! when it is repeated. `scripts/trials/refusals.py` makes each allocation fail in turn.
use crate::tests::outcomes::OFF;
use qh_command::{Settings, SettingsError};
use qh_fixtures::files::{CUBE, CUBE_OFF, OCTAHEDRON, OCTAHEDRON_OFF, SQUARE, SQUARE_OFF};
use qh_fixtures::{Host, again, table};
use qh_read::{MemSource, ReadFault};
use qh_run::NoGate;
use qh_serve::{Fault, answer, serve};
use qh_write::{MemSink, Sink};
use std::test::Fail;

/// An input, the size of its blocks, and the text of `off`.
const ROWS: [(&str, u32, &str); 3] =
    table![(SQUARE, 2, SQUARE_OFF); (CUBE, 2, CUBE_OFF); (OCTAHEDRON, 3, OCTAHEDRON_OFF);];

/// Returns true if `answer` returns this text. Repeats the call if an allocation failed.
fn answers(rt: &impl Host, input: &[u8], settings: &Settings, want: &[u8]) -> bool {
    let text = again!(
        answer(rt, rt.alloc(), input, settings, &NoGate),
        Fault::Read(ReadFault::Memory)
    );
    text.is_ok_and(|text| text.as_slice() == want)
}

/// The result of `serve` with devices in memory.
#[derive(Clone, Copy, Debug, PartialEq, Eq, Drop)]
enum Served {
    /// The whole text was sent.
    Right,
    /// Nothing was sent: an allocation of the hull or of the sink itself failed.
    Refused,
    /// Anything else.
    Wrong,
}

fn served_once(rt: &impl Host, input: &[u8], settings: &Settings, want: &[u8]) -> Served {
    let (mut source, mut sink) = (MemSource::new(input), MemSink::new(rt.alloc()));
    let outcome = serve(rt, rt.alloc(), &mut source, &mut sink, settings, &NoGate);
    let (failures, sent) = (sink.failures(), sink.bytes());
    match outcome {
        Ok(()) if failures == 0 && sent == want => Served::Right,
        Err(Fault::Read(ReadFault::Memory)) if failures == 0 && sent.is_empty() => Served::Refused,
        Err(Fault::Send) if failures == 1 && sent.is_empty() => Served::Refused,
        _ => Served::Wrong,
    }
}

/// Returns true if each row comes out right, by `answer` and by `serve`.
fn rows_come_out_right(rt: &impl Host, workers: u32) -> Result<bool, Fail> {
    for (input, block, want) in ROWS {
        let (input, want) = (input.as_bytes(), want.as_bytes());
        let asked = OFF.by(workers, block);
        let settings = again!(asked.settings(rt.alloc()), SettingsError::Memory)?;
        if !answers(rt, input, &settings, want) {
            return Ok(false);
        }
        let served = match served_once(rt, input, &settings, want) {
            Served::Refused => served_once(rt, input, &settings, want),
            served => served,
        };
        if served != Served::Right {
            return Ok(false);
        }
    }
    Ok(true)
}

#[test]
fn tries_again(rt: HostRuntime) -> Result<(), Fail> {
    for workers in [1, 2, 7] {
        let are_right = rows_come_out_right(&rt, workers)?;
        assert!(rt; are_right, "{workers} workers");
    }
    Ok(())
}

/// This test passes even if an allocation of the only worker fails, since the calling thread then takes the hull. It
/// fails if an allocation of the calling thread fails.
#[test]
fn falls_back(rt: HostRuntime) -> Result<(), Fail> {
    let settings = OFF.by(1, 3).settings(rt.alloc())?;
    let text = answer(&rt, rt.alloc(), OCTAHEDRON.as_bytes(), &settings, &NoGate);
    assert!(rt; text.is_ok_and(|text| text.as_slice() == OCTAHEDRON_OFF.as_bytes()));
    Ok(())
}
