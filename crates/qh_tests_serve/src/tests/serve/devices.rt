//! Devices that fail: no device is called again after a failed call, and the output is a prefix of the text.
use crate::tests::outcomes::OFF;
use qh_fixtures::files::{CUBE, CUBE_OFF, ONE_POINT, TETRAHEDRON, TETRAHEDRON_OFF};
use qh_fixtures::{Host, table};
use qh_read::fakes::FailSource;
use qh_read::{ReadFault, Source};
use qh_run::NoGate;
use qh_serve::{Fault, serve};
use qh_write::Sink;
use qh_write::fakes::{FailSink, SinkPlan};
use std::test::Fail;

/// A plan that never fails.
const FREE: SinkPlan = SinkPlan {
    greatest_piece: 999,
    room: 999,
    failing_write: None,
    flush_fails: false,
};

/// The plans of the devices: the greatest number of bytes of a read, the number of the read that fails, and the sink's.
type Plans = (usize, Option<u64>, SinkPlan);

/// The result of `serve`: its outcome, the bytes sent, and the numbers of failures of the source and of the sink.
type Served<'a> = (Result<(), Fault>, &'a [u8], u64, u64);

/// Asserts the result of `off` of an input with plans of the source and of the sink.
fn assert_served(rt: &impl Host, input: &str, plans: Plans, want: Served) -> Result<(), Fail> {
    let (greatest_piece, failing_read, plan) = plans;
    let settings = OFF.settings(rt.alloc())?;
    let mut source = FailSource::new(input.as_bytes(), greatest_piece.max(1), failing_read);
    let mut sink = FailSink::new(rt.alloc(), plan);
    let outcome = serve(rt, rt.alloc(), &mut source, &mut sink, &settings, &NoGate);
    let served = (outcome, sink.bytes(), source.failures(), sink.failures());
    assert_eq!(rt; served, want, "{plans:?}");
    Ok(())
}

/// The result of `serve` if the source fails.
const UNREAD: Served<'static> = (Err(Fault::Read(ReadFault::Device)), &[], 1, 0);

#[test]
fn a_failing_source_sends_nothing(rt: HostRuntime) -> Result<(), Fail> {
    // One byte for each read: each of the 52 bytes and the end.
    for k in 1..54u64 {
        assert_served(&rt, CUBE, (1, Some(k), FREE), UNREAD)?;
    }
    let all = (Ok(()), CUBE_OFF.as_bytes(), 0, 0);
    assert_served(&rt, CUBE, (1, Some(54), FREE), all)?;
    // The first read returns 4 bytes, the second fails.
    assert_served(&rt, TETRAHEDRON, (4, Some(2), FREE), UNREAD)
}

#[test]
fn a_failing_sink_has_a_beginning(rt: HostRuntime) -> Result<(), Fail> {
    let text = TETRAHEDRON_OFF.as_bytes();
    assert_eq!(rt; text.len(), 66);
    for k in 1..67usize {
        let plan = SinkPlan {
            greatest_piece: 1,
            failing_write: Some(k as u64),
            ..FREE
        };
        let want = (Err(Fault::Send), &text[..k - 1], 0, 1);
        assert_served(&rt, TETRAHEDRON, (999, None, plan), want)?;
    }
    Ok(())
}

#[test]
fn the_worked_failures(rt: HostRuntime) -> Result<(), Fail> {
    // An input, a plan of the sink, and the bytes that are sent before it fails.
    let rows = table![
        (ONE_POINT, SinkPlan { room: 7, ..FREE }, "OFF\n1 1");
        (ONE_POINT, SinkPlan { flush_fails: true, ..FREE }, "OFF\n1 1 0\n5 5 5\n1 0\n");
        (TETRAHEDRON, SinkPlan { greatest_piece: 1, flush_fails: true, ..FREE }, TETRAHEDRON_OFF);
    ];
    for (input, plan, sent) in rows {
        let want = (Err(Fault::Send), sent.as_bytes(), 0, 1);
        assert_served(&rt, input, (999, None, plan), want)?;
    }
    Ok(())
}
