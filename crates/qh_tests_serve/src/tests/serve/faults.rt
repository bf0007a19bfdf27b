//! Files with faults, and the lines that report them.
use super::assert_faults;
use crate::tests::outcomes::{OFF, Outcome, RANK};
use qh_fixtures::faults::OF_POINT_FILES;
use qh_fixtures::table;
use qh_read::ReadFault;
use qh_serve::Fault;
use std::test::Fail;

#[test]
fn refuses_inputs(rt: HostRuntime) -> Result<(), Fail> {
    assert_faults(&rt, RANK, &OF_POINT_FILES)?;
    assert_faults(&rt, OFF, &OF_POINT_FILES)
}

/// Each fault with its line and the exit status.
const LINES: [(Fault, &str, u8); 13] = table![
    (Fault::Read(ReadFault::NoHeader), "qconvex: 1: NoHeader", 1);
    (Fault::Read(ReadFault::BadNumber(3)), "qconvex: 2: BadNumber at line 3", 1);
    (Fault::Read(ReadFault::NotThree), "qconvex: 3: NotThree", 1);
    (Fault::Read(ReadFault::Count), "qconvex: 4: Count", 1);
    (Fault::Read(ReadFault::Range(10)), "qconvex: 5: Range at line 10", 1);
    (Fault::Read(ReadFault::Long(268435456)), "qconvex: 6: Long at line 268435456", 1);
    (Fault::Read(ReadFault::Short), "qconvex: 7: Short", 1);
    (Fault::Read(ReadFault::Memory), "qconvex: 8: Memory", 3);
    (Fault::Read(ReadFault::Device), "qconvex: 9: Device", 4);
    (Fault::Read(ReadFault::Big), "qconvex: 10: Big", 1);
    (Fault::Send, "qconvex: 11: Send", 4);
    (Fault::Usage, "qconvex: 12: Usage", 2);
    (Fault::Read(ReadFault::NotOff), "qconvex: 14: NotOff", 1);
];

#[test]
fn each_fault_has_its_line_and_status(rt: HostRuntime) -> Result<(), Fail> {
    for (fault, line, status) in LINES {
        let refusal = Outcome::of(rt.alloc(), Err(&fault))?;
        assert_eq!(rt; refusal.told(), ("", line, status));
    }
    Ok(())
}
