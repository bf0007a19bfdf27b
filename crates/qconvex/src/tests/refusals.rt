//! The program where one allocation fails. `scripts/trials/refusals.py` makes each allocation fail in turn.
use super::stand_in::{StandIn, Stream};
use crate::system::start;
use std::process::ExitCode;
use std::test::Fail;

/// An octahedron and the middles of its edges.
const OCTAHEDRON: &str =
    "3\n18\n2 0 0\n1 1 0\n0 2 0\n-2 0 0\n-1 -1 0\n0 -2 0\n0 0 2\n1 0 1\n0 1 1\n0 0 -2\n-1 0 -1\n0 -1 -1\n1 -1 0\n-1 1 0\n-1 0 1\n1 0 -1\n0 -1 1\n0 1 -1\n";

const OCTAHEDRON_OFF: &str =
    "OFF\n6 8 12\n2 0 0\n0 2 0\n-2 0 0\n0 -2 0\n0 0 2\n0 0 -2\n3 0 1 4\n3 0 3 5\n3 0 4 3\n3 0 5 1\n3 1 2 4\n3 1 5 2\n3 2 3 4\n3 2 5 3\n";

/// Returns true if the program ends with the text of the octahedron, or out of memory with the line of that fault. The
/// allocation may fail while the program parses its words or later.
#[test]
fn tells_that_it_is_out_of_memory(rt: HostRuntime) -> Result<(), Fail> {
    let stand_in = StandIn {
        rt: &rt,
        words: &["qconvex", "--workers", "1", "--block=3", "off"],
        input: OCTAHEDRON.as_bytes(),
        output: Stream::new(OCTAHEDRON_OFF.as_bytes(), 999),
        error: Stream::new(b"qconvex: 8: Memory\n", 99),
    };
    let code = start(&stand_in);
    if code == ExitCode::SUCCESS {
        assert!(rt; stand_in.output.is_whole() && stand_in.error.is_untouched());
    } else {
        assert_eq!(rt; code, ExitCode::from(3));
        assert!(rt; stand_in.output.is_untouched() && stand_in.error.is_whole());
    }
    Ok(())
}
