//! The program over fake streams.
use super::stand_in::{StandIn, Stream};
use crate::system::start;
use qh_command::{HELP, VERSION};
use std::process::ExitCode;
use std::test::Fail;

const ONE_POINT: &str = "3\n1\n5 5 5\n";

/// A square and its centre.
const SQUARE: &str = "3\n5\n0 0 0\n2 0 0\n2 2 0\n0 2 0\n1 1 0\n";

const SQUARE_OFF_AND_SUMMARY: &str =
    "OFF\n4 1 4\n0 0 0\n2 0 0\n2 2 0\n0 2 0\n4 0 1 2 3\nConvex hull of 5 points in 3-d:\n  dimension: 2\n  distinct points: 5\n  extreme points: 4\n  facets: 1\n  edges: 4\n";

/// Words, an input, the capacity of standard output in bytes, the exit status, the text on standard output, and the
/// text on standard error.
const RUNS: [(&[&str], &str, usize, u8, &str, &str); 13] = table![
    (&["qconvex", "rank"], ONE_POINT, 99, 0, "1 1 0\n", "");
    (&["qconvex", "rank", "Fx"], ONE_POINT, 99, 0, "1 1 0\n1\n0\n", "");
    (&["qconvex", "off"], "3\n1\n5 5\n", 99, 1, "", "qconvex: 7: Short\n");
    (&["qconvex"], "3\n1\n5 5 0.5\n", 99, 1, "", "qconvex: 2: BadNumber at line 3\n");
    (&["qconvex", "--from", "off", "rank"], "OFF\n1 1 0\n5 5 5\n1 0\n", 99, 0, "1 1 0\n", "");
    (&["qconvex", "--from=off"], ONE_POINT, 99, 1, "", "qconvex: 14: NotOff\n");
    (&["qconvex", "off", "--workers", "2", "s", "--block=3"], SQUARE, 999, 0, SQUARE_OFF_AND_SUMMARY, "");
    (&["qconvex", "--", "offt"], SQUARE, 99, 0, "OFF\n4 2 5\n0 0 0\n2 0 0\n2 2 0\n0 2 0\n3 0 1 2\n3 0 2 3\n", "");
    (&["qconvex", "--help"], "", 9999, 0, HELP, "");
    (&["qconvex", "--version"], "", 99, 0, VERSION, "");
    (&["qconvex", "-h"], "", 9, 4, "", "qconvex: 11: Send\n");
    (&["qconvex", "--workers", "0"], ONE_POINT, 99, 2, "", "qconvex: 12: Usage\n");
    (&["qconvex", "rank"], ONE_POINT, 5, 4, "", "qconvex: 11: Send\n");
];

#[test]
fn runs(rt: HostRuntime) -> Result<(), Fail> {
    for (words, input, room, status, wanted, line) in RUNS {
        let stand_in = StandIn {
            rt: &rt,
            words,
            input: input.as_bytes(),
            output: Stream::new(wanted.as_bytes(), room),
            error: Stream::new(line.as_bytes(), 99),
        };
        let code = start(&stand_in);
        let found = (code, stand_in.output.is_whole(), stand_in.error.is_whole());
        assert_eq!(rt; found, (ExitCode::from(status), true, true), "at {words:?}");
    }
    Ok(())
}
