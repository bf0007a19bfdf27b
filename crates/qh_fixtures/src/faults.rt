//! Files with faults, by the first fault of each, and the line that the program writes for it.
use crate::table;
use qh_model::ReadFault;

/// A fault, its line, and files of which it is the first fault.
pub type FaultRow = (ReadFault, &'static str, &'static [&'static str]);

/// Point files. A byte order mark begins a comment there.
pub const OF_POINT_FILES: [FaultRow; 9] = table![
    (ReadFault::NoHeader, "qconvex: 1: NoHeader", &["", "3", "2", "2\n", "points below\n"]);
    (ReadFault::BadNumber(1), "qconvex: 2: BadNumber at line 1", &["1.5 3\n", "4 4.0\n"]);
    // The last three have bytes next to the digits in ASCII.
    (ReadFault::BadNumber(3), "qconvex: 2: BadNumber at line 3", &[
        "3\n2\n0 0 0 2nd\n1 1 1\n", "3\n1\n0 0.5 0\n", "3\n1\n- 0 0\n", "3\n1\n0 0 0\0", "3\n1\n0 0 0\x00\n",
        "3\n1\n0 0 5/\n", "3\n1\n0 0 5:\n", "3\n1\n0 0 1,5\n",
    ]);
    // Some numbers wrap to 3 in 32, 64 or 128 bits, as numbers below wrap into range.
    (ReadFault::NotThree, "qconvex: 3: NotThree", &[
        "2\n4\n", "2\n0\n", "\u{feff}3\n1\n5 5 5\n", "4294967299\n4\n", "18446744073709551619\n4\n",
        "4294967299\n1\n5 5 5\n", "18446744073709551619\n1\n5 5 5\n", "340282366920938463463374607431768211459\n1\n5 5 5\n",
    ]);
    (ReadFault::Count, "qconvex: 4: Count", &[
        "3\n0\n", "0 3\n", "-3 3\n", "3\n1048577\n", "3\n1073741824\n", "3\n1073741825\n", "3\n4294967299\n",
    ]);
    (ReadFault::Range(3), "qconvex: 5: Range at line 3", &[
        "3\n1\n0 0 1073741825\n", "3\n1\n0 -1073741825 0\n", "3\n1\n0 0 2147483649\n", "3\n1\n0 0 -4294967296\n",
        "3\n1\n0 0 4294967299\n", "3\n1\n0 0 10737418240\n", "3\n1\n0 0 42949672961\n", "3\n1\n0 0 18446744073709551619\n",
        "3\n1\n0 0 340282366920938463463374607431768211459\n", "3\n1\n0 0 -340282366920938463463374607431768211459\n",
        "3\n2\n0 0 9999999999 x\n0 0.5\n",
    ]);
    (ReadFault::Long(7), "qconvex: 6: Long at line 7", &["3\n4\n0 0 0\n1 0 0\n0 1 0\n0 0 1\n7\n"]);
    (ReadFault::Long(4), "qconvex: 6: Long at line 4", &["3\n1\n0 0 0 junk\n5.5\n", "3\n1\n5\r5\r5\n7\n"]);
    (ReadFault::Short, "qconvex: 7: Short", &["3\n1048576\n", "3\n4\n0 0 0\n1 0 0\n0 1 0\n0 0\n", "3\n1\n0 0 *5\n"]);
];

/// OFF files. A byte order mark is a part of the first word there.
pub const OF_OFF_FILES: [FaultRow; 8] = table![
    (ReadFault::NoHeader, "qconvex: 1: NoHeader", &[
        "", "# OFF\n", "OFF", "OFF\n1 1\n", "OFF\n0 1\n", "OFF\n1 2#3\n",
    ]);
    (ReadFault::BadNumber(1), "qconvex: 2: BadNumber at line 1", &["OFF BINARY\n"]);
    (ReadFault::BadNumber(2), "qconvex: 2: BadNumber at line 2", &["OFF\n1 0 x\n1 2 3\n", "OFF\n0 f 0\n"]);
    (ReadFault::BadNumber(3), "qconvex: 2: BadNumber at line 3", &[
        "OFF\n1 0 0\n1 2 3.0\n", "OFF\n1 0 0\n1 two 3\n", "OFF\n1 0 0\n1 2 OFF\n",
    ]);
    (ReadFault::Count, "qconvex: 4: Count", &[
        "OFF\n0 0 0\n", "OFF\n-1 0 0\n", "OFF\n1048577 0 0\n", "OFF\n4294967297 0 0\n5 5 5\n",
    ]);
    (ReadFault::Range(3), "qconvex: 5: Range at line 3", &["OFF\n1 0 0\n1 2 1073741825\n", "OFF\n1 0 0\n1 -4294967297 x\n"]);
    (ReadFault::Short, "qconvex: 7: Short", &["OFF\n2 0 0\n1 2 3\n4 5\n", "OFF\n1048576 0 0\n"]);
    (ReadFault::NotOff, "qconvex: 14: NotOff", &[
        "O", "OF", "OFFF", "OF F\n", "off\n1 0 0\n5 5 5\n", "COFF\n1 0 0\n5 5 5\n", "3\n1\n5 5 5\n",
        "\u{feff}OFF\n1 0 0\n5 5 5\n",
    ]);
];
