//! OFF files as input: written files are read back unchanged, and the rows of comments, faces and faults.
use super::solids::{LATTICE_OFF, LIMIT_CUBE_OFF, WIDE_CUBE_OFF};
use super::{assert_faults, assert_gives};
use crate::tests::outcomes::{Asked, FX, OFF, RANK};
use qh_fixtures::faults::OF_OFF_FILES;
use qh_fixtures::files::{CUBE_OFF, OCTAHEDRON_OFF, SQUARE_OFF, TETRAHEDRON_OFF};
use qh_model::Form;
use std::test::Fail;

/// Texts of `off` that `off` reproduces from their own points.
const ROUND_TRIPS: [&str; 11] = [
    "OFF\n1 1 0\n5 5 5\n1 0\n",
    "OFF\n2 1 1\n0 0 0\n2 2 2\n2 0 1\n",
    "OFF\n2 1 1\n0 0 0\n4 4 4\n2 0 1\n",
    SQUARE_OFF,
    "OFF\n4 1 4\n5 0 0\n5 0 2\n5 2 2\n5 2 0\n4 0 3 2 1\n",
    TETRAHEDRON_OFF,
    CUBE_OFF,
    LATTICE_OFF,
    WIDE_CUBE_OFF,
    LIMIT_CUBE_OFF,
    OCTAHEDRON_OFF,
];

/// OFF files of one point.
const ONE_POINT: [&str; 4] = [
    "OFF 1 0 0 # one\n5 5 5",
    "OFF\n1 1 0\n5 5 5\n1 zero\n",
    "OFF#F\n1 1 0\n5#5\n5 5\n1 0\n",
    "OFF 1 0 0 5 5 5 6 6 6",
];

/// Returns parts of settings for OFF files.
fn from_off(asked: Asked) -> Asked {
    Asked {
        form: Form::Off,
        ..asked
    }
}

#[test]
fn gives_back_what_was_written(rt: HostRuntime) -> Result<(), Fail> {
    let asked = from_off(OFF.by(4, 3));
    for text in &ROUND_TRIPS {
        assert_gives(&rt, asked, text.as_bytes(), (text, "", 0))?;
    }
    Ok(())
}

#[test]
fn drops_comments_and_faces(rt: HostRuntime) -> Result<(), Fail> {
    for text in &ONE_POINT {
        assert_gives(&rt, from_off(RANK), text.as_bytes(), ("1 1 0\n", "", 0))?;
    }
    Ok(())
}

#[test]
fn refuses_inputs(rt: HostRuntime) -> Result<(), Fail> {
    assert_faults(&rt, from_off(FX), &OF_OFF_FILES)
}
