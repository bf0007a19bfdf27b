//! Lists that are long enough for threads, with and without repeated points.
use qh_fixtures::Host;
use qh_model::{Id, POINT_LIMIT, Point};
use qh_plane::{distinct, distinct_alone, distinct_in_threads};
use std::test::Fail;

/// The number of places. They differ in x, and lie neither close together nor in order.
const PLACES: usize = 100_000;

/// Returns the place with this number.
fn place(number: usize) -> Point {
    let x = number % PLACES * 7919 % PLACES;
    let y = number % PLACES * 31_337 % 999_983;
    let z = number % PLACES * (number % PLACES) % 999_979;
    Point::new(x as i32, y as i32, z as i32)
}

/// The number of places of the grid: 11 along each axis.
const GRID_PLACES: usize = 1331;

/// Returns the place of the grid with this number.
fn grid_place(number: usize) -> Point {
    let (x, y, z) = (number % 11, number / 11 % 11, number / 121 % 11);
    Point::new(x as i32, y as i32, z as i32)
}

/// Asserts that the ids are those of the first points, one for each of `places` places.
fn assert_first(rt: &impl Host, ids: &[Id], places: usize) {
    assert_eq!(rt; ids.len(), places);
    for (number, id) in ids.iter().enumerate() {
        assert_eq!(rt; id.index(), number);
    }
}

/// Asserts that the distinct ids, with each number of threads of `all`, with all processors and with none but the
/// calling thread, are those of the first points, one for each of `places` places.
fn assert_distinct(rt: &impl Host, pts: &[Point], all: &[u32], places: usize) -> Result<(), Fail> {
    if pts.len() > POINT_LIMIT as usize {
        return Err("too many points".into());
    }
    for threads in all {
        let ids = distinct_in_threads(rt, rt.alloc(), pts, *threads)?;
        assert_first(rt, &ids, places);
    }
    assert_first(rt, &distinct(rt, rt.alloc(), pts)?, places);
    assert_first(rt, &distinct_alone(rt.alloc(), pts)?, places);
    Ok(())
}

#[test]
fn first_of_each_place(rt: HostRuntime) -> Result<(), Fail> {
    for count in [PLACES, PLACES + 40_000] {
        // The points repeat all places in order.
        let pts = (0..count).map(place).collect::<Vec<Point>>(rt.alloc())?;
        assert_distinct(&rt, &pts, &[0, 1, 2, 3, 4], PLACES)?;
    }
    Ok(())
}

#[test]
fn first_of_each_place_of_a_grid(rt: HostRuntime) -> Result<(), Fail> {
    let places = (0..140_000).map(grid_place);
    let pts = places.collect::<Vec<Point>>(rt.alloc())?;
    assert_distinct(&rt, &pts, &[1, 2, 4], GRID_PLACES)
}
