//! Sets that are mapped, and others. A map multiplies all volumes by one number, and fills the range along each axis.

use qh_fixtures::ids::ids_of;
use qh_lattice::reduced;
use qh_model::{COORDINATE_LIMIT, Id, Memory, Point};
use qh_pred::vol;
use std::alloc::{AllocError, Global};
use std::test::Fail;

/// The number of points of a set.
const COUNT: u16 = 5000;

/// Returns points of a rod along (1, 2, 3) that is some units thick, those of a grid with equal length, width and height,
/// and points in the plane of x and z.
fn sets(alloc: Global) -> Result<[Vec<Point>; 3], AllocError> {
    let (mut rod, mut grid, mut sheet) = (Vec::new(alloc), Vec::new(alloc), Vec::new(alloc));
    for number in 0..COUNT {
        let k = i32::from(number);
        rod.push(Point::new(k, 2 * k + k % 3, 3 * k + k % 5))?;
        grid.push(Point::new(k % 17, k / 17 % 17, k / 289))?;
        sheet.push(Point::new(k, 0, k % 71))?;
    }
    Ok([rod, grid, sheet])
}

/// Returns the images of points under the map that is found for all of them.
fn images_of(alloc: Global, points: &[Point]) -> Result<Option<Vec<Point>>, Memory> {
    let numbers = (0..u32::from(COUNT)).collect::<Vec<u32>>(alloc)?;
    let ids = ids_of(alloc, points, &numbers)?;
    if ids.is_empty() {
        return Ok(None);
    }
    reduced(alloc, points, &ids)
}

/// Returns the volume of four points of a list, each about `step` positions after the one before.
fn volume(points: &[Point], step: u16) -> Option<i128> {
    let step = usize::from(step);
    let (a, b) = (points.get(1)?, points.get(1 + step)?);
    let (c, d) = (points.get(2 + 2 * step)?, points.get(4 + 3 * step)?);
    Some(vol(*a, *b, *c, *d))
}

/// Returns the ratio of the volumes of four images and of their points.
fn volume_ratio(images: &[Point], points: &[Point], step: u16) -> Option<i128> {
    volume(images, step)?.checked_div(volume(points, step)?)
}

#[test]
fn a_rod_is_mapped(rt: HostRuntime) -> Result<(), Fail> {
    let [points, _, _] = sets(rt.alloc())?;
    let images = images_of(rt.alloc(), &points)?.ok_or("no map")?;
    assert_eq!(rt; images.len(), points.len());
    let far = (COORDINATE_LIMIT - COORDINATE_LIMIT / 8) as i32;
    assert!(rt; images.iter().any(|p| p.x() > far) && images.iter().any(|p| p.x() < -far));
    assert!(rt; images.iter().any(|p| p.y() > far) && images.iter().any(|p| p.y() < -far));
    assert!(rt; images.iter().any(|p| p.z() > far) && images.iter().any(|p| p.z() < -far));
    let ratios = [7, 1001].map(|step| volume_ratio(&images, &points, step));
    assert!(rt; ratios[0] > Some(0) && ratios[0] == ratios[1], "{ratios:?}");
    Ok(())
}

#[test]
fn a_grid_and_a_sheet_stay(rt: HostRuntime) -> Result<(), Fail> {
    let [_, grid, sheet] = sets(rt.alloc())?;
    assert!(rt; images_of(rt.alloc(), &grid)?.is_none());
    assert!(rt; images_of(rt.alloc(), &sheet)?.is_none());
    Ok(())
}
