//! Minkowski reduction of a form in three dimensions.
//!
//! Source: Nguyen and Stehlé 2009 (greedy reduction in low dimensions).
ghost use Rattle.std.specs.Prelude.{◌<◌, IfSome};
ghost use Rattle.qh_model.specs.headline.Limits.{IsCoordinate};

use crate::form::{QuadraticForm, Rows, covariances};
use qh_model::{COORDINATE_LIMIT, Point};
use std::num::saturating_f64_to_i32;

/// The greatest number of sweeps over a basis. Each sweep shortens a row by at least a thousandth.
const SWEEPS: usize = 64;

/// A row counts as shorter if its new square is at most this share of the old one.
const SHORTER: f64 = 0.999;

/// Rows of whole numbers, as floats, and their form.
#[derive(Clone, Copy, Drop)]
struct Basis {
    rows: [[f64; 3]; 3],
    form: QuadraticForm,
}

/// Returns a point as floats.
fn components(p: Point) -> [f64; 3] {
    [f64::from(p.x()), f64::from(p.y()), f64::from(p.z())]
}

/// Converts a float that is a whole number to a coordinate, if it is in range.
fn coordinate(number: f64) -> Option<i32>
    ensures { IfSome result IsCoordinate }
{
    let whole = saturating_f64_to_i32(number);
    if whole.unsigned_abs() <= COORDINATE_LIMIT {
        Some(whole)
    } else {
        None
    }
}

/// Converts floats that are whole numbers to a point, if they are in range.
fn point(row: [f64; 3]) -> Option<Point> {
    Some(Point::new(
        coordinate(row[0])?,
        coordinate(row[1])?,
        coordinate(row[2])?,
    ))
}

impl Basis {
    /// Returns the basis of the rows, with the covariances of a sample.
    fn of(sample: &[Point], rows: &Rows) -> Basis {
        Basis {
            rows: [
                components(rows.first),
                components(rows.second),
                components(rows.third),
            ],
            form: covariances(sample, rows),
        }
    }

    /// Returns the rows, if they are in range.
    fn whole_rows(&self) -> Option<Rows> {
        Some(Rows {
            first: point(self.rows[0])?,
            second: point(self.rows[1])?,
            third: point(self.rows[2])?,
        })
    }

    /// Adds `times` times the row `from` to the row `to`.
    fn add(&mut self, to: usize, from: usize, times: f64)
        requires to { to < 3 }
        requires from { from < 3 }
    {
        for k in 0..3 {
            self.rows[to][k] += times * self.rows[from][k];
            self.form[to][k] += times * self.form[from][k];
        }
        for k in 0..3 {
            self.form[k][to] += times * self.form[k][from];
        }
    }

    /// Makes a row shorter by a multiple of another. Returns false if no multiple does.
    fn shorten(&mut self, row: usize, by: usize) -> bool
        requires row { row < 3 }
        requires by { by < 3 }
    {
        let square = self.form[row][row];
        let other = self.form[by][by];
        if !(other > 0.0) {
            return false;
        }
        let times = -(self.form[row][by] / other).round();
        let next = square + times * (2.0 * self.form[row][by] + times * other);
        let shortens = next < SHORTER * square;
        if shortens {
            self.add(row, by, times);
        }
        shortens
    }

    /// Makes a row shorter by the sum or the difference of the other two. Returns false if neither makes it shorter.
    fn shorten_by_both(&mut self, row: usize) -> bool
        requires { row < 3 }
    {
        let (j, k) = ((row + 1) % 3, (row + 2) % 3);
        for (one, two) in [(1.0, 1.0), (1.0, -1.0), (-1.0, 1.0), (-1.0, -1.0)] {
            let cross = one * self.form[row][j]
                + two * self.form[row][k]
                + one * two * self.form[j][k];
            let next = self.form[row][row] + self.form[j][j] + self.form[k][k] + 2.0 * cross;
            if next < SHORTER * self.form[row][row] {
                self.add(row, j, one);
                self.add(row, k, two);
                return true;
            }
        }
        false
    }

    /// Makes each row shorter by the others, once. Returns false if no row got shorter.
    fn sweep(&mut self) -> bool {
        let mut shortened = false;
        for row in 0..3 {
            let next = self.shorten(row, (row + 1) % 3);
            let last = self.shorten(row, (row + 2) % 3);
            let both = self.shorten_by_both(row);
            shortened = shortened || next || last || both;
        }
        shortened
    }

    /// Reduces the rows by sweeps until none makes them shorter, or the limit is reached.
    fn reduce(&mut self) {
        for _ in 0..SWEEPS {
            if !self.sweep() {
                return;
            }
        }
    }
}

/// Reduces rows of determinant 1 and returns rows of determinant 1 along which a sample is short. Returns `None` if
/// they are out of range.
pub(crate) fn reduced_rows(sample: &[Point], rows: &Rows) -> Option<Rows> {
    let mut basis = Basis::of(sample, rows);
    basis.reduce();
    basis.whole_rows()
}
