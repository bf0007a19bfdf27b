//! The covariance form of a sample of points.
use crate::row::reach;
use qh_model::Point;
use std::num::nearest_i64_to_f64;

/// Three rows of whole numbers.
#[derive(Clone, Copy, Debug, Drop)]
pub(crate) struct Rows {
    pub first: Point,
    pub second: Point,
    pub third: Point,
}

/// A quadratic form of three dimensions, by the rows of its symmetric matrix.
pub(crate) type QuadraticForm = [[f64; 3]; 3];

/// The least determinant of a round form whose diagonal has the mean 1. The form of a ball has the determinant 1. That
/// of a needle 4.6 times as long as wide, or of a disc 8 times as wide as high, has this one.
const ROUND: f64 = 0.05;

/// Returns the distance from one point to another along a row.
fn way_along(row: Point, from: Point, to: Point) -> f64 {
    nearest_i64_to_f64(reach(row, to) - reach(row, from))
}

impl Rows {
    /// Returns the rows of the identity map.
    pub fn identity() -> Rows {
        Rows {
            first: Point::new(1, 0, 0),
            second: Point::new(0, 1, 0),
            third: Point::new(0, 0, 1),
        }
    }

    /// Returns the distance from one point to another along each row.
    fn way(&self, from: Point, to: Point) -> [f64; 3] {
        [
            way_along(self.first, from, to),
            way_along(self.second, from, to),
            way_along(self.third, from, to),
        ]
    }
}

/// Adds the products of all pairs of components of a vector to a form.
fn add_products(form: &mut QuadraticForm, way: [f64; 3]) {
    for i in 0..3 {
        form[i][0] += way[i] * way[0];
        form[i][1] += way[i] * way[1];
        form[i][2] += way[i] * way[2];
    }
}

/// Returns the covariances of a sample along all pairs of rows.
pub(crate) fn covariances(sample: &[Point], rows: &Rows) -> QuadraticForm {
    let mut form = [[0.0; 3]; 3];
    let Some(origin) = sample.first() else {
        return form;
    };
    let mut sum = [0.0; 3];
    for point in sample {
        let way = rows.way(*origin, *point);
        sum = [sum[0] + way[0], sum[1] + way[1], sum[2] + way[2]];
        add_products(&mut form, way);
    }
    let share = 1.0 / nearest_i64_to_f64(sample.len() as i64);
    for i in 0..3 {
        for j in 0..3 {
            form[i][j] = (form[i][j] - sum[i] * sum[j] * share) * share;
        }
    }
    form
}

/// Returns the determinant of a form.
fn determinant(form: &QuadraticForm) -> f64 {
    form[0][0] * (form[1][1] * form[2][2] - form[1][2] * form[2][1])
        - form[0][1] * (form[1][0] * form[2][2] - form[1][2] * form[2][0])
        + form[0][2] * (form[1][0] * form[2][1] - form[1][1] * form[2][0])
}

/// Returns true if a set with this form extends about equally in all directions.
pub(crate) fn is_round(form: &QuadraticForm) -> bool {
    let mean = (form[0][0] + form[1][1] + form[2][2]) / 3.0;
    determinant(form) >= ROUND * mean * mean * mean
}
