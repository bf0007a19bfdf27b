//! Points and ids.
ghost use Rattle.std.specs.Prelude.{◌≡◌};
ghost use Rattle.qh_model.specs.{contract.Places.IsPlace, headline.Vector.Vector};

use std::marker::Model;

/// A point of space with whole coordinates, each from -`COORDINATE_LIMIT` to `COORDINATE_LIMIT`.
///
/// A contract sees a point as its three whole numbers, without bound.
#[derive(Clone, Copy, Debug, PartialEq, Eq)]
pub struct Point {
    x: i32,
    y: i32,
    z: i32,
}

impl Model for Point {
    ghost use Rattle.qh_model.specs.{contract.Places.vector_code, contract.Places.IsPlace, headline.Vector.Vector};

    ghost Value = { Vector };

    ghost coded = { vector_code };

    ghost view = { λ p. record { x = p.x; y = p.y; z = p.z } };

    ghost invariant = { λ p. IsPlace (record { x = p.x; y = p.y; z = p.z }) };

    ghost inverse = { λ p. record { x = p.x; y = p.y; z = p.z } };
}

impl Point {
    /// Returns the point with these coordinates. The caller keeps them within the limit.
    pub fn new(x: i32, y: i32, z: i32) -> Point
        requires { IsPlace (record { x = x; y = y; z = z }) }
        ensures { result ≡ record { x = x; y = y; z = z } }
    {
        Point { x, y, z }
    }

    /// Returns the first coordinate.
    pub fn x(self) -> i32
        ensures value { result ≡ self.x }
        ensures limit { IsPlace self }
    {
        self.x
    }

    /// Returns the second coordinate.
    pub fn y(self) -> i32
        ensures value { result ≡ self.y }
        ensures limit { IsPlace self }
    {
        self.y
    }

    /// Returns the third coordinate.
    pub fn z(self) -> i32
        ensures value { result ≡ self.z }
        ensures limit { IsPlace self }
    {
        self.z
    }
}

/// The index of a point in a list, from 0. The list is the input, or the points that a call gathered.
///
/// A contract sees an id as its number.
#[derive(Clone, Copy, Debug, PartialEq, Eq, PartialOrd, Ord)]
pub struct Id(u32);

impl Model for Id {
    ghost use Rattle.std.specs.Prelude.{ℕ};

    ghost Value = { ℕ };

    ghost view = { λ id. id.0 };

    ghost inverse = { λ n. record { 0 = n } };
}

impl Id {
    /// Returns the id with this number.
    pub fn new(number: u32) -> Id
        ensures { result ≡ number }
    {
        Id(number)
    }

    /// Returns the number of the id.
    pub fn number(self) -> u32
        ensures { result ≡ self }
    {
        self.0
    }

    /// Returns the number of the id as an index into a list.
    pub fn index(self) -> usize
        ensures { result ≡ self }
    {
        self.0 as usize
    }
}
