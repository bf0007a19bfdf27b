//! The normal of three points.
ghost use Rattle.std.specs.Prelude.{◌≡◌};
ghost use Rattle.qh_model.specs.headline.Vector.{Vector, origin, minus};
ghost use Rattle.qh_pred.specs.contract.Bounds.{IsNormal};

use crate::components::Components;
use std::marker::Model;

/// A cross product of two differences of points, or its opposite: a vector of whole components, each of absolute value
/// `normal_limit` at most.
///
/// A contract sees it as its three whole numbers, without bound.
#[derive(Clone, Copy, Debug, PartialEq, Eq)]
pub struct Normal {
    x: i128,
    y: i128,
    z: i128,
}

impl Model for Normal {
    ghost use Rattle.qh_model.specs.{contract.Places.vector_code, headline.Vector.Vector};
    ghost use Rattle.qh_pred.specs.contract.Bounds.{IsNormal};

    ghost Value = { Vector };

    ghost coded = { vector_code };

    ghost view = { λ n. record { x = n.x; y = n.y; z = n.z } };

    ghost invariant = { λ n. IsNormal (record { x = n.x; y = n.y; z = n.z }) };

    ghost inverse = { λ n. record { x = n.x; y = n.y; z = n.z } };
}

impl Normal {
    /// Returns the normal with the components of a cross product.
    pub(crate) fn of_product(product: Components) -> Normal
        ensures { result ≡ product }
    {
        Normal {
            x: i128::from(product.x()),
            y: i128::from(product.y()),
            z: i128::from(product.z()),
        }
    }

    /// Returns the components in 64 bits, which is enough for them.
    pub(crate) fn components(&self) -> Components
        ensures { result ≡ self.now }
    {
        Components::new(self.x as i64, self.y as i64, self.z as i64)
    }

    /// Returns the first component.
    pub fn x(&self) -> i128
        ensures value { result ≡ self.now.x }
        ensures limit { IsNormal self.now }
    {
        self.x
    }

    /// Returns the second component.
    pub fn y(&self) -> i128
        ensures value { result ≡ self.now.y }
        ensures limit { IsNormal self.now }
    {
        self.y
    }

    /// Returns the third component.
    pub fn z(&self) -> i128
        ensures value { result ≡ self.now.z }
        ensures limit { IsNormal self.now }
    {
        self.z
    }

    /// Returns the normal of the opposite side.
    pub fn opposite(&self) -> Normal
        ensures { result ≡ minus origin self.now }
    {
        Normal {
            x: -self.x,
            y: -self.y,
            z: -self.z,
        }
    }
}
