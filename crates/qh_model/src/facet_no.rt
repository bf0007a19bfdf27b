//! The numbers of facets.
ghost use Rattle.std.specs.Prelude.{◌≡◌};

use std::marker::Model;

/// The number of a facet: its place in the mesh that has it, from 0.
///
/// A contract sees it as a number.
#[derive(Clone, Copy, Debug, PartialEq, Eq, Drop)]
pub struct FacetNo(usize);

impl Model for FacetNo {
    ghost use Rattle.std.specs.Prelude.{ℕ};

    ghost Value = { ℕ };

    ghost view = { λ f. f.0 };

    ghost inverse = { λ n. record { 0 = n } };
}

impl FacetNo {
    /// Returns the facet with this number.
    pub fn new(number: usize) -> FacetNo
        ensures { result ≡ number }
    {
        FacetNo(number)
    }

    /// Returns the number as an index into a list.
    pub fn index(self) -> usize
        ensures { result ≡ self }
    {
        self.0
    }
}
