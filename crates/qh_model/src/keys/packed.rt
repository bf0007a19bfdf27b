//! Two halves of 32 bits in one number.
ghost use Rattle.std.specs.Prelude.{◌≡◌};
ghost use Rattle.qh_model.specs.contract.Halves.{halves, high_of, low_of, packed};

use std::marker::Model;

/// The number of values of a half: 2^32.
pub const HALF_ROOM: u64 = 4294967296;

/// Two numbers of 32 bits in one of 64. Packed pairs compare as the pairs do: by the high half, then by the low one.
///
/// A contract sees a packed pair as the number, the high half times [`HALF_ROOM`] plus the low half.
#[derive(Clone, Copy, Debug, PartialEq, Eq, PartialOrd, Ord)]
pub struct Packed(u64);

impl Model for Packed {
    ghost use Rattle.std.specs.Prelude.{ℕ};

    ghost Value = { ℕ };

    ghost view = { λ key. key.0 };

    ghost inverse = { λ n. record { 0 = n } };
}

impl Packed {
    /// Packs two numbers.
    pub fn new(high: u32, low: u32) -> Packed
        ensures number { result ≡ packed high low }
        ensures halves { halves result ≡ (high, low) }
    {
        Packed(u64::from(high) * HALF_ROOM + u64::from(low))
    }

    /// Returns the high half.
    pub fn high(self) -> u32
        ensures { result ≡ high_of self }
    {
        (self.0 / HALF_ROOM) as u32
    }

    /// Returns the low half.
    pub fn low(self) -> u32
        ensures { result ≡ low_of self }
    {
        (self.0 % HALF_ROOM) as u32
    }

    /// Returns the pair with its halves swapped.
    pub fn swapped(self) -> Packed
        ensures { halves result ≡ (low_of self, high_of self) }
    {
        Packed::new(self.low(), self.high())
    }
}
