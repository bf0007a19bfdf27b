//! Spans of numbers, and bounds of products with them.
ghost use Rattle.std.specs.Prelude.{◌≡◌, ◌≤◌, ◌^◌, ◌*ℤ◌, ◌-ℤ◌, ◌≤ℤ◌, ℤ, IsTrue, unsigned_abs};
ghost use Rattle.qh_pred.specs.contract.Ranges.{IsBetween, IsFarEnd};

/// The greatest multiple of a direction: 2^46.
pub(crate) const TIMES_LIMIT: i64 = 70368744177664;

/// The greatest size of an end of a span: 2^62.
pub(crate) const END_LIMIT: i64 = 4611686018427387904;

/// A closed range of numbers.
#[derive(Clone, Copy, Drop)]
pub(crate) struct Span {
    pub low: i64,
    pub high: i64,
    ghost low_limit: { unsigned_abs low ≤ 2 ^ 62 },
    ghost high_limit: { unsigned_abs high ≤ 2 ^ 62 },
}

/// Returns the end of a range at which a product with this factor is greatest.
fn far_end(factor: i64, low: i64, high: i64) -> i64
    ensures { IsFarEnd factor low high result }
{
    if factor > 0 { high } else { low }
}

/// Returns the product of a component and a number.
fn way_product(way: i64, number: i64) -> i128
    requires { unsigned_abs way ≤ 2 ^ 32 }
    ensures value { result ≡ way *ℤ number }
    ensures limit { unsigned_abs result ≤ 2 ^ 95 }
{
    i128::from(way) * i128::from(number)
}

/// Returns the greatest product of a component and a number of a closed range.
fn far_product(way: i64, low: i64, high: i64) -> i128
    requires { unsigned_abs way ≤ 2 ^ 32 }
    ensures value { (r : ℤ) → IsBetween low r high → (way *ℤ r) ≤ℤ result }
    ensures limit { unsigned_abs result ≤ 2 ^ 95 }
{
    way_product(way, far_end(way, low, high))
}

/// Returns the greater of two numbers.
fn greater(a: i128, b: i128) -> i128
    requires a { unsigned_abs a ≤ 2 ^ 95 }
    requires b { unsigned_abs b ≤ 2 ^ 95 }
    ensures above_a { a ≤ℤ result }
    ensures above_b { b ≤ℤ result }
    ensures limit { unsigned_abs result ≤ 2 ^ 95 }
{
    if a < b { b } else { a }
}

/// Returns the share of a direction in a normal along one axis: the component of the direction, multiplied by a factor.
fn share(times: i64, component: i16) -> i64
    requires { unsigned_abs times ≤ 2 ^ 46 }
    ensures value { result ≡ times *ℤ component }
    ensures limit { unsigned_abs result ≤ 2 ^ 61 }
{
    times * i64::from(component)
}

/// Returns an end of a span minus a share.
fn end_rest(end: i64, share: i64) -> i64
    requires end { unsigned_abs end ≤ 2 ^ 62 }
    requires share { unsigned_abs share ≤ 2 ^ 61 }
    ensures { result ≡ end -ℤ share }
{
    end - share
}

impl Span {
    /// Returns the greatest product of two numbers: a number of the span minus a multiple of a component, and a number
    /// from `from` to `to`.
    pub fn far_rest(&self, times: i64, component: i16, from: i64, to: i64) -> i128
        requires times { unsigned_abs times ≤ 2 ^ 46 }
        requires from { unsigned_abs from ≤ 2 ^ 32 }
        requires to { unsigned_abs to ≤ 2 ^ 32 }
        ensures value { (n w : ℤ) → IsBetween self.now.low n self.now.high → IsBetween from w to
            → ((n -ℤ times *ℤ component) *ℤ w) ≤ℤ result }
        ensures limit { unsigned_abs result ≤ 2 ^ 95 }
    {
        let taken = share(times, component);
        let (low, high) = (end_rest(self.low, taken), end_rest(self.high, taken));
        greater(far_product(from, low, high), far_product(to, low, high))
    }

    /// Returns true if a number is in the span.
    pub fn has(self, number: i128) -> bool
        ensures { IsTrue result → IsBetween self.low number self.high }
    {
        i128::from(self.low) <= number && number <= i128::from(self.high)
    }

    /// Returns the span extended by a number.
    pub fn with(self, number: i64) -> Span
        requires { unsigned_abs number ≤ 2 ^ 62 }
    {
        Span {
            low: self.low.min(number),
            high: self.high.max(number),
        }
    }

    /// Returns the product of the middle of the span and a component, without the lowest 28 bits, computed from the
    /// upper bits of the ends.
    pub fn middle_product(self, component: i16) -> i64 {
        self.low
            .wrapping_shr(29)
            .wrapping_add(self.high.wrapping_shr(29))
            .wrapping_mul(i64::from(component))
    }
}
