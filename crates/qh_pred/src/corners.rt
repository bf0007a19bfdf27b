//! Corners of the axis-parallel box that two points span.
ghost use Rattle.std.specs.Prelude.{◌≡◌, ◌⊎◌, ◌≤ℤ◌};
ghost use Rattle.qh_pred.specs.contract.Corners.{IsCornerOf, IsUnder};

use qh_model::Point;

/// Returns the lesser of two coordinates.
fn lesser(one: i32, two: i32) -> i32
    ensures end { (result ≡ one) ⊎ (result ≡ two) }
    ensures one { result ≤ℤ one }
    ensures two { result ≤ℤ two }
{
    if two < one { two } else { one }
}

/// Returns the greater of two coordinates.
fn greater(one: i32, two: i32) -> i32
    ensures end { (result ≡ one) ⊎ (result ≡ two) }
    ensures one { one ≤ℤ result }
    ensures two { two ≤ℤ result }
{
    if one < two { two } else { one }
}

/// Returns the lowest corner: the point with the lesser of two points' coordinates along each axis.
pub fn least_of(one: Point, two: Point) -> Point
    ensures corner { IsCornerOf one two result }
    ensures one { IsUnder result one }
    ensures two { IsUnder result two }
{
    Point::new(
        lesser(one.x(), two.x()),
        lesser(one.y(), two.y()),
        lesser(one.z(), two.z()),
    )
}

/// Returns the highest corner: the point with the greater of two points' coordinates along each axis.
pub fn greatest_of(one: Point, two: Point) -> Point
    ensures corner { IsCornerOf one two result }
    ensures one { IsUnder one result }
    ensures two { IsUnder two result }
{
    Point::new(
        greater(one.x(), two.x()),
        greater(one.y(), two.y()),
        greater(one.z(), two.z()),
    )
}
