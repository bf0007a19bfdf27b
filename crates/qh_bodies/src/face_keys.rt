//! One number for the three ids of a triangle. The numbers sort by the first id, then the second, then the third. So
//! sorting numbers sorts triangles, faster than sorting polygons.
ghost use Rattle.std.specs.Prelude.{◌≡◌};
ghost use Rattle.qh_bodies.specs.steps.FaceKeys.{key_of, key_of_three, triangle_in};

use qh_model::{Id, Polygon};

/// The range of an id in a key: three ids below 2^21 fill 63 bits.
const ID_ROOM: u64 = 2097152;

/// Returns the key of three ids, if all of them are in range.
fn key_of_three(a: Id, b: Id, c: Id) -> Option<u64>
    ensures { result ≡ key_of_three a b c }
{
    let (a, b, c) = (
        u64::from(a.number()),
        u64::from(b.number()),
        u64::from(c.number()),
    );
    if a < ID_ROOM && b < ID_ROOM && c < ID_ROOM {
        return Some((a * ID_ROOM + b) * ID_ROOM + c);
    }
    None
}

/// Returns the key of a triangle, if its ids are in range. Other polygons have no key.
pub fn key_of(polygon: &Polygon) -> Option<u64>
    ensures { result ≡ key_of polygon.now }
{
    match polygon.ids() {
        [a, b, c] => key_of_three(*a, *b, *c),
        _ => None,
    }
}

/// Returns the triangle of a key.
pub fn triangle_in(key: u64) -> Polygon
    ensures { result ≡ triangle_in key }
{
    let pair = key / ID_ROOM;
    Polygon::triangle(
        Id::new((pair / ID_ROOM) as u32),
        Id::new((pair % ID_ROOM) as u32),
        Id::new((key % ID_ROOM) as u32),
    )
}
