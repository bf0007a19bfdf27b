//! Point files that the tests of several libraries use, and the OFF files of their hulls.

/// The point (5, 5, 5).
pub const ONE_POINT: &str = "3\n1\n5 5 5\n";

/// A square and its centre.
pub const SQUARE: &str = "3\n5\n0 0 0\n2 0 0\n2 2 0\n0 2 0\n1 1 0\n";

/// The square.
pub const SQUARE_OFF: &str = "OFF\n4 1 4\n0 0 0\n2 0 0\n2 2 0\n0 2 0\n4 0 1 2 3\n";

/// A tetrahedron with three corners on the axes.
pub const TETRAHEDRON: &str = "3\n4\n0 0 0\n1 0 0\n0 1 0\n0 0 1\n";

/// The tetrahedron.
pub const TETRAHEDRON_OFF: &str =
    "OFF\n4 4 6\n0 0 0\n1 0 0\n0 1 0\n0 0 1\n3 0 1 3\n3 0 2 1\n3 0 3 2\n3 1 2 3\n";

/// The same tetrahedron as `rbox` would write it, with comments.
pub const COMMENTED_TETRAHEDRON: &str =
    "3 rbox c z\r\n4\r\n0 0 0 origin\r\n1 0 0 # 7 8\r\n0 1 0\r\n0 0 1";

/// The unit cube, 52 bytes.
pub const CUBE: &str = "3\n8\n0 0 0\n0 0 1\n0 1 0\n0 1 1\n1 0 0\n1 0 1\n1 1 0\n1 1 1\n";

/// The unit cube.
pub const CUBE_OFF: &str =
    "OFF\n8 6 12\n0 0 0\n0 0 1\n0 1 0\n0 1 1\n1 0 0\n1 0 1\n1 1 0\n1 1 1\n4 0 1 3 2\n4 0 2 6 4\n4 0 4 5 1\n4 1 5 7 3\n4 2 3 7 6\n4 4 6 7 5\n";

/// An octahedron and the middles of its edges.
pub const OCTAHEDRON: &str =
    "3\n18\n2 0 0\n1 1 0\n0 2 0\n-2 0 0\n-1 -1 0\n0 -2 0\n0 0 2\n1 0 1\n0 1 1\n0 0 -2\n-1 0 -1\n0 -1 -1\n1 -1 0\n-1 1 0\n-1 0 1\n1 0 -1\n0 -1 1\n0 1 -1\n";

/// The octahedron.
pub const OCTAHEDRON_OFF: &str =
    "OFF\n6 8 12\n2 0 0\n0 2 0\n-2 0 0\n0 -2 0\n0 0 2\n0 0 -2\n3 0 1 4\n3 0 3 5\n3 0 4 3\n3 0 5 1\n3 1 2 4\n3 1 5 2\n3 2 3 4\n3 2 5 3\n";
