//! The texts that options request.

/// The text that `--version` prints.
pub const VERSION: &str = "qconvex 0.2.0\n";

/// The text that `--help` prints. The manual page is made from it, too (`scripts/make/man_page.py`).
pub const HELP: &str = "qconvex 0.2.0: the exact convex hull of whole-number points in space

Usage: qconvex [--from FORM] [--workers N] [--block N] [OUT]...

Reads points on standard input and writes their hull on standard output:

    printf '3\\n4\\n0 0 0\\n1 0 0\\n0 1 0\\n0 0 1\\n' | qconvex off

The input is the dimension 3, the number of points, then x, y and z of each
point. A word that begins with no digit, sign or point starts a comment to the
end of its line.

OUT, any of these in any order [default: s]:
  rank  the numbers of points and of distinct points, and the dimension
  s     a summary: dimension, distinct points, extreme points, facets, edges
  Fx    the number of extreme points, then their indices from 0, one a line
  off   OFF: the extreme points and each face, counterclockwise from outside
  offt  the same with each face as triangles, all from its first corner

Options:
  --from FORM  how the input tells its points: qhull, as above, or off, an
               OFF file, of which the vertices are read and the faces
               dropped; byte # starts a comment there [default: qhull]
  --workers N  how many workers share the work, 1 to 64 [default: 4]
  --block N    how many points a block has, whose hull is taken first,
               1 to 1048576 [default: 4096]
  -h, --help   print this text
  --version    print the version

Exit status:
  0  answered
  1  the input is refused: 1 NoHeader, 2 BadNumber, 3 NotThree, 4 Count,
     5 Range, 6 Long, 7 Short, 10 Big, 14 NotOff
  2  the command line is refused: 12 Usage
  3  out of memory: 8 Memory
  4  a device failed: 9 Device, 11 Send

docs/FAULTS.md explains each fault; hullexplain FILE shows where it is.
";
