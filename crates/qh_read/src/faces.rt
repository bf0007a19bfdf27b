//! Reads faces from a file that any program may have written.
//!
//! [`read_faces`] returns the vertices and the faces in a byte string, or its first fault. `corners` parses the corners
//! of faces from the words of [`Numerals`](crate::Numerals), `face` parses a face, `list` all faces, and `files` a
//! whole file.

mod corners;
mod face;
mod files;
mod list;
mod reading;

pub use files::read_faces;
pub use reading::{Faces, Layout, Orientation, Reading};
