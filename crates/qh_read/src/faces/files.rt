//! The faces of a whole file.
ghost use Rattle.std.specs.Prelude.{◌≡◌, IfOk, IfErr};
ghost use Rattle.qh_read.specs.declared.faces.reading.Layout.TheVariants as layouts;
ghost use Rattle.qh_read.specs.contract.FaceFiles.{IsFaultOfFaces, ReadsFaces};
ghost use Rattle.qh_read.specs.steps.Lists.{AreOffFaces, AreWholeFaces, IsWholeFault};

use crate::faces::list::{skip_words, take_list};
use crate::faces::reading::{Faces, Layout, Reading};
use crate::{Numerals, read_off};
use qh_model::{BYTE_LIMIT, ReadFault};
use std::alloc::Global;

/// Returns the vertices and the faces of an OFF file.
fn read_off_faces(alloc: Global, bytes: &[u8], reading: Reading) -> Result<Faces, ReadFault>
    requires { reading.layout ≡ layouts.Off }
    ensures read { IfOk result (λ faces. AreOffFaces reading bytes.now faces.vertices.items faces.polygons.items) }
    ensures fault { IfErr result (IsFaultOfFaces layouts.Off bytes.now) }
{
    let vertices = read_off(alloc, bytes)?;
    let mut words = Numerals::of(bytes);
    // Skips the keyword and the number of vertices, then the number of edges and the coordinates.
    skip_words(&mut words, 2);
    let polygons = take_list(alloc, &mut words, 1 + 3 * vertices.len(), reading)?;
    Ok(Faces { vertices, polygons })
}

/// Returns the faces of a file that contains nothing but a list of faces.
fn read_whole_faces(alloc: Global, bytes: &[u8], reading: Reading) -> Result<Faces, ReadFault>
    ensures read { IfOk result (λ faces. AreWholeFaces reading bytes.now faces.vertices.items faces.polygons.items) }
    ensures fault { IfErr result (IsWholeFault reading.layout bytes.now) }
{
    if bytes.len() > BYTE_LIMIT as usize {
        return Err(ReadFault::Big);
    }
    let mut words = Numerals::of(bytes);
    let polygons = take_list(alloc, &mut words, 0, reading)?;
    Ok(Faces {
        vertices: Vec::new(alloc),
        polygons,
    })
}

/// Returns the vertices and the faces of a file, in its order, or its first fault.
///
/// A file that is not an OFF file has no vertices of its own.
///
/// # Errors
///
/// `Memory` if an allocation failed, `Big` if there are more than `BYTE_LIMIT` bytes, and else the first fault of the
/// text.
pub fn read_faces(alloc: Global, bytes: &[u8], reading: Reading) -> Result<Faces, ReadFault>
    ensures read { IfOk result (λ faces. ReadsFaces reading bytes.now faces.vertices.items faces.polygons.items) }
    ensures fault { IfErr result (IsFaultOfFaces reading.layout bytes.now) }
{
    match reading.layout {
        Layout::Off => read_off_faces(alloc, bytes, reading),
        Layout::Counted | Layout::Lines => read_whole_faces(alloc, bytes, reading),
    }
}
