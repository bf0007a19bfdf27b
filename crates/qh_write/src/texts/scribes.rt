//! Scribes, which write the lines of vertices and faces: with the calling thread alone, or with several threads.
ghost use Rattle.std.specs.Prelude.{◌≡◌, ◌++◌, ◌*◌, ◌<◌, IfOk, OnOk, All, length, take, drop};
ghost use Rattle.std.specs.{List.flat_map, Thread.IsSync};
ghost use Rattle.qh_model.specs.headline.{Predicates.place, Text.vertex_text};
ghost use Rattle.qh_write.specs.{contract.Pieces.bytes_in, steps.Forms.shown, steps.Numberings.AreNumbered, steps.Numberings.face_by_numbers};

use super::forms::FaceForm;
use super::numbering::VertexNumbers;
use super::off::push_vertices;
use super::room::{room_for, vertices_room};
use crate::pieces::Pieces;
use qh_model::{Body, Id, Out, Point, Polygon};
use qh_threads::{PARTS_FOR_EACH, map_claimed};
use std::alloc::{AllocError, Global};
use std::thread::Threads;

/// The least number of vertices or faces whose lines are shared between threads.
const SHARED_FROM: usize = 16_384;

/// The vertices of a text.
#[derive(Clone, Copy)]
pub struct Vertices<'a> {
    /// All points.
    pub pts: &'a [Point],
    /// The vertices, as indices of the points.
    pub ids: &'a [Id],
}

/// The faces of a text.
#[derive(Clone, Copy)]
pub struct NumberedFaces<'a> {
    /// The form in which the faces are written.
    pub form: FaceForm,
    /// The number of each vertex.
    pub numbers: &'a VertexNumbers<'a>,
    /// The faces, by the ids of their corners.
    pub polygons: &'a [Polygon],
}

/// A way to write the lines of vertices and faces.
pub trait Scribe {
    /// Precondition of this scribe.
    ghost ready: { Self → Type 0 };

    /// Returns an upper bound, or a first estimate, of the number of bytes of the first piece of a text.
    fn room(&self, body: &Body, outs: &[Out]) -> usize;

    /// Appends the points of vertices.
    fn push_vertices(
        &self,
        text: &mut Pieces,
        alloc: Global,
        vertices: Vertices,
    ) -> Result<(), AllocError>
        requires ready { ready self.now }
        requires within { All (λ i. i < length vertices.pts.now) vertices.ids.now }
        ensures { OnOk result (bytes_in text.new ≡ bytes_in text.old
            ++ flat_map (λ i. vertex_text (place vertices.entry.pts.now i)) vertices.entry.ids.now) };

    /// Appends faces in their form, each vertex by its number.
    fn push_faces(
        &self,
        text: &mut Pieces,
        alloc: Global,
        faces: NumberedFaces,
    ) -> Result<(), AllocError>
        requires ready { ready self.now }
        requires numbered { All (AreNumbered faces.numbers.now) faces.polygons.now }
        ensures { OnOk result (bytes_in text.new ≡ bytes_in text.old
            ++ flat_map (face_by_numbers faces.entry.numbers.now) (shown faces.entry.form faces.entry.polygons.now)) };
}

/// Returns the part with this number of a list that is cut into parts of one size. The last part may be shorter, and
/// parts past it are empty.
fn part_of<T>(items: &[T], size: usize, number: usize) -> &[T]
    ensures { result.now ≡ take size (drop (number * size) items.now) }
{
    let from = number.saturating_mul(size).min(items.len());
    let (_, rest) = items.split_at(from);
    let (part, _) = rest.split_at(size.min(rest.len()));
    part
}

/// Returns the lines of the points with these ids.
fn vertices_text(alloc: Global, pts: &[Point], ids: &[Id]) -> Result<Vec<u8>, AllocError>
    requires { All (λ i. i < length pts.now) ids.now }
    ensures { IfOk result (λ t. t.items ≡ flat_map (λ i. vertex_text (place pts.now i)) ids.now) }
{
    let mut text = Vec::with_capacity(alloc, vertices_room(ids.len()))?;
    push_vertices(&mut text, pts, ids)?;
    Ok(text)
}

/// Returns the lines of faces in a form, each vertex by its number.
fn faces_text(
    alloc: Global,
    form: FaceForm,
    numbers: &VertexNumbers,
    faces: &[Polygon],
) -> Result<Vec<u8>, AllocError>
    requires { All (AreNumbered numbers.now) faces.now }
    ensures { IfOk result (λ t. t.items ≡ flat_map (face_by_numbers numbers.now) (shown form faces.now)) }
{
    let mut text = Vec::with_capacity(alloc, form.room(faces))?;
    form.push(&mut text, numbers, faces)?;
    Ok(text)
}

/// The scribe that uses the calling thread alone.
#[derive(Clone, Copy, Debug)]
pub struct Alone;

impl Scribe for Alone {
    ghost ready = { λ _. Unit {0} };

    fn room(&self, body: &Body, outs: &[Out]) -> usize {
        room_for(body, outs)
    }

    fn push_vertices(
        &self,
        text: &mut Pieces,
        _alloc: Global,
        vertices: Vertices,
    ) -> Result<(), AllocError> {
        push_vertices(&mut text.last, vertices.pts, vertices.ids)
    }

    fn push_faces(
        &self,
        text: &mut Pieces,
        _alloc: Global,
        faces: NumberedFaces,
    ) -> Result<(), AllocError> {
        faces
            .form
            .push(&mut text.last, faces.numbers, faces.polygons)
    }
}

/// A runtime and the greatest number of its threads.
#[derive(Clone, Copy, Debug)]
pub struct InThreads<'a, R> {
    pub rt: &'a R,
    pub threads: usize,
}

impl<R> InThreads<'_, R> {
    /// Returns true if threads share this number of lines.
    fn share(&self, lines: usize) -> bool {
        self.threads > 1 && lines >= SHARED_FROM
    }
}

impl<R: Threads + Sync> Scribe for InThreads<'_, R> {
    ghost ready = { λ _. IsSync R.row };

    fn room(&self, body: &Body, outs: &[Out]) -> usize {
        // The output of the threads is kept as separate pieces.
        if self.share(body.polygons.len()) {
            0
        } else {
            room_for(body, outs)
        }
    }

    fn push_vertices(
        &self,
        text: &mut Pieces,
        alloc: Global,
        vertices: Vertices,
    ) -> Result<(), AllocError> {
        if !self.share(vertices.ids.len()) {
            return Alone.push_vertices(text, alloc, vertices);
        }
        let Vertices { pts, ids } = vertices;
        let count = self.threads.max(1).saturating_mul(PARTS_FOR_EACH);
        let size = ids.len() / count + 1;
        let parts = map_claimed(
            self.rt,
            alloc,
            self.threads,
            count,
            &move |number: usize| -> Result<Vec<u8>, AllocError>
                requires { All (λ i. i < length pts.now) ids.now }
                ensures { IfOk result (λ t. t.items ≡ flat_map (λ i. vertex_text (place pts.entry.now i)) (take size (drop (number * size) ids.entry.now))) }
            { vertices_text(alloc, pts, part_of(ids, size, number)) },
        )?;
        text.append_parts(alloc, parts)
    }

    fn push_faces(
        &self,
        text: &mut Pieces,
        alloc: Global,
        faces: NumberedFaces,
    ) -> Result<(), AllocError> {
        if !self.share(faces.polygons.len()) {
            return Alone.push_faces(text, alloc, faces);
        }
        let NumberedFaces {
            form,
            numbers,
            polygons,
        } = faces;
        let count = self.threads.max(1).saturating_mul(PARTS_FOR_EACH);
        let size = polygons.len() / count + 1;
        let parts = map_claimed(
            self.rt,
            alloc,
            self.threads,
            count,
            &move |number: usize| -> Result<Vec<u8>, AllocError>
                requires { All (AreNumbered numbers.now) polygons.now }
                ensures { IfOk result (λ t. t.items ≡ flat_map (face_by_numbers numbers.entry.now)
                    (shown form (take size (drop (number * size) polygons.entry.now)))) }
            { faces_text(alloc, form, numbers, part_of(polygons, size, number)) },
        )?;
        text.append_parts(alloc, parts)
    }
}
