//! Reads point files, which are the text of a dimension, a number of points and their coordinates, and the vertices of
//! OFF files.
//!
//! [`read_points`] and [`read_off`] return the points in a byte string, or its first fault. [`read_from`] and
//! [`read_off_from`] do so for the bytes of a [`Source`], and [`read_form_threads`] with several threads. All of them
//! use [`Reader`], which takes the bytes in pieces and keeps none of them. [`Numerals`] iterates over the words of a
//! text as numbers, from which [`faces`] builds the faces in a file.
#![tactic(auto)]

mod batch;
mod builder;
mod coordinate;
mod cursor;
pub mod faces;
pub mod fakes;
mod fault;
mod filling;
mod known_points;
mod numbers;
mod numerals;
mod reader;
mod scanner;
mod segment;
mod segments;
mod source;
mod threads;
mod token;
mod whole;

pub use fault::FeedFault;
pub use numerals::{Numeral, Numerals};
pub use qh_model::ReadFault;
pub use reader::Reader;
pub use source::{DeviceFault, MemSource, Source, StdSource};
pub use threads::{Sizes, read_form_sizes, read_form_threads};
pub use whole::{
    PIECE_LENGTH, read_form, read_form_from, read_from, read_off, read_off_from, read_points,
};
