//! Writes hulls: creates their texts, and sends them to a device.
//!
//! [`text`] creates the text of a list of outputs, [`text_in_threads`] with several threads; [`send`] writes it to a
//! [`Sink`]. The devices are [`MemSink`], which keeps the bytes, and [`StdSink`], which wraps a writer of std.
//! [`Lines`] write to standard output or error, for a person.
#![tactic(auto)]

pub mod fakes;
mod lines;
mod mem_sink;
mod pieces;
mod sending;
mod sink;
mod std_sink;
mod texts;

pub use lines::{ErrorLines, Lines, OutLines};
pub use mem_sink::MemSink;
pub use pieces::Pieces;
pub use qh_model::Out;
pub use sending::{SendFault, send, send_pieces};
pub use sink::{Sink, SinkFault};
pub use std_sink::StdSink;
pub use texts::{text, text_in_threads};
