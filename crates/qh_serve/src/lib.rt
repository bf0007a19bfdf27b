//! Computes the text of a hull from the bytes of an input.
//!
//! [`answer`] takes a byte string; [`serve`] reads a source to its end and sends the text to a sink. `Settings` of
//! qh_command specify how the input is read, how many workers share the work and which outputs are written. A [`Fault`]
//! is the reason why there is no text. A command line is not needed: any program can create settings and call these
//! functions.
//!
//! For every input, number of workers, block size, list of outputs and interleaving of the workers' steps, the text is
//! the one that the points alone define, or the fault is the first of the input, or the call was out of memory. The
//! contract of `serve` also describes its devices: it sends nothing before it has read the whole input and made the
//! whole text, it flushes the text on success, and it calls no device again after a failure.
#![tactic(auto)]

mod answers;
mod fault;
mod hulls;
mod ranks;
mod serving;
mod threaded;

pub use answers::answer;
pub use fault::Fault;
pub use serving::serve;
pub use threaded::Threaded;
