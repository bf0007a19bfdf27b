//! The settings of a run, and the command line that specifies them.
//!
//! [`Settings`] are how the input is read, how many workers share the work, and which outputs are written; any program can
//! create them. [`settings_of`] parses the words of a command line by clap. [`HELP`] and [`VERSION`] are the texts that its
//! options request.
#![tactic(auto)]

mod command_line;
mod help;
mod settings;
#[cfg(test)]
mod tests;

pub use command_line::{ArgFault, settings_of};
pub use help::{HELP, VERSION};
pub use settings::{BLOCK_SIZE_LIMIT, Settings, SettingsError};
