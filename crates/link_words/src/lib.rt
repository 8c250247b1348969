//! The words after the program's name: which command the first one names, and what the others say.
//!
//! In reading order: `command_line`, `command_name`; `command_words` (what the commands share whose words clap reads), `value_words`
//! (those with two values), `load_words`, `midi_words`; `option_words` (options and flags), `live_words`; `endpoint_words`,
//! `control_words`.
#![tactic(auto)]

mod command_line;
mod command_name;
mod command_words;
mod control_words;
mod endpoint_words;
mod live_words;
mod load_words;
mod midi_words;
mod option_words;
mod value_words;

pub use command_line::is_only;
pub use command_name::{CommandName, command_named};
pub use command_words::WordsFault;
pub use control_words::{ControlOptions, control_command, control_matches, control_options};
pub use live_words::{LiveOptions, live_command, live_matches, live_options};
pub use load_words::{LoadNumbers, load_command, load_matches, load_numbers};
pub use midi_words::{MidiNumbers, midi_command, midi_matches, midi_numbers};
