//! The cells through which one thread hands whole rows of words to another, and what every such cell promises.
//!
//! In reading order: `cell`, `seq_state`, and of it `plays` and `keeps`.
#![tactic(auto)]

mod cell;
mod seq_state;

pub use cell::{Read, StateCell};
pub use seq_state::{SeqNote, SeqReader, SeqState, SeqWriter};
