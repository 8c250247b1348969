//! A cell whose calls never wait: three rows of words, of which the writer has one, the reader has one, and one is
//! handed over by a swap of the state word.
//!
//! In reading order: `word`, `views`, `plays`, `tokens`, `triple`, and of its calls `steps`,
//! `settle`.
#![tactic(auto)]

mod plays;
mod tokens;
mod triple;
mod views;
mod word;

pub use tokens::{TripleNote, TripleReader, TripleWriter};
pub use triple::{Triple, triple_tells_its_steps};
