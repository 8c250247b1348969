//! The lines of texts and their words: cut, read and put together.
//!
//! In reading order: `text_line` (the lines of a text), `word`, `number`, `truth`, `endpoint` (what a word says), `words` (a line word by
//! word), `line` (a line that is put together).
#![tactic(auto)]

mod endpoint;
mod line;
mod number;
mod text_line;
mod truth;
mod word;
mod words;

pub use endpoint::endpoint_of;
pub use line::{
    LineBuf, put, put_client_start, put_decimal, put_endpoint, put_hex, put_short_hex, put_signed,
    put_timeline, put_truth,
};
pub use number::{amount_of, number_of, signed_of};
pub use text_line::line_at;
pub use truth::truth_of;
pub use words::{first_word, is_end, is_word, next_word};
