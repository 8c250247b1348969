//! Texts of `link_text`: lines as they are written, scripts as they are read.

mod commands;
mod head;
mod load;
mod writing;

use link_text::LineBuf;
use std::process::Abort;

/// Fails where a line isn't a row's.
fn expect_line(rt: &impl Abort, row: usize, line: &LineBuf, wanted: &[u8]) {
    assert_eq!(rt; line.as_slice(), wanted, "row {row}");
}
