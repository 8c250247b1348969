//! Numbers in texts for people.

use std::fmt;

/// So many of something, by the word for one of it.
#[derive(Clone, Copy)]
pub struct Counted<'a>(pub u64, pub &'a str);

impl<'a> fmt::Display for Counted<'a> {
    fn fmt<W: fmt::Write>(&self, f: &mut fmt::Formatter<W>) -> fmt::Result {
        let count = self.0;
        let word = self.1;
        if count == 1 {
            write!(f, "1 {word}")
        } else {
            write!(f, "{count} {word}s")
        }
    }
}

/// A number in millionths, as a decimal number without zeros at its end.
#[derive(Clone, Copy)]
pub struct Millionths(pub u64);

impl fmt::Display for Millionths {
    fn fmt<W: fmt::Write>(&self, f: &mut fmt::Formatter<W>) -> fmt::Result {
        let whole = self.0 / 1_000_000;
        let parts = self.0 % 1_000_000;
        if parts == 0 {
            return write!(f, "{whole}");
        }
        write!(f, "{whole}.")?;
        put_digits(f, parts)
    }
}

// Writes some millionths as the digits behind a point.
fn put_digits<W: fmt::Write>(f: &mut fmt::Formatter<W>, parts: u64) -> fmt::Result {
    let mut left = parts;
    let mut place = 100_000;
    while left > 0 && place > 0 {
        let digit = left / place;
        write!(f, "{digit}")?;
        left %= place;
        place /= 10;
    }
    Ok(())
}
