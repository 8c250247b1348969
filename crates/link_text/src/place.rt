//! The lines of a text that count, one after the other.

ghost use Rattle.std.specs.Prelude.{◌≡◌, ◌≤◌, ◌<◌, ◌+◌, ◌↔◌, ◌⊎◌, length, IsTrue};
ghost use Rattle.link_lines.specs.Lines.{counting_in, lines_of};
ghost use Rattle.link_text.specs.Places.{HasLine, HasPassed, IsAhead, counting_from};

use link_lines::line_at;

/// Where a line of a text begins, or its end.
#[derive(Clone, Copy)]
pub(crate) struct Place {
    pub at: usize,
    /// The number of that line, counted from 1; behind the last line one more than its number.
    pub number: usize,
}

/// The first place at which a line counts.
pub(crate) fn first_place(text: &[u8]) -> Place
    ensures ahead { IsAhead text.now result }
    ensures counting { counting_in (lines_of text.now) ≡ counting_from text.now result.at }
{
    pass(text, Place { at: 0, number: 1 })
}

/// The line at a place, and the next place at which a line counts.
pub(crate) fn line_from(text: &[u8], place: Place) -> (&[u8], Place)
    requires ahead { IsAhead text.now place }
    requires some { place.at < length text.now }
    ensures ahead { IsAhead text.now result.1 }
    ensures line { HasLine text.now place result.0.now result.1 }
{
    let (line, next) = line_at(text, place.at);
    let behind = Place {
        at: next,
        number: place.number + 1,
    };
    (line, pass(text, behind))
}

/// The first place from one on at which a line counts, empty lines and those that begin with `#` being passed over.
pub(crate) fn pass(text: &[u8], start: Place) -> Place
    requires within { start.at ≤ length text.now }
    requires small { start.number ≤ start.at + 1 }
    ensures { HasPassed text.now start result }
{
    let mut place = start;
    while place.at < text.len() {
        // Only what is passed over is cut: no line feed is looked for where a line counts.
        if !begins_passed(text[place.at]) {
            return place;
        }
        let (_passed, next) = line_at(text, place.at);
        place = Place {
            at: next,
            number: place.number + 1,
        };
    }
    place
}

// Whether a line with this byte first is passed over: before an empty one it is the line feed.
fn begins_passed(first: u8) -> bool
    ensures { IsTrue result ↔ ((first ≡ 10) ⊎ (first ≡ 35)) }
{
    first == b'\n' || first == b'#'
}
