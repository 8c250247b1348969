//! Patterns of 16 steps, and their text.

ghost use Rattle.std.specs.Prelude.{◌≡◌, ◌≢◌, ℕ, Bool, List, ◌++◌, IfSome, IfNone, IfOk, IfErr};
ghost use Rattle.step_sequencer.specs.Pattern.{mark_of, spelled_of, LacksRow, IsFaultAt};
ghost use Rattle.step_sequencer.specs.Reading.{IsRowOf, AreMarksOf, LacksMarks};

/// What each voice does at the 16 steps: whether it is struck.
#[derive(Clone, Copy, Debug, PartialEq, Eq)]
pub struct Pattern {
    pub kick: [bool; 16],
    pub snare: [bool; 16],
    pub hat: [bool; 16],
}

/// The voices that are struck together.
#[derive(Clone, Copy, Debug, Default, PartialEq, Eq)]
pub struct Strokes {
    pub kick: bool,
    pub snare: bool,
    pub hat: bool,
}

/// A text that isn't a pattern's.
#[derive(Clone, Copy, Debug, PartialEq, Eq)]
pub struct PatternFault {
    /// The first line at fault, from 1 on: 4 where three good lines don't end the text.
    pub line: u8,
}

impl Pattern {
    ghost use Rattle.step_sequencer.specs.Pattern.{strokes_at};

    /// What is struck at a step. The pattern begins again after 16 of them, and before step 0 too.
    #[tactic(auto, unfolding(crate::specs::Pattern::strokes_at, crate::specs::Pattern::place_of))]
    pub fn strokes(&self, step: i64) -> Strokes
        ensures { result ≡ strokes_at self.now step }
    {
        let place = step.rem_euclid(16) as usize;
        Strokes {
            kick: self.kick[place],
            snare: self.snare[place],
            hat: self.hat[place],
        }
    }
}

/// The pattern of a text of three lines: `kick`, `snare` and `hat`, each followed by a space, 16 marks (`x` is struck, `.` isn't) and a
/// line feed.
///
/// Waits: never. Memory: none.
pub fn read_pattern(text: &[u8]) -> Result<Pattern, PatternFault>
    ensures read { IfOk result (λ pattern. text.now ≡ spelled_of pattern) }
    ensures fault { IfErr result (λ fault. IsFaultAt text.now fault.line) }
{
    let Some(first) = read_row(text, b"kick") else {
        return Err(PatternFault { line: 1 });
    };
    let Some(second) = read_row(first.rest, b"snare") else {
        return Err(PatternFault { line: 2 });
    };
    let Some(third) = read_row(second.rest, b"hat") else {
        return Err(PatternFault { line: 3 });
    };
    if !third.rest.is_empty() {
        return Err(PatternFault { line: 4 });
    }
    let kick = first.marks;
    let snare = second.marks;
    let hat = third.marks;
    Ok(Pattern { kick, snare, hat })
}

// The marks of a row, and what follows it.
#[derive(Clone, Copy)]
struct Row<'a> {
    marks: [bool; 16],
    rest: &'a [u8],
}

// The row of this name at the front of a text.
fn read_row<'a>(text: &'a [u8], name: &[u8]) -> Option<Row<'a>>
    ensures some { IfSome result (λ row. IsRowOf name.now text.now row.marks row.rest.now) }
    ensures none { IfNone result (LacksRow name.now text.now) }
{
    let spaced = after(text, name)?;
    let marked = after(spaced, b" ")?;
    let marks = read_marks(marked)?;
    let rest = after(&marked[16..], b"\n")?;
    Some(Row { marks, rest })
}

// What stands after a prefix of a text.
fn after<'a>(text: &'a [u8], prefix: &[u8]) -> Option<&'a [u8]>
    ensures some { IfSome result (λ rest. text.now ≡ prefix.now ++ rest.now) }
    ensures none { IfNone result ((rest : List ℕ) → text.now ≢ prefix.now ++ rest) }
{
    text.strip_prefix(prefix)
}

// The 16 marks at the front of a text.
fn read_marks(text: &[u8]) -> Option<[bool; 16]>
    ensures some { IfSome result (AreMarksOf text.now) }
    ensures none { IfNone result (LacksMarks text.now) }
{
    if text.len() < 16 {
        return None;
    }
    let mut marks = [false; 16];
    for k in 0..16 {
        marks[k] = read_mark(text[k])?;
    }
    Some(marks)
}

fn read_mark(byte: u8) -> Option<bool>
    ensures some { IfSome result (λ struck. byte ≡ mark_of struck) }
    ensures none { IfNone result ((struck : Bool) → byte ≢ mark_of struck) }
{
    match byte {
        b'x' => Some(true),
        b'.' => Some(false),
        _ => None,
    }
}
