//! The words behind the program's name, as options with their values, flags, and words that stand alone.

ghost use Rattle.std.specs.Prelude.{◌≡◌, ◌≤◌, ◌<◌, ◌+◌, [], ◌∷◌, ◌||◌, true, false, length, map, drop, Some, slice_get, IfOk, IsErr, IfSome, IfNone, MatchOption};
ghost use Rattle.std.specs.Str.{bytes_eq};
ghost use Rattle.std.specs.String.{string_bytes};
ghost use Rattle.session_server.specs.Words as spec;
ghost use Rattle.session_server.specs.Words.{is_named, named_in, part, parts_of};

/// An option or a flag with its name and its value, or a word that stands alone, whose name is empty.
#[derive(Clone, Copy)]
pub struct Part<'a> {
    pub name: &'a str,
    pub text: &'a str,
    // How many words it is.
    width: usize,
}

/// There is more than one.
#[derive(Clone, Copy, Debug)]
pub struct Many;

/// The part of these names, if there is one.
///
/// Waits: no. Memory: none.
pub fn sole<'a>(words: &'a [String], first: &str, second: &str) -> Result<Option<Part<'a>>, Many>
    ensures few { IfOk result (λ found. MatchOption found (named_in first.now second.now (map string_bytes words.now) ≡ [])
        (λ given. named_in first.now second.now (map string_bytes words.now) ≡ part given.name.now given.text.now ∷ [])) }
    ensures many { IsErr result → 1 < length (named_in first.now second.now (map string_bytes words.now)) }
{
    let Some(given) = find(words, first, second, 0) else {
        return Ok(None);
    };
    match find(words, first, second, 1) {
        Some(_) => Err(Many),
        None => Ok(Some(given)),
    }
}

/// Whether some part has one of these names.
///
/// Waits: no. Memory: none.
pub fn is_given(words: &[String], first: &str, second: &str) -> bool
    ensures none { result ≡ false → named_in first.now second.now (map string_bytes words.now) ≡ [] }
    ensures some { result ≡ true → 0 < length (named_in first.now second.now (map string_bytes words.now)) }
{
    find(words, first, second, 0).is_some()
}

/// The part in a place, counted from 0, among those that have one of these names.
///
/// Waits: no. Memory: none.
pub fn find<'a>(words: &'a [String], first: &str, second: &str, number: usize) -> Option<Part<'a>>
    ensures some { IfSome result (λ given. slice_get (named_in first.now second.now (map string_bytes words.now)) number ≡ Some (part given.name.now given.text.now)) }
    ensures named { IfSome result (λ given. is_named first.now second.now (part given.name.now given.text.now) ≡ true) }
    ensures none { IfNone result (length (named_in first.now second.now (map string_bytes words.now)) ≤ number) }
{
    let mut at = 0;
    let mut left = number;
    while at < words.len() {
        let given = part_at(words, at);
        if is_one_of(given.name, first, second) {
            if left == 0 {
                return Some(given);
            }
            left -= 1;
        }
        at += given.width;
    }
    None
}

// Whether a name is one of these.
fn is_one_of(name: &str, first: &str, second: &str) -> bool
    ensures { result ≡ (bytes_eq name.now first.now || bytes_eq name.now second.now) }
{
    name == first || name == second
}

// The part that begins with the word in a place.
fn part_at<'a>(words: &'a [String], at: usize) -> Part<'a>
    requires { at < length words.now }
    ensures part { parts_of (drop at (map string_bytes words.now))
        ≡ part result.name.now result.text.now ∷ parts_of (drop (at + result.width) (map string_bytes words.now)) }
    ensures width { (1 ≤ result.width) × (result.width ≤ 2) }
{
    let word = words[at].as_str();
    if takes_value(word) {
        return Part {
            name: word,
            text: words.get(at + 1).map_or("", |value| value.as_str()),
            width: 2,
        };
    }
    if is_flag(word) {
        return Part {
            name: word,
            text: "",
            width: 1,
        };
    }
    Part {
        name: "",
        text: word,
        width: 1,
    }
}

// Whether a word is the name of an option.
#[tactic(auto, unfolding(crate::specs::Words::takes_value))]
fn takes_value(word: &str) -> bool
    ensures { result ≡ spec.takes_value word.now }
{
    word == "--gate"
        || word == "--to"
        || word == "--script"
        || word == "--mpb"
        || word == "--bpm"
        || word == "--quantum"
        || word == "--group"
        || word == "--events"
        || word == "--hours"
        || word == "--secret"
}

// Whether a word is a flag.
#[tactic(auto, unfolding(crate::specs::Words::is_flag))]
fn is_flag(word: &str) -> bool
    ensures { result ≡ spec.is_flag word.now }
{
    word == "--sync" || word == "--end-allowed" || word == "--until-input-ends"
}
