//! A client's first line, where a word is asked for.

ghost use Rattle.std.specs.Prelude.{◌≡◌, ◌<◌, ◌↔◌, ◌==◌, length, position, IfSome, IsTrue};
ghost use Rattle.std.specs.Str.Lines.{strip_carriage_return};
ghost use Rattle.serve_adapters.specs.Greeting.{IsGreeting, IsHello};

/// How many bytes of a first line are looked at: as many as one may have, and its end.
pub const FIRST: usize = 130;

/// How many bytes a line may have.
const LINE: usize = 128;

/// What greets.
const HELLO: &[u8] = b"hello ";

/// What a client's first line says.
#[derive(Clone, Copy, Debug, PartialEq, Eq)]
pub enum Greeting {
    /// It isn't there whole.
    Waits,
    /// It has the word. It has so many bytes, with its end.
    Right(usize),
    /// It is another line, or too long.
    Wrong,
}

/// What a client's first line says whose first bytes are these, at most 130, where this word is asked for: it ends with LF or CR LF, and
/// has at most 128 bytes.
///
/// Waits: no. Memory: none.
pub fn greeting_of(bytes: &[u8], word: &[u8]) -> Greeting
    ensures { IsGreeting bytes.now word.now result }
{
    match line_end(bytes) {
        Some(end) if is_hello(&bytes[..end], word) => Greeting::Right(end + 1),
        Some(_) => Greeting::Wrong,
        None if bytes.len() < FIRST => Greeting::Waits,
        None => Greeting::Wrong,
    }
}

// Where the first line ends, if its end is there.
fn line_end(bytes: &[u8]) -> Option<usize>
    ensures place { result ≡ position (λ byte. byte == 10) bytes.now }
    ensures within { IfSome result (λ end. end < length bytes.now) }
{
    bytes.iter().position(|byte| *byte == 10)
}

// Whether a line greets with the word.
fn is_hello(line: &[u8], word: &[u8]) -> bool
    ensures { IsTrue result ↔ IsHello line.now word.now }
{
    let line = stripped(line);
    if line.len() > LINE || line.len() < HELLO.len() {
        return false;
    }
    let (front, said) = line.split_at(HELLO.len());
    is_same(front, HELLO) && is_same(said, word)
}

// The line without the CR of its end.
fn stripped(line: &[u8]) -> &[u8]
    ensures { result.now ≡ strip_carriage_return line.now }
{
    let count = line.len();
    if count > 0 && line[count - 1] == 13 {
        &line[..count - 1]
    } else {
        line
    }
}

// Whether these are the same bytes. How long that takes doesn't depend on where they differ.
fn is_same(a: &[u8], b: &[u8]) -> bool
    ensures { IsTrue result ↔ (a.now ≡ b.now) }
{
    if a.len() != b.len() {
        return false;
    }
    let mut others = 0;
    for at in 0..a.len() {
        others += usize::from(a[at] != b[at]);
    }
    others == 0
}
