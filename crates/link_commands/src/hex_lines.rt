//! The grammar of datagrams in hex, one a line.

ghost use Rattle.std.specs.Prelude.{◌≡◌, ◌≤◌, ◌-◌, ◌^◌, length, IfOk, IfErr, IsErrOf};
ghost use Rattle.std.specs.Bool.{OnTrue, OnFalse};
ghost use Rattle.hex.specs.Hex.{is_hex_digit};
ghost use Rattle.link_commands.specs.HexLines.{IsBadLine, IsDecodable, IsHexLine, IsLongestLine};
ghost use Rattle.link_commands.specs.Statuses.{decode_command};
ghost use Rattle.link_commands.specs.TextFaults.{IsTextFault};

use crate::reason::Reason;
use crate::text_fault::TextFault;
use link_text::{Excerpt, Found, line_at};

/// Checks that each line is an even number of hex digits. Ok is the number of bytes that the longest of them says, 0 where there is
/// none, and the error is the first line at fault.
pub fn longest_line(text: &[u8]) -> Result<usize, TextFault>
    requires { length text.now ≤ 2 ^ 32 - 2 }
    ensures lines { IfOk result (λ longest. IsDecodable text.now) }
    ensures longest { IfOk result (IsLongestLine text.now) }
    ensures within { IfOk result (λ longest. longest ≤ length text.now) }
    ensures fault { IfErr result (IsTextFault decode_command text.now) }

    // No memory is taken.
    ensures memory { ¬ (IsErrOf result TextFault.Memory) }
{
    let mut longest: usize = 0;
    let mut at = 0;
    let mut number: u32 = 1;
    while at < text.len() {
        let (line, next) = line_at(text, at);
        if !is_hex_line(line) {
            return Err(TextFault::Line {
                line: number,
                reason: reason_of(line),
            });
        }
        longest = longest.max(line.len() / 2);
        at = next;
        number += 1;
    }
    Ok(longest)
}

// Whether a line is an even number of hex digits. It doesn't stop at a character that is none: so a build looks at many at once.
fn is_hex_line(line: &[u8]) -> bool
    ensures good { OnTrue result (IsHexLine line.now) }
    ensures bad { OnFalse result (IsBadLine line.now) }
{
    if line.len() % 2 == 1 {
        return false;
    }
    let mut all_digits = true;
    for character in line {
        all_digits &= is_hex_digit(*character);
    }
    all_digits
}

// Why a line that is no even number of hex digits is at fault.
fn reason_of(line: &[u8]) -> Reason
    requires { length line.now ≤ 2 ^ 32 - 2 }
{
    match line.iter().position(|character| !is_hex_digit(*character)) {
        Some(at) => Reason::NoDigit {
            column: at as u32 + 1,
            found: Found::Word(Excerpt::new(&line[at..at + 1])),
        },
        None => Reason::OddDigits {
            column: line.len() as u32 + 1,
        },
    }
}

fn is_hex_digit(character: u8) -> bool
    ensures { result ≡ is_hex_digit character }
{
    matches!(character, b'0'..=b'9' | b'A'..=b'F' | b'a'..=b'f')
}
