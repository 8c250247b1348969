//! The command `decode`: how each datagram of a text is read.

ghost use Rattle.std.specs.Prelude.{◌≡◌, ◌≤◌, ◌*◌, List, ℕ, length, OnOk, OnErr};
ghost use Rattle.lk_outside.specs.Faults.{Rose};
ghost use Rattle.link_commands.specs.Outlet.{HandsOver, HandsPart};
ghost use Rattle.link_commands.specs.HexLines.{HasLinesWithin, IsDecodable, IsHexLine};
ghost use Rattle.link_commands.specs.DecodeText.{IsDecodedLine, IsDecodeText};
ghost use Rattle.link_commands.specs.Statuses.{EndsDecode, IfNothingWritten, decode_command};

use crate::hex_lines::longest_line;
use crate::outlet::{Outlet, SinkFailed};
use crate::run_text::read_and_answer;
use crate::status::{Grammar, Status};
use crate::text_command::TextCommand;
use crate::text_fault::TextFault;
use asdp_messages::{all_are_read, ping_payload_len, read_datagram};
use link_text::{LineBuf, line_at, write_reading};
use link_words::{CommandName, is_only};
use lk_outside::{Sink, Source};
use std::alloc::Global;

/// Decodes the datagrams on `input`: reads and checks the whole text, and then writes to `out` a line for each of its lines,
/// which says how the bytes that the line spells are read. Nothing is written unless the whole text is in the grammar.
///
/// Waits: in the objects' calls alone. Memory: the text, the longest line's bytes and the outlet, all of it before the first write.
pub fn decode_main<S: Source, K: Sink>(
    alloc: Global,
    words: &[String],
    input: &mut S,
    out: &mut K,
) -> Status
    ensures ends { EndsDecode words.now
        (S.seen input.old) (S.seen input.new)
        (K.seen out.old) (K.seen out.new) result }

    // No object is called, or the sink isn't.
    ensures untouched { result ≡ Status.Words → (input.new ≡ input.old) × (out.new ≡ out.old) }
    ensures unwritten { IfNothingWritten result (out.new ≡ out.old) }
{
    if !is_only(words, CommandName::Decode) {
        return Status::Words;
    }
    read_and_answer::<Decode, S, K>(alloc, &(), input, out)
}

/// A text of datagrams that was checked.
#[derive(Debug, Drop)]
struct Decode {
    // Room for the bytes of the longest line.
    bytes: Vec<u8>,
}

impl TextCommand for Decode {
    type Params = ();

    ghost command = { λ params. decode_command };

    ghost ready = { λ params decode text. IsDecodable text × (HasLinesWithin (length decode.bytes.items) text
        × (length decode.bytes.items ≤ 16_777_216)) };

    fn limit(_params: &()) -> usize {
        16_777_216
    }

    fn grammar(_params: &()) -> Grammar {
        Grammar::HexLines
    }

    fn check(alloc: Global, _params: &(), text: &[u8]) -> Result<Self, TextFault> {
        let longest = longest_line(text)?;
        match vec![in alloc; 0u8; longest] {
            Ok(bytes) => Ok(Decode { bytes }),
            Err(_) => Err(TextFault::Memory),
        }
    }

    fn hand<K: Sink>(
        &mut self,
        _params: &(),
        text: &[u8],
        outlet: &mut Outlet,
        out: &mut K,
    ) -> Result<(), SinkFailed> {
        hand_lines(text, &mut self.bytes, outlet, out)
    }
}

// Hands over how each line is read.
fn hand_lines<K: Sink>(
    text: &[u8],
    bytes: &mut [u8],
    outlet: &mut Outlet,
    out: &mut K,
) -> Result<(), SinkFailed>
    requires lines { IsDecodable text.now }
    requires room { HasLinesWithin (length bytes.old) text.now }
    requires few { length bytes.old ≤ 16_777_216 }
    ensures kept { OnOk result ((output : List ℕ) × IsDecodeText text.now output
        × HandsOver output (K.seen out.old).told outlet.old.kept.items (K.seen out.new).told outlet.new.kept.items) }
    ensures part { OnErr result ((output : List ℕ) × IsDecodeText text.now output
        × HandsPart output (K.seen out.old).told outlet.old.kept.items (K.seen out.new).told) }
    ensures quiet { OnOk result ((K.seen out.new).faults ≡ (K.seen out.old).faults) }
    ensures cause { OnErr result (Rose (K.seen out.old).faults (K.seen out.new).faults) }
{
    // A law, for the proof: every line is read as something, so that the text has an output where the sink fails too.
    all_are_read();
    let mut line = LineBuf::new();
    let mut at = 0;
    while at < text.len() {
        let (digits, next) = line_at(text, at);
        put_reading(&mut line, digits, bytes);
        outlet.put_line(out, line.as_slice())?;
        at = next;
    }
    Ok(())
}

// Puts how a line is read in place of what the buffer held.
fn put_reading(line: &mut LineBuf, digits: &[u8], bytes: &mut [u8])
    requires hex { IsHexLine digits.now }
    requires room { length digits.now ≤ 2 * length bytes.old }
    requires few { length bytes.old ≤ 16_777_216 }
    ensures { IsDecodedLine digits.now line.new.items }
{
    let room = &mut bytes[..digits.len() / 2];
    hex::decode_to_slice(digits, room).unwrap();
    // A law, for the proof: a ping's payload finds room.
    ping_payload_len();
    write_reading(line, &read_datagram(room));
}
