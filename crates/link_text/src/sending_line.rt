//! The line of a datagram that is sent.

ghost use Rattle.std.specs.Prelude.{◌≡◌};
ghost use Rattle.link_node.specs.Event.{sending_value};
ghost use Rattle.link_text.specs.ReplayText.{sending_line_of};

use crate::event_line::put_bytes;
use link_lines::{LineBuf, put, put_decimal, put_endpoint, put_signed};
use link_node::Sending;

/// Puts the line of a datagram that follows from an event at the moment `now` in place of what the buffer held. Memory: none.
#[tactic(auto, unfolding(crate::specs::ReplayText::sending_line_of))]
pub fn write_sending(line: &mut LineBuf, now: i64, sending: &Sending)
    ensures { line.new.items ≡ sending_line_of now (sending_value sending.now) }
{
    line.clear();
    put(line, b"tx ");
    put_signed(line, now);
    put(line, b" ");
    put_decimal(line, u64::from(sending.gate.0));
    put(line, b" ");
    put_endpoint(line, sending.to);
    put(line, b" ");
    put_bytes(line, &sending.bytes);
    put(line, b"\n");
}
