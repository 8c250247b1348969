//! Laws of the commands, each the contract of a function that does nothing.

ghost use Rattle.link_commands.specs.DecodeText.{HasOneOutput};
ghost use Rattle.link_commands.specs.FilterText.{HasOneFilterText};

use asdp_messages::one_reading;
use link_hostfilter::one_value;
use link_text::one_pair;

/// A text of datagrams has one output at most, since a datagram is read in one way only.
pub fn one_output()
    ensures { HasOneOutput }
{
    // A law, for the proof: bytes are read in one way only.
    one_reading();
}

/// A text of pairs has one output at most, since pairs have one filtered host time, by whichever line that fits them.
pub fn one_filter_text()
    ensures { HasOneFilterText }
{
    // Laws, for the proof: a line says one pair, and pairs have one filtered host time.
    one_pair();
    one_value();
}
