//! An event as its line says it.

ghost use Rattle.std.specs.Prelude.{◌≡◌};
ghost use Rattle.link_node.specs.Event.{event_value};
ghost use Rattle.link_text.specs.SaidEvent.{HasHex, said_value};

use crate::hex_word::bytes_of;
use client_state::Commit;
use link_node::Event;
use lk_base::{Endpoint, Gate};

/// An event as its line says it: the bytes of a datagram are still the word for them, so that a check of lines needs no room for bytes.
#[derive(Clone, Copy)]
pub(crate) enum SaidEvent<'a> {
    Rx {
        gate: Gate,
        from: Endpoint,
        hex: &'a [u8],
        now: i64,
    },
    Tick {
        now: i64,
    },
    App {
        commit: Commit,
        now: i64,
    },
    Audio {
        number: u64,
        commit: Commit,
        now: i64,
    },
    End {
        now: i64,
    },
}

/// The event itself.
pub(crate) fn event_of(said: SaidEvent<'_>) -> Event
    requires { HasHex said }
    ensures { event_value result ≡ said_value said.entry }
{
    match said {
        SaidEvent::Rx {
            gate,
            from,
            hex,
            now,
        } => Event::Rx {
            gate,
            from,
            bytes: bytes_of(hex),
            now,
        },
        SaidEvent::Tick { now } => Event::Tick { now },
        SaidEvent::App { commit, now } => Event::App { commit, now },
        SaidEvent::Audio {
            number,
            commit,
            now,
        } => Event::Audio {
            number,
            commit,
            now,
        },
        SaidEvent::End { now } => Event::End { now },
    }
}
