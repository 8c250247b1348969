//! The kind and the moment of an event.

use link_node::Event;

/// The letter of an event's kind: `r` what was received, `t` a tick, `c` a commit of an application, `u` one of the audio thread, `e` the
/// end.
pub fn kind_of(event: &Event) -> u8 {
    match event {
        Event::Rx { .. } => b'r',
        Event::Tick { .. } => b't',
        Event::App { .. } => b'c',
        Event::Audio { .. } => b'u',
        Event::End { .. } => b'e',
    }
}

/// The moment of an event.
pub fn moment_of(event: &Event) -> i64 {
    match event {
        Event::Rx { now, .. }
        | Event::Tick { now }
        | Event::App { now, .. }
        | Event::Audio { now, .. }
        | Event::End { now } => *now,
    }
}
