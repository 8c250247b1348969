//! How many events of a kind a journal has.

use link_node::Event;

pub fn count_of(events: &[Event], letter: u8) -> usize {
    events
        .iter()
        .filter(|event| letter_of(event) == letter)
        .count()
}

fn letter_of(event: &Event) -> u8 {
    match event {
        Event::Rx { .. } => b'r',
        Event::Tick { .. } => b't',
        Event::App { .. } => b'c',
        Event::Audio { .. } => b'u',
        Event::End { .. } => b'e',
    }
}
