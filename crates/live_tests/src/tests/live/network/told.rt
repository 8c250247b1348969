//! What is told of a run, as one line.

use super::super::events::{kind_of, moment_of};
use super::super::lines::{Text, put, put_count, put_number};
use super::datagrams::letter_of;
use super::watch::Watch;
use link_live::NetEnd;
use link_node::Event;
use lk_base::{Endpoint, Gate};
use lk_outside::{ListPort, Post};

/// A run.
#[derive(Drop)]
pub struct Told {
    /// The events, the datagrams posted, and how it ended.
    pub text: Text,
    /// Until when each receive was to wait, from the opening on.
    pub untils: Text,
}

/// The line of a run, and until when each receive was to wait. The line has three parts.
///
/// The events, each with its moment from the opening on: `t` a tick, `c` a commit of an application, `u` one of the audio thread,
/// and the letter of a datagram, great on gate 1.
///
/// The datagrams posted: `a` an alive, `r` a response, `p` a ping, `y` a ping that carries a ghost time, `o` a pong, great on gate 1,
/// each with the port that it goes to: a letter where that is the sender of such a datagram, a number for a destination.
///
/// How many arrivals were given and how many are left, behind `@` the clock from the opening on, where the port failed the count of
/// faults behind `!`, and `#` where the journal was full.
pub fn tell(journal: &[Event], watch: &Watch, end: NetEnd, opening: i64) -> Told {
    let mut text = Text::new();
    for event in journal {
        put_event(&mut text, event, opening);
    }
    put(&mut text, b"| ");
    for post in watch.port.posts() {
        put_post(&mut text, post);
    }
    put(&mut text, b"| ");
    put_end(&mut text, &watch.port, end, opening);
    let untils = moments(watch.untils.as_slice(), opening);
    Told { text, untils }
}

fn moments(moments: &[i64], opening: i64) -> Text {
    let mut text = Text::new();
    for moment in moments {
        put_number(&mut text, b"", moment.wrapping_sub(opening));
        put(&mut text, b" ");
    }
    text
}

fn cased(letter: u8, gate: Gate) -> u8 {
    if gate.0 == 0 {
        letter
    } else {
        letter.to_ascii_uppercase()
    }
}

fn put_event(text: &mut Text, event: &Event, opening: i64) {
    let letter = match event {
        Event::Rx {
            gate,
            from,
            bytes,
            ..
        } => cased(letter_of(bytes.len(), from.port), *gate),
        _ => kind_of(event),
    };
    put_number(text, &[letter], moment_of(event).wrapping_sub(opening));
    put(text, b" ");
}

/// How each datagram that a node sends begins, how long it is, and its letter.
const MESSAGES: [(&[u8], usize, u8); 5] = [
    (b"_asdp_v\x01\x01", 107, b'a'),
    (b"_asdp_v\x01\x02", 107, b'r'),
    (b"_link_v\x01\x01", 25, b'p'),
    (b"_link_v\x01\x01", 41, b'y'),
    (b"_link_v\x01\x02", 57, b'o'),
];

// The letter of a datagram posted, `*` where there is none.
fn message_of(bytes: &[u8]) -> u8 {
    let mut found = b'*';
    for (head, long, letter) in &MESSAGES {
        if (*long == bytes.len()) & bytes.starts_with(head) {
            found = *letter;
        }
    }
    found
}

fn put_post(text: &mut Text, post: &Post) {
    put(text, &[cased(message_of(&post.bytes), post.gate)]);
    put_port(text, post.to);
    put(text, b" ");
}

fn put_port(text: &mut Text, to: Endpoint) {
    if to.port >= 97 && to.port <= 122 {
        put(text, &[to.port as u8]);
    } else {
        put_count(text, b"", u64::from(to.port));
    }
}

fn put_end(text: &mut Text, port: &ListPort, end: NetEnd, opening: i64) {
    put_count(text, b"", port.given().len() as u64);
    put_count(text, b"+", port.rest().len() as u64);
    put_number(text, b" @", end.clock.wrapping_sub(opening));
    if end.failed {
        put_count(text, b" !", port.fault_count());
    }
    if end.full {
        put(text, b" #");
    }
}
