//! What is told on standard error when it happens.

use std::net::SocketAddr;
use std::{fmt, io};

/// Why a client is there no more.
#[derive(Clone, Copy)]
pub enum Parting {
    /// It sends no more.
    Left,
    /// It was let go.
    Shut,
    /// Its stream broke.
    Broke(io::Error),
    /// What is said to it found no room any more.
    Full,
}

impl fmt::Display for Parting {
    fn fmt<W: fmt::Write>(&self, f: &mut fmt::Formatter<W>) -> fmt::Result {
        match self {
            Parting::Left => write!(f, "left"),
            Parting::Shut => write!(f, "was let go"),
            Parting::Broke(error) => {
                let error = *error;
                write!(f, "was dropped: {error}")
            }
            Parting::Full => write!(f, "was dropped: it doesn't read its answers"),
        }
    }
}

/// Why a client that has no seat yet is turned away.
#[derive(Clone, Copy)]
pub enum Refusal {
    /// No seat is free.
    Full,
    /// Its first line isn't the right one.
    Word,
    /// Its first line didn't come.
    Silence,
    /// It left, or its stream broke.
    Gone,
}

impl fmt::Display for Refusal {
    fn fmt<W: fmt::Write>(&self, f: &mut fmt::Formatter<W>) -> fmt::Result {
        match self {
            Refusal::Full => write!(f, "no seat is free"),
            Refusal::Word => write!(f, "its secret is wrong"),
            Refusal::Silence => write!(f, "it didn't tell the secret in ten seconds"),
            Refusal::Gone => write!(f, "it left before it told the secret"),
        }
    }
}

/// So many clients, as they are told.
#[derive(Clone, Copy)]
struct Present(usize);

impl fmt::Display for Present {
    fn fmt<W: fmt::Write>(&self, f: &mut fmt::Formatter<W>) -> fmt::Result {
        let count = self.0;
        match count {
            0 => write!(f, "none is there"),
            1 => write!(f, "1 is there"),
            _ => write!(f, "{count} are there"),
        }
    }
}

/// Tells where clients are listened for.
pub fn tell_listening<R: Eprint>(rt: &R, at: SocketAddr) {
    let _printed = eprintln!(rt; "session_server: listening for clients at {at}");
}

/// Tells that clients can't be listened for.
pub fn tell_deaf<R: Eprint>(rt: &R, at: SocketAddr, error: io::Error) {
    let _printed = eprintln!(rt; "session_server: listening for clients at {at} failed: {error}");
}

/// Tells of a client that has a seat now, and how many have one.
pub fn tell_came<R: Eprint>(rt: &R, seat: u8, from: SocketAddr, present: usize) {
    let present = Present(present);
    let _printed = eprintln!(rt; "session_server: client {seat} came from {from}, {present}");
}

/// Tells of a client that has no seat any more, and how many have one.
pub fn tell_parted<R: Eprint>(rt: &R, seat: u8, parting: Parting, present: usize) {
    let present = Present(present);
    let _printed = eprintln!(rt; "session_server: client {seat} {parting}, {present}");
}

/// Tells of a client that was turned away.
pub fn tell_refused<R: Eprint>(rt: &R, from: SocketAddr, refusal: Refusal) {
    let _printed = eprintln!(rt; "session_server: a client from {from} was turned away: {refusal}");
}

/// Tells that a client couldn't be let in.
pub fn tell_not_let_in<R: Eprint>(rt: &R, error: io::Error) {
    let _printed = eprintln!(rt; "session_server: a client could not be let in: {error}");
}

/// Tells that waiting for clients failed.
pub fn tell_failed<R: Eprint>(rt: &R, error: io::Error) {
    let _printed = eprintln!(rt; "session_server: waiting for clients failed: {error}");
}
