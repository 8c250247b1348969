//! The datagrams that the system refused, counted by where they were to go, and what is told of them.

ghost use Rattle.std.specs.Prelude.{◌≡◌, ◌<◌, ◌≤◌, [], length, position, vec_capacity, IfOk, IfSome};
ghost use Rattle.link_adapters.specs.Refused.{again_of, further_after, rows_after, same_endpoint};

use super::address::address_of;
use crate::counted::Counted;
use lk_base::Endpoint;
use std::alloc::{AllocError, Global};
use std::{fmt, io};

/// How many destinations are counted apart.
const ROWS: usize = 32;

/// What the system refused to one destination: how often, and why the last time.
#[derive(Clone, Copy)]
pub struct Refused {
    to: Endpoint,
    count: u64,
    last: io::Error,
}

impl Refused {
    // Counts one more.
    fn again(&mut self, error: io::Error)
        ensures { self.new ≡ again_of error self.old }
    {
        self.count = self.count.saturating_add(1);
        self.last = error;
    }
}

impl fmt::Display for Refused {
    fn fmt<W: fmt::Write>(&self, f: &mut fmt::Formatter<W>) -> fmt::Result {
        let datagrams = Counted(self.count, "datagram");
        let to = address_of(self.to);
        let last = self.last;
        write!(
            f,
            "the system refused {datagrams} to {to}, the last for: {last}"
        )
    }
}

/// The datagrams that the system refused: a row for each of the first 32 destinations, and one count for all further ones.
#[derive(Drop)]
pub struct RefusedSends {
    rows: Vec<Refused>,
    further: u64,
    ghost room: { 32 ≤ vec_capacity rows },
}

impl RefusedSends {
    /// None yet. Memory: the rows.
    pub fn new(alloc: Global) -> Result<RefusedSends, AllocError>
        ensures { IfOk result (λ refused. (refused.rows.items ≡ []) × (refused.further ≡ 0)) }
    {
        let rows = Vec::with_capacity(alloc, ROWS)?;
        Ok(RefusedSends { rows, further: 0 })
    }

    // The row of a destination.
    fn place_of(&self, to: Endpoint) -> Option<usize>
        ensures place { result ≡ position (λ row. same_endpoint row.to to) self.now.rows.items }
        ensures within { IfSome result (λ place. place < length self.now.rows.items) }
    {
        self.rows.iter().position(|row| row.to == to)
    }

    /// Counts one more to this destination.
    ///
    /// Waits: no. Memory: none.
    pub fn count(&mut self, to: Endpoint, error: io::Error)
        ensures rows { self.new.rows.items ≡
            rows_after (position (λ row. same_endpoint row.to to) self.old.rows.items) self.old.rows.items to error }
        ensures further { self.new.further ≡
            further_after (position (λ row. same_endpoint row.to to) self.old.rows.items) self.old.rows.items self.old.further }
    {
        match self.place_of(to) {
            Some(place) => self.rows[place].again(error),
            None if self.rows.len() < ROWS => self.rows.push_reserved(Refused {
                to,
                count: 1,
                last: error,
            }),
            None => self.further = self.further.saturating_add(1),
        }
    }

    /// Prints a line for each row on standard error, and one for the further destinations, if there are any. Each begins with the program's
    /// name.
    pub fn tell<R: Eprint>(&self, rt: &R, program: &str) {
        for row in &self.rows {
            let _printed = eprintln!(rt; "{program}: {row}");
        }
        if self.further > 0 {
            let datagrams = Counted(self.further, "datagram");
            let _printed = eprintln!(rt;
                "{program}: the system refused {datagrams} to further destinations"
            );
        }
    }
}
