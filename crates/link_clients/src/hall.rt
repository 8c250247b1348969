//! What a server keeps: its clients' seats, and what it saw last of its node.

ghost use Rattle.std.specs.Prelude.{◌≡◌, All, IfOk, vec_len};
ghost use Rattle.lk_base.specs.Ranges.{IsMoment};
ghost use Rattle.link_clients.specs.Unused.{IsUnused};

use crate::lookout::Sighted;
use crate::seat::Seat;
use arrayvec::ArrayVec;
use link_lines::LineBuf;
use link_shared::Capture;
use lk_talks::SEATS;
use std::alloc::{AllocError, Global};

/// What a server keeps from one step to the next.
#[derive(Drop)]
pub(crate) struct Hall {
    // One for each number below 15.
    pub(crate) seats: Vec<Seat>,
    // The moment that the pace answered last, 0 at first.
    pub(crate) last: i64,
    // What was captured last.
    pub(crate) newest: Option<Capture>,
    // The number of the last commit, 0 before any.
    pub(crate) number: u64,
    pub(crate) sighted: Sighted,
    // Whether something was heard in the last round.
    pub(crate) heard: bool,
    // Room for the text of an answer.
    pub(crate) line: LineBuf,
    ghost count: { vec_len seats ≡ 15 },
    ghost moment: { IsMoment last },
}

impl Hall {
    ghost use Rattle.std.specs.Prelude.{IfOk};
    ghost use Rattle.link_clients.specs.Standing.{IsFresh};

    /// A hall without clients. Memory: the seats.
    pub(crate) fn new(alloc: Global) -> Result<Hall, AllocError>
        ensures { IfOk result IsFresh }
    {
        Ok(Hall {
            seats: free_seats(alloc)?,
            last: 0,
            newest: None,
            number: 0,
            sighted: Sighted {
                gates: ArrayVec::new(),
                full: false,
            },
            heard: false,
            line: LineBuf::new(),
        })
    }
}

// As many free seats as there are. Memory: they.
fn free_seats(alloc: Global) -> Result<Vec<Seat>, AllocError>
    ensures count { IfOk result (λ seats. vec_len seats ≡ 15) }
    ensures free { IfOk result (λ seats. All IsUnused seats.items) }
{
    let mut seats = Vec::with_capacity(alloc, SEATS as usize)?;
    for _ in 0..SEATS {
        seats.push_reserved(Seat::free());
    }
    Ok(seats)
}
