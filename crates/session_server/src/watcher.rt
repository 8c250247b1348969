//! Who looks out for the server, and tells the person who runs it.

ghost use Rattle.std.specs.Prelude.{◌≤◌};

use crate::journal::{Gauge, Stillness};
use crate::mark::Mark;
use crate::telling::Teller;
use crate::told_gates::{gate_state, told_gates};
use link_adapters::Counted;
use link_clients::{Lookout, Sighted};
use link_live::Capture;
use lk_base::MOMENT_MAX;
use serve_adapters::{Board, Sighting};

/// Looks at the board of the port, and tells on standard error what changes and how full the journal is.
#[derive(Drop)]
pub struct Watcher<'a, R: Eprint + Copy + Drop> {
    rt: R,
    board: &'a Board,
    // How many gates the node has, and how many events find room in its journal.
    gates: usize,
    most: u64,
    teller: Teller,
    gauge: Gauge,
    still: Stillness,
    ghost few: { gates ≤ 4 },
}

impl<'a, R: Eprint + Copy + Drop> Watcher<'a, R> {
    ghost use Rattle.lk_base.specs.Ranges.{IsMoment};

    /// One that has told nothing yet.
    pub fn new(rt: R, board: &'a Board, gates: usize, most: u64, opened_at: i64) -> Watcher<'a, R>
        requires few { gates ≤ 4 }
        requires moment { IsMoment opened_at }
    {
        Watcher {
            rt,
            board,
            gates,
            most,
            teller: Teller::new(),
            gauge: Gauge::new(opened_at),
            still: Stillness::new(),
        }
    }

    // Tells how full the journal is, if that is due. Waits: for standard error. Memory: none.
    fn tell_journal(&mut self, now: Mark) {
        let rt = &self.rt;
        let most = self.most;
        self.gauge.pass(now);
        if self.gauge.is_hour(now.at) {
            let events = now.events;
            let _printed = eprintln!(rt;
                "session_server: the journal has taken {events} of {most} events"
            );
        }
        if let Some(minutes) = self.gauge.warning(now, most) {
            let minutes = Counted(minutes, "minute");
            let _printed = eprintln!(rt;
                "session_server: as it fills now, the journal is full within {minutes}, and the session ends then"
            );
        }
    }
}

impl<'a, R: Eprint + Copy + Drop> Lookout for Watcher<'a, R> {
    // Waits: for standard error. Memory: none.
    fn look(&mut self, newest: &Capture, at: i64, _clients: u32) -> Sighted {
        let at = at.clamp(0, MOMENT_MAX);
        let sighting = self.board.sighting();
        let events = events_in(&sighting, newest.state.app);
        if let Some(view) = self.teller.due(&newest.shown, at) {
            let rt = &self.rt;
            let _printed = eprintln!(rt; "session_server: {view}");
        }
        self.tell_journal(Mark { at, events });
        self.still.look(sighting.received_at, at);
        let state = gate_state(sighting.bound, sighting.failed);
        Sighted {
            gates: told_gates(state, &sighting.refused, self.gates),
            full: self.still.is_full(sighting.failed, events, self.most, at),
        }
    }
}

// How many events the journal took, as far as it can be seen from beside it: datagrams, ticks and commits.
fn events_in(sighting: &Sighting, commits: u64) -> u64 {
    sighting
        .datagrams
        .saturating_add(sighting.ticks)
        .saturating_add(commits)
}
