//! What a port of a node has met, for the threads beside its own.

ghost use Rattle.std.specs.Prelude.{◌≡◌};
ghost use Rattle.lk_base.specs.Ranges.{IsMoment};
ghost use Rattle.serve_adapters.specs.Sighting.{no_sighting, sighting_after_bind, sighting_after_receive, sighting_after_send};

use lk_base::{Gate, MOMENT_MAX};
use lk_outside::{Arrival, Bound, Posted};
use std::sync::atomic::{AtomicU64, Ordering};

/// How long the loop of a node waits for a datagram at most, in microseconds.
const PATIENCE: i128 = 5_000;

/// What a port has met so far. Its counts stay at their type's last value.
#[derive(Clone, Copy, Debug, PartialEq, Eq)]
pub struct Sighting {
    /// Its gates are bound.
    pub bound: bool,
    /// A call of it failed.
    pub failed: bool,
    /// The moment that the last receive answered, in microseconds; 0 before.
    pub received_at: i64,
    /// How many datagrams the system refused, gate by gate.
    pub refused: [u64; 4],
    /// How many datagrams came in.
    pub datagrams: u64,
    /// How many receives that were to wait for less than 5 milliseconds answered that nothing came.
    pub ticks: u64,
}

impl Sighting {
    /// Nothing was met.
    pub const fn new() -> Sighting
        ensures { result ≡ no_sighting }
    {
        Sighting {
            bound: false,
            failed: false,
            received_at: 0,
            refused: [0; 4],
            datagrams: 0,
            ticks: 0,
        }
    }

    /// Takes note of what a bind answered.
    ///
    /// Waits: no. Memory: none.
    pub fn note_bind(&mut self, bound: Bound)
        ensures { self.new ≡ sighting_after_bind bound self.old }
    {
        match bound {
            Bound::Ready => self.bound = true,
            Bound::Failed => self.failed = true,
        }
    }

    /// Takes note of what a receive answered that was to wait until a moment. The loop of a node waits for 5 milliseconds, or for its next
    /// tick where that is sooner.
    ///
    /// Waits: no. Memory: none.
    pub fn note_receive(&mut self, until: i64, arrival: &Arrival)
        ensures { self.new ≡ sighting_after_receive until arrival.now self.old }
    {
        match arrival {
            Arrival::Datagram { now, .. } => {
                self.received_at = *now;
                self.datagrams = self.datagrams.saturating_add(1);
            }
            Arrival::Idle(now) => {
                if i128::from(until) < i128::from(self.received_at) + PATIENCE {
                    self.ticks = self.ticks.saturating_add(1);
                }
                self.received_at = *now;
            }
            Arrival::Closed => {}
            Arrival::Failed => self.failed = true,
        }
    }

    /// Takes note of what a send from a gate answered.
    ///
    /// Waits: no. Memory: none.
    pub fn note_send(&mut self, gate: Gate, posted: Posted)
        ensures { self.new ≡ sighting_after_send gate posted self.old }
    {
        match posted {
            Posted::Sent => {}
            Posted::Dropped => {
                let at = usize::from(gate.0);
                if at < 4 {
                    self.refused[at] = self.refused[at].saturating_add(1);
                }
            }
            Posted::Failed => self.failed = true,
        }
    }
}

/// A board on which one thread writes what its port has met, and that any thread reads. What is read together may have been written one
/// after the other.
#[derive(Drop)]
pub struct Board {
    bound: AtomicU64,
    failed: AtomicU64,
    received_at: AtomicU64,
    refused_first: AtomicU64,
    refused_second: AtomicU64,
    refused_third: AtomicU64,
    refused_fourth: AtomicU64,
    datagrams: AtomicU64,
    ticks: AtomicU64,
}

impl Board {
    /// A board on which nothing was met.
    pub fn new() -> Board {
        Board {
            bound: AtomicU64::new(0),
            failed: AtomicU64::new(0),
            received_at: AtomicU64::new(0),
            refused_first: AtomicU64::new(0),
            refused_second: AtomicU64::new(0),
            refused_third: AtomicU64::new(0),
            refused_fourth: AtomicU64::new(0),
            datagrams: AtomicU64::new(0),
            ticks: AtomicU64::new(0),
        }
    }

    /// Writes what was met.
    ///
    /// Waits: no. Memory: none.
    pub fn write(&self, sighting: &Sighting) {
        let [first, second, third, fourth] = sighting.refused;
        let moment = sighting.received_at.unsigned_abs();
        self.bound
            .store(u64::from(sighting.bound), Ordering::SeqCst);
        self.failed
            .store(u64::from(sighting.failed), Ordering::SeqCst);
        self.received_at.store(moment, Ordering::SeqCst);
        self.refused_first.store(first, Ordering::SeqCst);
        self.refused_second.store(second, Ordering::SeqCst);
        self.refused_third.store(third, Ordering::SeqCst);
        self.refused_fourth.store(fourth, Ordering::SeqCst);
        self.datagrams.store(sighting.datagrams, Ordering::SeqCst);
        self.ticks.store(sighting.ticks, Ordering::SeqCst);
    }

    /// What was met, as far as it was written.
    ///
    /// Waits: no. Memory: none.
    pub fn sighting(&self) -> Sighting
        ensures { IsMoment result.received_at }
    {
        let moment = self.received_at.load(Ordering::SeqCst);
        Sighting {
            bound: self.bound.load(Ordering::SeqCst) > 0,
            failed: self.failed.load(Ordering::SeqCst) > 0,
            received_at: i64::try_from(moment).unwrap_or(MOMENT_MAX).min(MOMENT_MAX),
            refused: [
                self.refused_first.load(Ordering::SeqCst),
                self.refused_second.load(Ordering::SeqCst),
                self.refused_third.load(Ordering::SeqCst),
                self.refused_fourth.load(Ordering::SeqCst),
            ],
            datagrams: self.datagrams.load(Ordering::SeqCst),
            ticks: self.ticks.load(Ordering::SeqCst),
        }
    }
}
