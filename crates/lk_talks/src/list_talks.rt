//! Talks in memory.

mod sought;

ghost use Rattle.std.specs.Prelude.{◌≡◌, ◌<◌, ◌≤◌, length, slice_set};
ghost use Rattle.std.specs.Vec.{vec_capacity};
ghost use Rattle.lk_talks.specs.Steps.{said_by};

use crate::failing::{ADMIT, Failures, HEAR, LISTEN, SAY, SHUT, TURN_AWAY, WAIT};
use crate::step::{Happened, PIECE, Step, piece_of};
use crate::talks::{Admitted, Heard, Said, Talks, Waited};
use lk_base::Endpoint;
use lk_outside::Bound;
use sought::{Sought, comer_in, goer_in, sought_in};
use std::alloc::{AllocError, Global};

/// Talks that hold what their clients do, step by step, and a record of what passed, and tell the record. A wait takes the steps up to the
/// next rest, and serving is to end once none is left.
///
/// Calls of each kind are counted from 1. Those fail whose kinds and numbers are in the list that the talks were made with, and those that
/// may have to tell something where the record is full or a piece has more than 512 bytes; no other call fails. The counts of calls and of
/// faults stay at their type's last value.
#[derive(Debug, Drop)]
pub struct ListTalks {
    steps: Vec<Step>,
    // How many of the steps were taken.
    taken: usize,
    // The first step that may tell of a client that is to be admitted.
    next: usize,
    // For each seat, the first step that may still tell of its client, how many of the bytes that it sends from there on were heard, and
    // whether what is said to it waits.
    nexts: [usize; 15],
    heard: [usize; 15],
    clogged: [bool; 15],
    most: usize,
    rows: Vec<Happened>,
    room: usize,
    failures: Failures,
    opened: Option<Endpoint>,
    ghost within: { taken ≤ length steps.items },
    ghost positive: { 0 < most },
    ghost fits: { length rows.items ≤ room },
    ghost reserved: { room ≤ vec_capacity rows },
}

impl ListTalks {
    ghost use Rattle.std.specs.Prelude.{◌↔◌, [], map, nat_lt, None, IfOk};
    ghost use Rattle.std.specs.List.{flat_map};
    ghost use Rattle.lk_talks.specs.ListTalks.{failing_of, faults_of, opened_of, passed_of, room_left_of, IsQuietTalks};
    ghost use Rattle.lk_talks.specs.Steps.{passed_by};

    /// Talks that aren't opened, whose clients do these steps; at most `most` bytes are heard at once, and the record has `room` for so
    /// many rows. The calls fail whose pairs of kind (`LISTEN`, `WAIT`, `ADMIT`, `TURN_AWAY`, `HEAR`, `SAY`, `SHUT`) and number are in
    /// `failing`. The only error is want of memory.
    ///
    /// Waits: no. Memory: the record; no other call takes any, but `said_to`.
    pub fn new(
        alloc: Global,
        steps: Vec<Step>,
        most: usize,
        room: usize,
        failing: Vec<(u8, u64)>,
    ) -> Result<Self, AllocError>
        requires { 0 < most }
        ensures passed { IfOk result (λ talks. passed_of talks ≡ []) }
        ensures unopened { IfOk result (λ talks. opened_of talks ≡ None) }
        ensures room { IfOk result (λ talks. room_left_of talks ≡ room) }
        ensures failing { IfOk result (λ talks. failing_of talks ≡ failing.items) }
        ensures faultless { IfOk result (λ talks. faults_of talks ≡ 0) }
        ensures quiet { IfOk result (λ talks. IsQuietTalks talks ↔ (failing.items ≡ [])) }
    {
        Ok(ListTalks {
            steps,
            taken: 0,
            next: 0,
            nexts: [0; 15],
            heard: [0; 15],
            clogged: [false; 15],
            most,
            rows: Vec::with_capacity(alloc, room)?,
            room,
            failures: Failures::new(failing),
            opened: None,
        })
    }

    /// What passed, in order.
    pub fn passed(&self) -> &[Happened]
        ensures { map passed_by result.now ≡ passed_of self.now }
    {
        &self.rows
    }

    /// The bytes that were said to clients in a seat, in order. The only error is want of memory.
    ///
    /// Waits: no. Memory: the bytes.
    pub fn said_to(&self, alloc: Global, seat: u8) -> Result<Vec<u8>, AllocError>
        ensures { IfOk result (λ bytes. bytes.items ≡ flat_map (said_by seat) self.now.rows.items) }
    {
        let mut bytes = Vec::new(alloc);
        let mut at = 0;
        while at < self.rows.len() {
            bytes.extend_from_slice(said_in(&self.rows[at], seat))?;
            at += 1;
        }
        Ok(bytes)
    }

    /// How many calls have failed.
    pub fn fault_count(&self) -> u64
        ensures { result ≡ faults_of self.now }
    {
        self.failures.faults
    }

    // Whether the record has room for one more row.
    fn has_room(&self) -> bool
        ensures { result ≡ nat_lt 0 (room_left_of self.now) }
    {
        self.rows.len() < self.room
    }

    // Takes the next steps, up to a rest and with it.
    fn take_steps(&mut self)
        ensures rows { self.new.rows ≡ self.old.rows }
        ensures room { self.new.room ≡ self.old.room }
        ensures failures { self.new.failures ≡ self.old.failures }
        ensures opened { self.new.opened ≡ self.old.opened }
    {
        while self.taken < self.steps.len() {
            let at = self.taken;
            self.taken += 1;
            match &self.steps[at] {
                Step::Rests => return,
                Step::Clogs(seat) => set_clogged(&mut self.clogged, *seat, true),
                Step::Clears(seat) | Step::Goes(seat) => set_clogged(
                    &mut self.clogged,
                    *seat,
                    false,
                ),
                _ => {}
            }
        }
    }
}

// Whether what is said to the client in a seat waits from now on. There is none in a seat from 15 on.
fn set_clogged(clogged: &mut [bool; 15], seat: u8, waits: bool)
    ensures { seat < 15 → clogged.new ≡ slice_set clogged.old seat waits }
{
    if seat < 15 {
        clogged[usize::from(seat)] = waits;
    }
}

// The bytes that a row says were said to the client in a seat.
fn said_in(row: &Happened, seat: u8) -> &[u8]
    ensures { result.now ≡ said_by seat row.now }
{
    match row {
        Happened::Said(other, piece) if *other == seat => piece,
        _ => &[],
    }
}

impl Talks for ListTalks {
    ghost use Rattle.std.specs.Prelude.{◌≢◌, ◌↔◌, ◌⊎◌, ℕ, true, false, IsSome};
    ghost use Rattle.lk_base.specs.Ranges.{IsMoment};
    ghost use Rattle.lk_outside.specs.Failing.{FailsAt};
    ghost use Rattle.lk_outside.specs.Port.{HasBindCause};
    ghost use Rattle.lk_outside.specs.Talk.{Opens};
    ghost use Rattle.lk_talks.specs.Talks.{HasAdmitCause, HasCause, HasHearCause, HasSayCause, HasWaitCause, IsHeard, Passes, passed_in_admitting, passed_in_hearing, passed_in_saying, passed_in_shutting};
    ghost use Rattle.lk_talks.specs.ListTalks.{call_of, failing_of, faults_of, is_there_of, opened_of, rest_of, room_left_of, seen_of, went_of, IsAdmittedOf, IsCall, IsHeardOf, IsQuietTalks, IsSaidOf};

    ghost seen = { seen_of };

    fn listen(&mut self, at: Endpoint) -> Bound
        ensures opened { Opens (opened_of self.old) (opened_of self.new) at result }
        ensures passed { (seen_of self.new).passed ≡ (seen_of self.old).passed }
        ensures cause { HasBindCause (faults_of self.old) (faults_of self.new) result }

        // Which call fails.
        ensures failing { (result ≡ Bound.Failed) ↔ FailsAt (failing_of self.old) 0 (call_of self.old 0) }
        ensures call { IsCall 0 self.old self.new }

        // With an empty list no call to listen fails.
        ensures works { IsQuietTalks self.old → ¬ (result ≡ Bound.Failed) }
    {
        if self.failures.fails(LISTEN, true) {
            return Bound::Failed;
        }
        self.opened = Some(at);
        Bound::Ready
    }

    fn wait(&mut self, _until: i64) -> Waited
        requires moment { IsMoment _until }
        requires opened { IsSome (opened_of self.old) }
        ensures passed { (seen_of self.new).passed ≡ (seen_of self.old).passed }
        ensures opened { opened_of self.new ≡ opened_of self.old }
        ensures cause { HasWaitCause (faults_of self.old) (faults_of self.new) result }

        // Which call fails.
        ensures failing { (result ≡ Waited.Failed) ↔ FailsAt (failing_of self.old) 1 (call_of self.old 1) }
        ensures call { IsCall 1 self.old self.new }

        // With an empty list no wait fails.
        ensures works { IsQuietTalks self.old → ¬ (result ≡ Waited.Failed) }
    {
        if self.failures.fails(WAIT, true) {
            return Waited::Failed;
        }
        if self.taken == self.steps.len() {
            return Waited::Closed;
        }
        self.take_steps();
        Waited::Went
    }

    fn admit(&mut self, seat: u8) -> Admitted
        requires seat { seat < 15 }
        requires opened { IsSome (opened_of self.old) }
        ensures passed { Passes (seen_of self.old).passed (passed_in_admitting seat result) (seen_of self.new).passed }
        ensures opened { opened_of self.new ≡ opened_of self.old }
        ensures cause { HasAdmitCause (faults_of self.old) (faults_of self.new) result }

        // Which call fails, and whether a client is there at another one.
        ensures failing { (result ≡ Admitted.Failed)
            ↔ (FailsAt (failing_of self.old) 2 (call_of self.old 2) ⊎ (room_left_of self.old ≡ 0)) }
        ensures there { IsAdmittedOf (is_there_of self.old) result }
        ensures call { IsCall 2 self.old self.new }

        // With an empty list admitting fails only where no room is left.
        ensures works { IsQuietTalks self.old → 0 < room_left_of self.old → ¬ (result ≡ Admitted.Failed) }
    {
        let fits = self.has_room();
        if self.failures.fails(ADMIT, fits) {
            return Admitted::Failed;
        }
        let Some(at) = comer_in(&self.steps[..self.taken], self.next) else {
            return Admitted::Nobody;
        };
        self.next = at + 1;
        self.nexts[usize::from(seat)] = at + 1;
        self.heard[usize::from(seat)] = 0;
        self.rows.push_reserved(Happened::Came(seat));
        Admitted::Came
    }

    fn turn_away(&mut self) -> bool
        requires opened { IsSome (opened_of self.old) }
        ensures passed { (seen_of self.new).passed ≡ (seen_of self.old).passed }
        ensures opened { opened_of self.new ≡ opened_of self.old }
        ensures cause { HasCause (faults_of self.old) (faults_of self.new) result }

        // Which call fails.
        ensures failing { (result ≡ false) ↔ FailsAt (failing_of self.old) 3 (call_of self.old 3) }
        ensures call { IsCall 3 self.old self.new }

        // With an empty list no turning away fails.
        ensures works { IsQuietTalks self.old → result ≡ true }
    {
        if self.failures.fails(TURN_AWAY, true) {
            return false;
        }
        if let Some(at) = comer_in(&self.steps[..self.taken], self.next) {
            self.next = at + 1;
        }
        true
    }

    fn hear(&mut self, seat: u8, buf: &mut [u8]) -> Heard
        requires seat { seat < 15 }
        requires some { 0 < length buf.old }
        requires opened { IsSome (opened_of self.old) }
        ensures heard { IsHeard (length buf.new) result }
        ensures passed { Passes (seen_of self.old).passed (passed_in_hearing seat buf.new result) (seen_of self.new).passed }
        ensures opened { opened_of self.new ≡ opened_of self.old }
        ensures cause { HasHearCause (faults_of self.old) (faults_of self.new) result }

        // Which call fails, and what another one gives.
        ensures failing { (result ≡ Heard.Failed)
            ↔ (FailsAt (failing_of self.old) 4 (call_of self.old 4) ⊎ (room_left_of self.old ≡ 0)) }
        ensures next { IsHeardOf (rest_of self.old seat) (rest_of self.new seat) (went_of self.old seat) buf.new result }
        ensures others { (other : ℕ) → other ≢ seat → rest_of self.new other ≡ rest_of self.old other }
        ensures call { IsCall 4 self.old self.new }

        // With an empty list hearing fails only where no room is left.
        ensures works { IsQuietTalks self.old → 0 < room_left_of self.old → ¬ (result ≡ Heard.Failed) }
    {
        let fits = self.has_room();
        if self.failures.fails(HEAR, fits) {
            return Heard::Failed;
        }
        let at = usize::from(seat);
        match sought_in(
            &self.steps[..self.taken],
            seat,
            self.nexts[at],
            self.heard[at],
        ) {
            Sought::Piece(next, given, piece) => {
                let count = buf.len().min(self.most).min(piece.len()).min(PIECE);
                buf[..count].copy_from_slice(&piece[..count]);
                self.nexts[at] = next;
                self.heard[at] = given + count;
                self.rows
                    .push_reserved(Happened::Heard(seat, piece_of(&buf[..count])));
                Heard::Got(count)
            }
            Sought::Goes(next) => {
                self.nexts[at] = next + 1;
                self.heard[at] = 0;
                self.rows.push_reserved(Happened::Left(seat));
                Heard::Left
            }
            Sought::Nothing => Heard::Nothing,
        }
    }

    fn say(&mut self, seat: u8, bytes: &[u8]) -> Said
        requires seat { seat < 15 }
        requires opened { IsSome (opened_of self.old) }
        ensures passed { Passes (seen_of self.old).passed (passed_in_saying seat bytes.now result) (seen_of self.new).passed }
        ensures opened { opened_of self.new ≡ opened_of self.old }
        ensures cause { HasSayCause (faults_of self.old) (faults_of self.new) result }

        // Which call fails, and who takes what is said at another one.
        ensures failing { (result ≡ Said.Failed)
            ↔ (FailsAt (failing_of self.old) 5 (call_of self.old 5) ⊎ ((room_left_of self.old ≡ 0) ⊎ (512 < length bytes.now))) }
        ensures said { IsSaidOf (went_of self.old seat) result }
        ensures call { IsCall 5 self.old self.new }

        // With an empty list saying at most 512 bytes fails only where no room is left.
        ensures works { IsQuietTalks self.old → 0 < room_left_of self.old → length bytes.now ≤ 512 → ¬ (result ≡ Said.Failed) }
    {
        let fits = self.has_room() && bytes.len() <= PIECE;
        if self.failures.fails(SAY, fits) {
            return Said::Failed;
        }
        let at = usize::from(seat);
        if let Some(next) = goer_in(&self.steps[..self.taken], seat, self.nexts[at]) {
            self.nexts[at] = next + 1;
            self.heard[at] = 0;
            self.rows.push_reserved(Happened::Left(seat));
            return Said::Left;
        }
        self.rows
            .push_reserved(Happened::Said(seat, piece_of(bytes)));
        Said::Taken
    }

    fn shut(&mut self, seat: u8) -> bool
        requires seat { seat < 15 }
        requires opened { IsSome (opened_of self.old) }
        ensures passed { Passes (seen_of self.old).passed (passed_in_shutting seat result) (seen_of self.new).passed }
        ensures opened { opened_of self.new ≡ opened_of self.old }
        ensures cause { HasCause (faults_of self.old) (faults_of self.new) result }

        // Which call fails.
        ensures failing { (result ≡ false)
            ↔ (FailsAt (failing_of self.old) 6 (call_of self.old 6) ⊎ (room_left_of self.old ≡ 0)) }
        ensures call { IsCall 6 self.old self.new }

        // With an empty list shutting fails only where no room is left.
        ensures works { IsQuietTalks self.old → 0 < room_left_of self.old → result ≡ true }
    {
        let fits = self.has_room();
        if self.failures.fails(SHUT, fits) {
            return false;
        }
        let at = usize::from(seat);
        self.nexts[at] = self.taken;
        self.heard[at] = 0;
        self.rows.push_reserved(Happened::Shut(seat));
        true
    }

    fn is_clear(&mut self, seat: u8) -> bool
        requires seat { seat < 15 }
        ensures { seen_of self.new ≡ seen_of self.old }
    {
        !self.clogged[usize::from(seat)]
    }
}
