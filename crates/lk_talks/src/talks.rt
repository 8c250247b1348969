//! Talks with many clients, which come and go.

ghost use Rattle.std.specs.Prelude.{◌≡◌, ◌<◌, length, take, IsSome};
ghost use Rattle.lk_base.specs.Ranges.{IsMoment};
ghost use Rattle.lk_outside.specs.Port.{HasBindCause};
ghost use Rattle.lk_outside.specs.Talk.{Opens};
ghost use Rattle.lk_talks.specs.Talks.{HasAdmitCause, HasCause, HasHearCause, HasSayCause, HasWaitCause, IsHeard, Passes, TalksSeen, passed_in_admitting, passed_in_hearing, passed_in_saying, passed_in_shutting};

use lk_base::Endpoint;
use lk_outside::Bound;

/// How many clients there are at most: their seats are numbered from 0.
pub const SEATS: u8 = 15;

/// What waiting answers.
#[derive(Clone, Copy, Debug, PartialEq, Eq)]
pub enum Waited {
    /// The moment came, or something may be there before it.
    Went,
    /// Serving is to end.
    Closed,
    /// A call of the system failed, and was counted.
    Failed,
}

/// What admitting answers.
#[derive(Clone, Copy, Debug, PartialEq, Eq)]
pub enum Admitted {
    /// A client came, and has the seat.
    Came,
    /// Nobody is there.
    Nobody,
    /// A call of the system failed, and was counted.
    Failed,
}

/// What hearing a client answers.
#[derive(Clone, Copy, Debug, PartialEq, Eq)]
pub enum Heard {
    /// So many bytes came, at least one.
    Got(usize),
    /// Nothing is there now.
    Nothing,
    /// The client left. Its seat is free.
    Left,
    /// A call of the system failed, and was counted.
    Failed,
}

/// What saying something to a client answers.
#[derive(Clone, Copy, Debug, PartialEq, Eq)]
pub enum Said {
    /// All of it was taken, to go out in order.
    Taken,
    /// The client had left, and got nothing. Its seat is free.
    Left,
    /// A call of the system failed, and was counted.
    Failed,
}

/// Talks with up to 15 clients, each in a seat of its own, numbered from 0. No call waits for a client but `wait`. Of a call that failed
/// nothing passed. Who calls knows which seats are taken.
pub trait Talks {
    /// What passed between the clients and who serves them, in order, where the talks tell it; the endpoint that they were opened at
    /// last, if they were; and how often a call has failed. That count never falls, and stays at its type's last value.
    ghost seen: { Self → TalksSeen };

    /// Listens at an endpoint for clients. `Ready` says that it is opened there, and `Failed` that all is as before.
    fn listen(&mut self, at: Endpoint) -> Bound
        ensures opened { Opens (seen self.old).opened (seen self.new).opened at result }
        ensures passed { (seen self.new).passed ≡ (seen self.old).passed }
        ensures cause { HasBindCause (seen self.old).faults (seen self.new).faults result };

    /// Waits until something may be there, at most until a moment, in microseconds. What was said meanwhile goes on its way.
    fn wait(&mut self, until: i64) -> Waited
        requires moment { IsMoment until }
        requires opened { IsSome (seen self.old).opened }
        ensures passed { (seen self.new).passed ≡ (seen self.old).passed }
        ensures opened { (seen self.new).opened ≡ (seen self.old).opened }
        ensures cause { HasWaitCause (seen self.old).faults (seen self.new).faults result };

    /// Gives a free seat to the next client that is there.
    fn admit(&mut self, seat: u8) -> Admitted
        requires seat { seat < 15 }
        requires opened { IsSome (seen self.old).opened }
        ensures passed { Passes (seen self.old).passed (passed_in_admitting seat result) (seen self.new).passed }
        ensures opened { (seen self.new).opened ≡ (seen self.old).opened }
        ensures cause { HasAdmitCause (seen self.old).faults (seen self.new).faults result };

    /// Turns away who is there, as no seat is free. Answers false where a call of the system failed.
    fn turn_away(&mut self) -> bool
        requires opened { IsSome (seen self.old).opened }
        ensures passed { (seen self.new).passed ≡ (seen self.old).passed }
        ensures opened { (seen self.new).opened ≡ (seen self.old).opened }
        ensures cause { HasCause (seen self.old).faults (seen self.new).faults result };

    /// Takes what the client in a seat sent next into the front of `buf`, as far as it is there. Behind it anything may be written.
    fn hear(&mut self, seat: u8, buf: &mut [u8]) -> Heard
        requires seat { seat < 15 }
        requires some { 0 < length buf.old }
        requires opened { IsSome (seen self.old).opened }
        ensures heard { IsHeard (length buf.new) result }
        ensures passed { Passes (seen self.old).passed (passed_in_hearing seat buf.new result) (seen self.new).passed }
        ensures opened { (seen self.new).opened ≡ (seen self.old).opened }
        ensures cause { HasHearCause (seen self.old).faults (seen self.new).faults result };

    /// Says these bytes to the client in a seat: all of them, or none.
    fn say(&mut self, seat: u8, bytes: &[u8]) -> Said
        requires seat { seat < 15 }
        requires opened { IsSome (seen self.old).opened }
        ensures passed { Passes (seen self.old).passed (passed_in_saying seat bytes.now result) (seen self.new).passed }
        ensures opened { (seen self.new).opened ≡ (seen self.old).opened }
        ensures cause { HasSayCause (seen self.old).faults (seen self.new).faults result };

    /// Lets the client in a seat go. Answers false where a call of the system failed.
    fn shut(&mut self, seat: u8) -> bool
        requires seat { seat < 15 }
        requires opened { IsSome (seen self.old).opened }
        ensures passed { Passes (seen self.old).passed (passed_in_shutting seat result) (seen self.new).passed }
        ensures opened { (seen self.new).opened ≡ (seen self.old).opened }
        ensures cause { HasCause (seen self.old).faults (seen self.new).faults result };

    /// Whether nothing that was said to the client in a seat still waits to go out. When that is, no clause says.
    fn is_clear(&mut self, seat: u8) -> bool
        requires seat { seat < 15 }
        ensures { seen self.new ≡ seen self.old };
}
