//! A talk with one client, which is heard and answered in bytes.

ghost use Rattle.std.specs.Prelude.{◌≡◌, ◌<◌, length, IsSome};
ghost use Rattle.lk_outside.specs.Port.{HasBindCause};
ghost use Rattle.lk_outside.specs.Sink.{Accepts, HasWriteCause};
ghost use Rattle.lk_outside.specs.Source.{Gives, HasReadCause, KeepsRest};
ghost use Rattle.lk_outside.specs.Talk.{Opens, TalkSeen};

use crate::{Bound, Put, Taken};
use lk_base::Endpoint;

/// A talk with one client: bytes that are taken from the front, in order, and bytes that are appended at the end.
pub trait Talk {
    /// The client's bytes that are left and the bytes written to the client so far, where the talk tells them; the endpoint that it was
    /// opened at last, if it was; and how often a call has failed. That count never falls, and stays at its type's last value.
    ghost seen: { Self → TalkSeen };

    /// Listens at an endpoint for one client. `Ready` says that it is opened there, and `Failed` that all is as before.
    fn listen(&mut self, at: Endpoint) -> Bound
        ensures opened { Opens (seen self.old).opened (seen self.new).opened at result }
        ensures left { (seen self.new).left ≡ (seen self.old).left }
        ensures written { (seen self.new).written ≡ (seen self.old).written }
        ensures cause { HasBindCause (seen self.old).faults (seen self.new).faults result };

    /// Takes some of the client's bytes into the front of `buf`. A talk that doesn't tell its bytes, as a connection of the system, may
    /// write anything behind them.
    fn read(&mut self, buf: &mut [u8]) -> Taken
        requires some { 0 < length buf.old }
        requires opened { IsSome (seen self.old).opened }
        ensures bytes { Gives (seen self.old).left (seen self.new).left buf.new result }
        ensures rest { KeepsRest (seen self.old).left buf.old buf.new result }
        ensures written { (seen self.new).written ≡ (seen self.old).written }
        ensures opened { (seen self.new).opened ≡ (seen self.old).opened }
        ensures cause { HasReadCause (seen self.old).faults (seen self.new).faults result };

    /// Writes some bytes from the front of `bytes` to the client.
    fn write(&mut self, bytes: &[u8]) -> Put
        requires some { 0 < length bytes.now }
        requires opened { IsSome (seen self.old).opened }
        ensures bytes { Accepts (seen self.old).written (seen self.new).written bytes.now result }
        ensures left { (seen self.new).left ≡ (seen self.old).left }
        ensures opened { (seen self.new).opened ≡ (seen self.old).opened }
        ensures cause { HasWriteCause (seen self.old).faults (seen self.new).faults result };
}
