//! The clients' side of a run.

ghost use Rattle.std.specs.Prelude.{◌≡◌, true, false, List, Some};
ghost use Rattle.lk_outside.specs.Faults.{Rose};
ghost use Rattle.link_live.specs.NodeRun.{new_app};
ghost use Rattle.link_clients.specs.Deeds.{Deed};
ghost use Rattle.link_clients.specs.ServeRun.{IsHosted};
ghost use Rattle.link_clients.specs.Standing.{IsFresh};

use crate::hall::Hall;
use crate::host::host;
use crate::lookout::{Lookout, Rig};
use crate::terms::{HostEnd, Terms};
use link_live::AppSide;
use link_shared::{AppPass, Link, LinkName};
use lk_base::Endpoint;
use lk_outside::{Bound, Pace};
use lk_talks::Talks;
use std::alloc::Global;
use std::sync::Wait;
use triple_buffer::Triple;

/// The server, with the endpoint at which it listens, what ends it, and what it keeps.
#[derive(Drop)]
pub(crate) struct Server {
    pub(crate) alloc: Global,
    pub(crate) at: Endpoint,
    pub(crate) terms: Terms,
    pub(crate) hall: Hall,
}

impl<L: Talks, T: Pace, B: Lookout, R: Wait> AppSide<R, L, Rig<T, B>> for Server {
    type End = HostEnd;

    ghost starts = { λ server pass talks rig. (pass ≡ new_app) × IsFresh server.hall };

    ghost runs = { λ server server_then pass pass_then talks talks_then rig rig_then ended.
        (done : List Deed) × IsHosted server.at server.terms (T.late rig.pace) (L.seen talks) (L.seen talks_then) pass_then done ended };

    fn run<N: LinkName>(
        &mut self,
        rt: &R,
        link: &Link<Triple<11>, N>,
        pass: &mut AppPass<Triple<11>, N>,
        talks: &mut L,
        rig: &mut Rig<T, B>,
    ) -> HostEnd {
        if !listen(talks, self.at) {
            return HostEnd::Deaf;
        }
        host(
            rt,
            self.alloc,
            link,
            &(),
            pass,
            talks,
            rig,
            self.terms,
            &mut self.hall,
        )
    }
}

// Listens for clients at an endpoint. Answers whether it could. Waits: no. Memory: none.
fn listen<L: Talks>(talks: &mut L, at: Endpoint) -> bool
    ensures opens { result ≡ true → ((L.seen talks.new).opened ≡ Some at) × ((L.seen talks.new).faults ≡ (L.seen talks.old).faults) }
    ensures fails { result ≡ false → ((L.seen talks.new).opened ≡ (L.seen talks.old).opened) × Rose (L.seen talks.old).faults (L.seen talks.new).faults }
    ensures passed { (L.seen talks.new).passed ≡ (L.seen talks.old).passed }
{
    match talks.listen(at) {
        Bound::Ready => true,
        Bound::Failed => false,
    }
}
