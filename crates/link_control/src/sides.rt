//! The client's side of a run under control.

ghost use Rattle.std.specs.Prelude.{◌≡◌, true, false, Some};
ghost use Rattle.lk_outside.specs.Faults.{Rose};
ghost use Rattle.link_control.specs.ControlRun.{CanServe, IsTalked};

use crate::log::SessionLog;
use crate::server::{Served, serve};
use audio_handoff::StateCell;
use link_live::AppSide;
use link_shared::{AppPass, Link, LinkName};
use lk_base::Endpoint;
use lk_outside::{Bound, Pace, Talk};
use std::alloc::Global;
use std::sync::Wait;
use triple_buffer::Triple;

/// The client, who is listened for at an endpoint, with the log of the session.
#[derive(Drop)]
pub(crate) struct Client {
    pub(crate) alloc: Global,
    pub(crate) at: Endpoint,
    pub(crate) log: SessionLog,
}

impl<D: Talk, T: Pace, R: Wait> AppSide<R, D, T> for Client {
    type End = Served;

    ghost starts = { λ client pass talk pace. CanServe pass client.log };

    ghost runs = { λ client client_then pass pass_then talk talk_then pace pace_then ended.
        IsTalked client.at (T.late pace) (D.seen talk)
        (D.seen talk_then) pass_then client_then.log.lines.items ended };

    fn run<N: LinkName>(
        &mut self,
        rt: &R,
        link: &Link<Triple<11>, N>,
        pass: &mut AppPass<Triple<11>, N>,
        talk: &mut D,
        pace: &mut T,
    ) -> Served {
        serve_at(
            rt,
            self.alloc,
            link,
            &(),
            self.at,
            pass,
            talk,
            pace,
            &mut self.log,
        )
    }
}

// Opens the talk at an endpoint and serves the client; fails at once where it can't be opened.
// Waits: as in `serve`. Memory: two notes for each capture.
fn serve_at<C: StateCell<11>, N: LinkName, D: Talk, T: Pace, R: Wait>(
    rt: &R,
    alloc: Global,
    link: &Link<C, N>,
    way: &C::Way,
    at: Endpoint,
    pass: &mut AppPass<C, N>,
    talk: &mut D,
    pace: &mut T,
    log: &mut SessionLog,
) -> Served
    requires ready { CanServe pass.old log.old }
    ensures served { IsTalked at (T.late pace.old) (D.seen talk.old)
        (D.seen talk.new) pass.new log.new.lines.items result }
{
    if !listen(talk, at) {
        return Served::Failed;
    }
    serve(rt, alloc, link, way, pass, talk, pace, log)
}

// Opens the talk at an endpoint. Answers whether it is. Waits: in the talk. Memory: none.
fn listen<L: Talk>(talk: &mut L, at: Endpoint) -> bool
    ensures opens { result ≡ true → ((L.seen talk.new).opened ≡ Some at) × ((L.seen talk.new).faults ≡ (L.seen talk.old).faults) }
    ensures fails { result ≡ false → ((L.seen talk.new).opened ≡ (L.seen talk.old).opened) × Rose (L.seen talk.old).faults (L.seen talk.new).faults }
    ensures left { (L.seen talk.new).left ≡ (L.seen talk.old).left }
    ensures written { (L.seen talk.new).written ≡ (L.seen talk.old).written }
{
    match talk.listen(at) {
        Bound::Ready => true,
        Bound::Failed => false,
    }
}
