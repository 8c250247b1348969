//! A session that clients are served in.

ghost use Rattle.std.specs.Prelude.{◌≡◌};
ghost use Rattle.lk_base.specs.Ranges.{IsMoment};
ghost use Rattle.link_node.specs.Config.{IsConfig, config_value};
ghost use Rattle.session_server.specs.Session.{EndsSession, ends_at_of, serving_from, setup_from};
ghost use Rattle.session_server.specs.Spans.{IsSpan};

use crate::setup::Setup;
use crate::status::{Status, status_of};
use link_clients::{Lookout, Rig, Terms, serve_run};
use link_node::Config;
use lk_base::IdSource;
use lk_outside::{Pace, Port};
use lk_talks::Talks;
use std::alloc::Global;
use std::sync::Wait;
use std::thread::Threads;

/// Opens a node at a moment and serves clients until serving ends, as it is set up. Answers how it ended, and how many events the journal
/// took.
///
/// Waits: for the threads, and in the devices. Memory: before the threads begin, all that the node needs and the seats; then two notes for
/// each capture.
pub fn serve_session<
    P: Port + Send,
    L: Talks + Send,
    T: Pace + Send,
    B: Lookout + Send,
    R: Threads + Wait + Sync,
>(
    rt: &R,
    alloc: Global,
    setup: Setup,
    seed: u64,
    opened_at: i64,
    port: &mut P,
    talks: &mut L,
    rig: &mut Rig<T, B>,
) -> (Status, usize)
    requires { IsMoment opened_at }
    ensures ends { EndsSession (setup_from seed opened_at setup) (T.late rig.old.pace) (P.seen port.old) (P.seen port.new)
        (L.seen talks.old) (L.seen talks.new) result.0 result.1 }
{
    let terms = Terms {
        may_end: setup.may_end,
        ends_at: ends_at(opened_at, setup.lasts),
    };
    let (at, events) = (setup.at, setup.events);
    let config = config_of(seed, setup);
    match serve_run(
        rt, alloc, &config, opened_at, events, at, terms, port, talks, rig,
    ) {
        Ok(run) => (status_of(run.end), run.events.len()),
        Err(_) => (Status::Memory, 0),
    }
}

// The moment at which serving ends that begins at a moment, in microseconds; the last number of its type where it lasts without end.
fn ends_at(opened_at: i64, lasts: Option<i64>) -> i64
    requires moment { IsMoment opened_at }
    requires span { IsSpan lasts }
    ensures { result ≡ ends_at_of opened_at lasts }
{
    match lasts {
        Some(span) => opened_at + span,
        None => i64::MAX,
    }
}

// The config of the node. Memory: none.
fn config_of(seed: u64, setup: Setup) -> Config
    ensures value { config_value result ≡ serving_from seed setup }
    ensures ranges { IsConfig (config_value result) }
{
    let Setup {
        opening,
        quantum,
        group,
        ..
    } = setup;
    Config {
        id: IdSource::new(seed, 1).draw(),
        seed,
        mpb: opening.mpb,
        sync: opening.sync,
        group,
        quantum,
        gates: opening.gates,
    }
}
