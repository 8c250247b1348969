//! How a session is served.

ghost use Rattle.std.specs.Prelude.{◌≤◌, map};
ghost use Rattle.std.proofs.Props.{props};
ghost use Rattle.link_node.specs.Config.{gate_value};
ghost use Rattle.link_script.specs.LiveScript.{IsLiveHead};
ghost use Rattle.lk_base.specs.Ranges.{IsQuantum};
ghost use Rattle.session_server.specs.Spans.{IsSpan};

use link_text::LiveHead;
use lk_base::Endpoint;

/// How a session is served.
#[derive(Drop)]
pub struct Setup {
    /// Where clients are listened for.
    pub at: Endpoint,
    /// The tempo and the gates that the node opens with, and whether starts are shared.
    pub opening: LiveHead,
    /// The length in microbeats that bars are counted in at first; 0 is none.
    pub quantum: i64,
    /// The group of the messages that are heard and sent.
    pub group: u16,
    /// How many events the journal takes.
    pub events: u64,
    /// How long clients are served, in microseconds; `None` is without end.
    pub lasts: Option<i64>,
    /// Whether a client may ask for the end.
    pub may_end: bool,
    /// Whether serving ends with standard input.
    pub until_input_ends: bool,
    ghost opens: { IsLiveHead opening.mpb (map gate_value opening.gates.items) },
    ghost bars: { IsQuantum quantum },
    ghost some: { 1 ≤ events },
    ghost few: { events ≤ 524_288 },
    ghost short: { IsSpan lasts } by { Prim.hlevel props },
}
