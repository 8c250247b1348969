//! What a measurement answers.

use ghost_xform::XForm;
use link_payload::PingFields;
use lk_base::NodeId;

/// Why a measurement failed.
#[derive(Clone, Copy, Debug, PartialEq, Eq)]
pub enum MeasureFault {
    /// Six pings were not answered in time.
    Silence,
    /// The peer has gone to another session, which is this one.
    OtherSession(NodeId),
}

/// What follows from a pong or a tick.
#[derive(Clone, Copy, Debug, PartialEq, Eq)]
pub enum Outcome {
    /// Nothing.
    Idle,
    /// This ping is to be sent to the target.
    Again(PingFields),
    /// The measurement is over, and this is the offset. No further ping is sent.
    Done(XForm),
    /// The measurement is over without an offset.
    Failed(MeasureFault),
}
