//! The session that a node is in.

use ghost_xform::XForm;
use lk_base::{NodeId, Timeline};

/// The session that a node is in.
#[derive(Clone, Copy, Debug, PartialEq, Eq)]
pub struct Current {
    pub session: NodeId,
    /// The timeline that counts, in ghost time.
    pub timeline: Timeline,
    /// How its ghost time stands to the host's.
    pub xform: XForm,
}
