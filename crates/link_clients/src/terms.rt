//! How long clients are served, and how that ended.

/// What ends the serving.
#[derive(Clone, Copy, Debug, PartialEq, Eq)]
pub struct Terms {
    /// Whether a client may ask for the end.
    pub may_end: bool,
    /// The moment at which it ends, in microseconds.
    pub ends_at: i64,
}

/// How serving clients ended.
#[derive(Clone, Copy, Debug, PartialEq, Eq)]
pub enum HostEnd {
    /// The endpoint couldn't be listened at.
    Deaf,
    /// The talks were closed.
    Closed,
    /// The moment came at which it was to end.
    Hours,
    /// The journal takes nothing more.
    Full,
    /// A client asked for the end, and may.
    Asked,
    /// A call of the talks failed.
    Failed,
    /// Memory was wanting for a capture.
    Memory,
}

/// How a run of a session server ended: by the first of these that holds.
#[derive(Clone, Copy, Debug, PartialEq, Eq)]
pub enum ServeEnd {
    /// Memory was wanting for a capture.
    Memory,
    /// A call of the port failed.
    Port,
    /// A call of the talks failed.
    Talks,
    /// An event found no room in the journal.
    Events,
    /// None of these.
    Well,
}
