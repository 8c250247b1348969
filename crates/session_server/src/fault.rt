//! What may be wrong with words.

/// Why words ask for nothing: a word is missing, is wrong, or is too much. Gates and their destinations are counted from 0.
#[derive(Clone, Copy, Debug, PartialEq, Eq)]
pub enum WordsFault {
    /// No endpoint for clients is given.
    NoEndpoint,
    Endpoint,
    /// A second word is neither an option nor a flag nor a value.
    TooMuch,
    Script,
    /// A script is given, and a gate, a tempo or the flag that it stands for.
    Beside,
    Gate(usize),
    /// A destination stands before the first gate.
    StrayTo,
    /// There are more than 4.
    Gates,
    /// One gate has more than 32.
    Destinations,
    Tempo,
    Sync,
    Quantum,
    Group,
    Events,
    Hours,
    Secret,
    EndAllowed,
    UntilInputEnds,
}
