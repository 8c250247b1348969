//! What a line of a client asks for.

/// What a line of a client asks for. Times are of the node's clock, in microseconds, beats and quanta in microbeats.
#[derive(Clone, Copy, Debug, PartialEq, Eq)]
pub enum Ask {
    /// How the session stands.
    Status,
    /// What time it is, and which beat.
    Now,
    /// The beat at a time, counted from the beat origin.
    Beat(i64),
    /// The phase of that beat in the quantum.
    Phase(i64),
    /// The time of a beat, counted from the beat origin.
    Time(i64),
    /// Another tempo, in microseconds per beat.
    Tempo(i64),
    /// To play from a time on, or from now.
    Play(Option<i64>),
    /// To stop at a time, or now.
    Stop(Option<i64>),
    /// That a beat be at a time, whatever the peers have.
    Force(i64, i64),
    /// That a beat be at a time, or with peers at the next time that has its phase.
    Request(i64, i64),
    /// Another quantum.
    Quantum(i64),
    /// To be told of changes.
    Watch,
    /// To be told of none.
    Unwatch,
    /// How many clients there are.
    Clients,
    /// How the gates stand.
    Gates,
    /// That serving end.
    End,
}
