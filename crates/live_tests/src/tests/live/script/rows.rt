//! Scripts worked out by hand: what is given, and what is told.
//!
//! A session of 2 beats a second begins at 0, with beat 0 there and bars of four beats, and isn't played. No turn is made while a script is
//! run, so each capture is of that state, with the application's own last commit over it.

/// What is given to a run, and what is told of it: a line of the state shown with each capture, and then a line for each commit taken.
pub struct Row {
    /// How late the pace answers, in microseconds.
    pub late: i64,
    pub commands: &'static str,
    pub told: &'static str,
}

pub const ROWS: &[Row] = &[
    Row {
        late: 0,
        commands: "",
        told: "",
    },
    // A look commits nothing.
    Row {
        late: 0,
        commands: "at 1000000 look\n",
        told: "state 0 500000 0 0 0 0 0 1 0 0 0 0 4141414141414141 4000000\n",
    },
    // Beat 2 is at 1,000,000, and so half a second of four beats a second before it is beat 0.
    Row {
        late: 0,
        commands: "at 1000000 tempo 250000\n",
        told: "state 0 500000 0 0 0 0 0 1 0 0 0 0 4141414141414141 4000000\n\
            app 0 1000000 t 250000 0 500000\n",
    },
    // What was committed and isn't taken yet is shown, and is carried once more.
    Row {
        late: 0,
        commands: "at 1000000 tempo 250000\nat 2000000 play\nat 3000000 look\n",
        told: "state 0 500000 0 0 0 0 0 1 0 0 0 0 4141414141414141 4000000\n\
            state 0 250000 0 500000 0 0 0 1 0 0 0 0 4141414141414141 4000000\n\
            state 0 250000 0 500000 1 2000000 2000000 1 0 0 0 0 4141414141414141 4000000\n\
            app 0 1000000 t 250000 0 500000\n\
            app 0 2000000 t 250000 0 500000 s 1 2000000 2000000\n",
    },
    // Of beat 2, beat 1 is the closest with the phase of beat 9: it is shifted there, and called 9.
    Row {
        late: 0,
        commands: "at 1000000 force 9000000\nat 1000000 look\n",
        told: "state 0 500000 0 0 0 0 0 1 0 0 0 0 4141414141414141 4000000\n\
            state 0 500000 8000000 500000 0 0 0 1 0 0 0 0 4141414141414141 4000000\n\
            app 0 1000000 t 500000 8000000 500000\n",
    },
    // With no quantum nothing is shifted.
    Row {
        late: 0,
        commands: "at 1000000 quantum 0\nat 1000000 force 5000000\n",
        told: "state 0 500000 0 0 0 0 0 1 0 0 0 0 4141414141414141 4000000\n\
            state 0 500000 0 0 0 0 0 1 0 0 0 0 4141414141414141 0\n\
            app 0 1000000 q 0\n\
            app 0 1000000 t 500000 3000000 0 q 0\n",
    },
    // In bars of three beat 2 has the phase of beat 5. Bars of four are then committed, though those are the session's.
    Row {
        late: 0,
        commands: "at 0 quantum 3000000\nat 1000000 request 5000000\nat 2000000 quantum 4000000\nat 3000000 look\n",
        told: "state 0 500000 0 0 0 0 0 1 0 0 0 0 4141414141414141 4000000\n\
            state 0 500000 0 0 0 0 0 1 0 0 0 0 4141414141414141 3000000\n\
            state 0 500000 3000000 0 0 0 0 1 0 0 0 0 4141414141414141 3000000\n\
            state 0 500000 3000000 0 0 0 0 1 0 0 0 0 4141414141414141 4000000\n\
            app 0 0 q 3000000\n\
            app 0 1000000 t 500000 3000000 0 q 3000000\n\
            app 0 2000000 t 500000 3000000 0 q 4000000\n",
    },
    // Without peers a request is granted at once.
    Row {
        late: 0,
        commands: "at 1000000 request 3000000\n",
        told: "state 0 500000 0 0 0 0 0 1 0 0 0 0 4141414141414141 4000000\n\
            app 0 1000000 t 500000 0 -500000\n",
    },
    // A commit is made at the moment that the pace answers.
    Row {
        late: 7,
        commands: "at 1000000 play\n",
        told: "state 0 500000 0 0 0 0 0 1 0 0 0 0 4141414141414141 4000000\n\
            app 0 1000007 s 1 1000007 1000007\n",
    },
    // No moment is later than 2^55.
    Row {
        late: 7,
        commands: "at 36028797018963968 play\n",
        told: "state 0 500000 0 0 0 0 0 1 0 0 0 0 4141414141414141 4000000\n\
            app 0 36028797018963968 s 1 36028797018963968 36028797018963968\n",
    },
    // The tempo is that of the session again, and not that which is shown.
    Row {
        late: 0,
        commands: "at 1000000 tempo 250000\nat 1000000 tempo 500000\n",
        told: "state 0 500000 0 0 0 0 0 1 0 0 0 0 4141414141414141 4000000\n\
            state 0 250000 0 500000 0 0 0 1 0 0 0 0 4141414141414141 4000000\n\
            app 0 1000000 t 250000 0 500000\n\
            app 0 1000000 t 500000 0 0\n",
    },
    // What changes nothing is committed too, and no moment of the script has to be later than the one before.
    Row {
        late: 0,
        commands: "at 1000000 tempo 500000\nat 0 stop\n",
        told: "state 0 500000 0 0 0 0 0 1 0 0 0 0 4141414141414141 4000000\n\
            state 0 500000 0 0 0 0 0 1 0 0 0 0 4141414141414141 4000000\n\
            app 0 1000000\n\
            app 0 0\n",
    },
    // A start that is carried once more has a new stamp.
    Row {
        late: 0,
        commands: "at 1000000 play\nat 2000000 look\nat 3000000 tempo 250000\n",
        told: "state 0 500000 0 0 0 0 0 1 0 0 0 0 4141414141414141 4000000\n\
            state 0 500000 0 0 1 1000000 1000000 1 0 0 0 0 4141414141414141 4000000\n\
            state 0 500000 0 0 1 1000000 1000000 1 0 0 0 0 4141414141414141 4000000\n\
            app 0 1000000 s 1 1000000 1000000\n\
            app 0 3000000 t 250000 0 1500000 s 1 1000000 3000000\n",
    },
];
