//! What a client of a session holds: a state to look at, to edit and to commit, with beats and times in the host's
//! clock; and the way between the client's timeline and start and the session's.
//!
//! In reading order: `state`, and of it `edits`, `clicks`, `row`; `commit`, and of it `row`; `own`, `timelines`,
//! `starts`, `words`, `laws`.
#![tactic(auto)]

mod commit;
mod laws;
mod own;
mod starts;
mod state;
mod timelines;
mod words;

pub use commit::Commit;
pub use laws::{
    clients_of_a_session_click_together, forced_beats_fall_on_the_quantum,
    forced_beats_move_the_origin_by_quanta, renewed_clients_keep_their_beat,
    requested_beats_keep_the_phase, returned_timelines_keep_beats, rows_are_read_back,
    tempo_keeps_the_beat,
};
pub use own::{Own, shown};
pub use starts::{later_start, start_to_client, start_to_session};
pub use state::{QUANTUM_MAX, State};
pub use timelines::{OriginSpent, client_from_session, session_from_client};
