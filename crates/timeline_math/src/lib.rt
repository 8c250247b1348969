//! What a timeline says: beats and times, tidied numbers, phases and matches within a quantum, encoded
//! beats, and the clicks of a block of audio time.
//!
//! In reading order: `beats`, `tidying`, `quantum`, `encoding`, `metronome`, `laws`.
#![tactic(auto)]

mod beats;
mod encoding;
mod laws;
mod metronome;
mod quantum;
mod tidying;

pub use beats::{beat_at, time_at};
pub use encoding::{encoded_beat, encoded_time};
pub use laws::{
    beats_click_once, beats_rise, clicks_pass_beats, encoded_beats_keep_phase,
    encoded_times_undo_encoded_beats, equal_tempos_click_alike, tidying_settles, times_rise,
};
pub use metronome::clicks;
pub use quantum::{closest_match, next_match, phase};
pub use tidying::tidy;
