//! A step sequencer: which steps of a pattern begin in the frames of an audio callback, and the sound of its three voices.
//!
//! In reading order: `frames` (when a frame begins), `steps` (the steps that begin in frames), `pattern` (what is struck, and its text),
//! `kit` (the voices), `wav` (files); last `laws`.
#![tactic(auto)]

mod frames;
mod kit;
mod laws;
mod pattern;
mod steps;
mod wav;

pub use frames::frame_time;
pub use kit::{Kit, Samples, Sounded};
pub use laws::{
    a_cut_changes_nothing, a_fault_is_no_pattern, each_step_is_struck_once, one_step,
    steps_are_single,
};
pub use pattern::{Pattern, PatternFault, Strokes, read_pattern};
pub use steps::{Hit, Hits, step_at, step_in, steps_begun};
pub use wav::{put_samples, wav_header};
