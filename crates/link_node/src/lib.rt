//! The machine: one event after another in, datagrams to send and states to show out. A node is a pure function of its
//! events; it knows no clock, no socket and no thread.
//!
//! In reading order: `config`, `event`, `sends`, `node`, and then a file a rule, in the order in which the rules of an event run:
//! `node/arrival`, `node/taking`, `node/measuring`, `node/client`, `node/commits`, `node/tick`, `node/settling`,
//! `node/telling`, `node/broadcast`, `node/publishing`, `node/due`; last `laws`, `news`, `staying`,
//! `beginning`, `quiet` and `lasting`.
#![tactic(auto)]

mod beginning;
mod config;
mod event;
mod lasting;
mod laws;
mod news;
mod node;
mod quiet;
mod sends;
mod staying;

pub use beginning::{
    founded_sessions_go_on, joined_sessions_have_no_start, later_starts_are_taken,
};
pub use config::{Config, GateSetup};
pub use event::{Change, Event};
pub use lasting::{
    a_tick_leaves_nothing_due, commits_put_off_nothing, few_sessions_wait, nodes_are_well_formed,
    states_tell_the_counts, states_tell_the_session,
};
pub use laws::{
    best_timelines_are_told, commits_are_counted, commits_send_nothing, moments_never_fall,
    runs_go_on, timelines_are_brought,
};
pub use news::{
    alives_are_answered, broadcasts_reach_all, datagrams_go_out_on_gates, ends_say_goodbye,
    news_is_noted, pings_are_answered,
};
pub use node::Node;
pub use quiet::{
    byes_and_limits_end_rows, ticks_before_due_are_silent, what_is_passed_over_changes_nothing,
};
pub use sends::{Sending, Sends};
pub use staying::{
    clients_follow_sessions, commits_count, heard_timelines_are_taken, offsets_are_measured,
    quanta_are_committed, sessions_are_left_for_winners, spent_origins_only_count,
    starts_are_brought, states_are_published, timelines_stay, told_timelines_are_held,
    who_is_left_founds,
};
