//! The outside as the runtime sees it: traits whose objects may tell what they hold and count their
//! faults, objects in memory that tell all of it, and the two calls that move a whole text.
//!
//! In reading order: the traits `source`, `sink`, `port`, `audio`, `pace`, `talk`; `failing`, `copies`; the
//! objects in memory `bytes_source`, `bytes_sink`, `list_port`, `list_audio`, `list_pace`, `list_talk`; `transfer`.
#![tactic(auto)]

mod audio;
mod bytes_sink;
mod bytes_source;
mod copies;
mod failing;
mod list_audio;
mod list_pace;
mod list_port;
mod list_talk;
mod pace;
mod port;
mod sink;
mod source;
mod talk;
mod transfer;

pub use audio::{Audio, Next, Played};
pub use bytes_sink::BytesSink;
pub use bytes_source::BytesSource;
pub use failing::{BIND, HEAR, LISTEN, NEXT, PLAY, READ, RECEIVE, SAY, SEND, WRITE};
pub use list_audio::ListAudio;
pub use list_pace::ListPace;
pub use list_port::{ListPort, Post};
pub use list_talk::ListTalk;
pub use pace::Pace;
pub use port::{Arrival, Bound, Port, Posted};
pub use sink::{Put, Sink};
pub use source::{Source, Taken};
pub use talk::Talk;
pub use transfer::{InputFault, read_all, write_whole};
