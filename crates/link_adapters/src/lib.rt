//! The real things: the words of the command line, and the standard streams, the clock, the sockets and the click behind the traits of the
//! outside. To these traits they tell nothing of contents; what each makes of its reader, its writer or its own fields is a clause of its
//! own.
//!
//! In reading order: `behind_name`, `stream` (what a read and a write say), `std_source`, `std_sink`; `host_clock`, which the devices
//! share, `clock_pace`, `click_audio`; `counted` and `about` (what is told of a run), `udp_port`, `tcp_talk`.
#![tactic(auto)]

mod about;
mod behind_name;
mod click_audio;
mod clock_pace;
mod counted;
mod host_clock;
mod std_sink;
mod std_source;
mod stream;
mod tcp_talk;
mod udp_port;

pub use about::About;
pub use behind_name::BehindName;
pub use click_audio::ClickAudio;
pub use clock_pace::ClockPace;
pub use counted::Counted;
pub use host_clock::{HostClock, moment_of};
pub use std_sink::StdSink;
pub use std_source::StdSource;
pub use stream::{got_of, put_of};
pub use tcp_talk::TcpTalk;
pub use udp_port::{
    RefusedSends, Taken, UdpPort, address_of, endpoint_of, posted_of, taken_of, waited_of,
};
