//! Of whom a wait has heard.

ghost use Rattle.std.specs.Prelude.{◌≡◌};
ghost use Rattle.serve_adapters.specs.Hears.{hears_after};

use super::places::{Place, place_of};
use mio::Events;

/// Of whom a wait has heard: the guests in their seats, newcomers in their places, the listener, and standard input.
#[derive(Clone, Copy, Debug)]
pub struct Hears {
    pub seats: [bool; 15],
    pub newcomers: [bool; 15],
    pub listener: bool,
    pub input: bool,
}

impl Hears {
    // One event more.
    fn note(&mut self, place: Place)
        ensures { self.new ≡ hears_after place self.old }
    {
        match place {
            Place::Seat(at) => {
                if at < 15 {
                    self.seats[at] = true;
                }
            }
            Place::Newcomer(at) => {
                if at < 15 {
                    self.newcomers[at] = true;
                }
            }
            Place::Listener => self.listener = true,
            Place::Input => self.input = true,
            Place::Nowhere => {}
        }
    }
}

/// Of whom these events are.
///
/// Waits: no. Memory: none.
pub fn hears_of(events: &Events) -> Hears {
    let mut hears = Hears {
        seats: [false; 15],
        newcomers: [false; 15],
        listener: false,
        input: false,
    };
    for event in events {
        hears.note(place_of(event.token()));
    }
    hears
}
