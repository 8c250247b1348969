//! The tokens under which the poll hears of everyone.

ghost use Rattle.std.specs.Prelude.{◌≡◌, ◌<◌};
ghost use Rattle.serve_adapters.specs.Places.{place_at};

use mio::Token;

/// The token of the first newcomer. Those of the seats are before it.
const FIRST_NEWCOMER: usize = 15;

/// The token of the listener.
pub const LISTENER: Token = Token(30);

/// The token of standard input.
pub const INPUT: Token = Token(31);

/// Whom an event is of.
#[derive(Clone, Copy, Debug, PartialEq, Eq)]
pub enum Place {
    /// The guest in a seat.
    Seat(usize),
    /// A newcomer.
    Newcomer(usize),
    /// The listener.
    Listener,
    /// Standard input.
    Input,
    /// Nobody.
    Nowhere,
}

/// Whom the event of a token is of.
pub fn place_of(token: Token) -> Place
    ensures { result ≡ place_at token.0 }
{
    let at = token.0;
    match at {
        0..15 => Place::Seat(at),
        15..30 => Place::Newcomer(at - FIRST_NEWCOMER),
        30 => Place::Listener,
        31 => Place::Input,
        _ => Place::Nowhere,
    }
}

/// The token of the guest in a seat.
pub fn seat_token(at: usize) -> Token
    requires { at < 15 }
    ensures { place_at result.0 ≡ Place.Seat at }
{
    Token(at)
}

/// The token of a newcomer.
pub fn newcomer_token(at: usize) -> Token
    requires { at < 15 }
    ensures { place_at result.0 ≡ Place.Newcomer at }
{
    Token(FIRST_NEWCOMER + at)
}
