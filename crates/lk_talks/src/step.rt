//! What clients do in talks in memory, and what these keep of what passed.

ghost use Rattle.std.specs.Prelude.{◌≡◌, ◌≤◌, length};

use arrayvec::ArrayVec;

/// The most bytes of one piece that was heard or said.
pub const PIECE: usize = 512;

/// Bytes that were heard or said at once.
pub type Piece = ArrayVec<u8, 512>;

/// What happens among the clients. A client is named by the seat that it has or is to get: once it is admitted to that seat, the steps
/// behind its coming that name the seat are of it, and those before aren't.
#[derive(Debug, Drop)]
pub enum Step {
    /// A client is there to be admitted.
    Comes,
    /// The client in a seat sends bytes.
    Sends(u8, Vec<u8>),
    /// The client in a seat goes.
    Goes(u8),
    /// From now on what is said to the client in a seat waits to go out.
    Clogs(u8),
    /// What waited has gone out, and from now on nothing waits.
    Clears(u8),
    /// Nothing more happens until the next wait.
    Rests,
}

/// What passed between a client and who serves it.
#[derive(Debug, Drop)]
pub enum Happened {
    /// A client came to a seat.
    Came(u8),
    /// Bytes of the client in a seat were heard.
    Heard(u8, Piece),
    /// Bytes were said to the client in a seat.
    Said(u8, Piece),
    /// It was told that the client in a seat left.
    Left(u8),
    /// The client in a seat was let go.
    Shut(u8),
}

// A piece of these bytes.
pub(crate) fn piece_of(bytes: &[u8]) -> Piece
    requires { length bytes.now ≤ 512 }
    ensures { result.items ≡ bytes.now }
{
    let mut piece = Piece::new();
    let _appended = piece.try_extend_from_slice(bytes);
    piece
}
