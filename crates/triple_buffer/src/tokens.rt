//! The tokens of a triple buffer. Each is a seat at its table.
ghost use Rattle.triple_buffer.specs.Tokens.{RestsAsWriter, RestsAsReader, RestsAsNote};

use crate::views::View;
use atomic_table::Seat;

/// The right to make rows.
#[derive(Drop)]
pub struct TripleWriter<const W: usize> {
    /// Which of the three rows it has.
    pub(crate) place: usize,
    /// How many rows were made.
    pub(crate) made: u64,
    pub(crate) seat: Seat<(), View>,
    ghost rests: { RestsAsWriter place made seat.me },
}

/// The right to read rows.
#[derive(Drop)]
pub struct TripleReader<const W: usize> {
    /// Which of the three rows it has.
    pub(crate) place: usize,
    /// That row's number.
    pub(crate) number: u64,
    pub(crate) seat: Seat<(), View>,
    ghost rests: { RestsAsReader place number seat.me },
}

/// A number on its way to the reader. It has no bytes.
#[derive(Drop)]
pub struct TripleNote<const W: usize> {
    pub(crate) seat: Seat<(), View>,
    ghost rests: { RestsAsNote seat.me },
}
