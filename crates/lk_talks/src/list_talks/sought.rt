//! What is sought among the steps of talks in memory.

ghost use Rattle.std.specs.Prelude.{◌≡◌, ◌<◌, ◌≤◌, ◌+◌, ◌-◌, ◌^◌, [], ◌++◌, length, drop, true, false, IfSome, MatchOption};
ghost use Rattle.lk_talks.specs.Sought.{IsComer, IsGoer, IsSought};

use crate::step::Step;

/// What a seat's client did next.
#[derive(Clone, Copy, Debug)]
pub enum Sought<'a> {
    /// It sent: the step, how many of the bytes from there on were heard, and those of the step that weren't.
    Piece(usize, usize, &'a [u8]),
    /// It went, at this step.
    Goes(usize),
    /// Nothing.
    Nothing,
}

/// What the client in a seat did next from a step on, where so many of the bytes that it sent from there on were heard.
pub fn sought_in<'a>(steps: &'a [Step], seat: u8, from: usize, given: usize) -> Sought<'a>
    ensures { IsSought steps.now seat from given result }
{
    let mut at = from;
    let mut heard = given;
    while at < steps.len() {
        match &steps[at] {
            Step::Sends(other, bytes) if *other == seat => {
                if heard < bytes.len() {
                    return Sought::Piece(at, heard, &bytes[heard..]);
                }
                heard -= bytes.len();
            }
            Step::Goes(other) if *other == seat => return Sought::Goes(at),
            _ => {}
        }
        at += 1;
    }
    Sought::Nothing
}

/// The first step, from one on, at which the client in a seat goes.
pub fn goer_in(steps: &[Step], seat: u8, from: usize) -> Option<usize>
    ensures { IsGoer steps.now seat from result }
{
    let mut at = from;
    while at < steps.len() {
        if matches!(&steps[at], Step::Goes(other) if *other == seat) {
            return Some(at);
        }
        at += 1;
    }
    None
}

/// The first step, from one on, at which a client comes.
pub fn comer_in(steps: &[Step], from: usize) -> Option<usize>
    ensures { IsComer steps.now from result }
{
    let mut at = from;
    while at < steps.len() {
        if matches!(&steps[at], Step::Comes) {
            return Some(at);
        }
        at += 1;
    }
    None
}
