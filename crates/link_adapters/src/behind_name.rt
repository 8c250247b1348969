//! The words of a command line without the program's name.

use std::env::{Env, FillError};

/// An environment whose arguments begin behind the program's name, so that the name need not be text: `std::env::args`
/// fails as a whole at the first argument that is none. All else is that of the environment behind it.
#[derive(Drop)]
pub struct BehindName<'a, E: Env> {
    pub all: &'a E,
}

impl<'a, E: Env> Env for BehindName<'a, E> {
    fn arg(&self, i: usize, buf: &mut [u8]) -> Result<usize, FillError> {
        self.all.arg(i.saturating_add(1), buf)
    }

    fn var(&self, name: &str, buf: &mut [u8]) -> Result<usize, FillError> {
        self.all.var(name, buf)
    }

    fn var_at(&self, i: usize, buf: &mut [u8]) -> Result<usize, FillError> {
        self.all.var_at(i, buf)
    }
}
