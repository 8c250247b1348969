//! What lines ask for, what is wrong with others, and the texts of the answers.

mod answers;
mod lines;
mod misses;
mod tempos;
