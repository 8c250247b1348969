//! The tests of `link_asks` and `link_clients`, over their public calls.
#![tactic(auto)]

#[cfg(test)]
mod tests;
