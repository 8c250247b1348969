//! The tests of both cells, of `link_shared`, of `link_live` and of `link_control`, over their public calls.
#![tactic(auto)]

#[cfg(test)]
mod tests;
