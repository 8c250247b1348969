//! The tests of the machine, `link_node`, of a world of machines, of their texts, and of the crates that these stand on, over their public
//! calls.
#![tactic(auto)]

#[cfg(test)]
mod tests;
