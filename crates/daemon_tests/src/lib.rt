//! The tests of `link_adapters`, `link_words`, `link_commands` and `link_daemon`, over their public calls: whole runs through the top call,
//! and the real things.
#![tactic(auto)]

#[cfg(test)]
mod tests;
