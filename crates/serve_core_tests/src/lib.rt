//! What `serve_core` answers over its public calls, with values that were worked out by hand.
#![tactic(auto)]

#[cfg(test)]
mod tests;
