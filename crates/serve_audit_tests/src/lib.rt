//! What `serve_audit` answers over its public calls, with journals that were written by hand.
#![tactic(auto)]

#[cfg(test)]
mod tests;
