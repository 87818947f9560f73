//! Clients, workers and whole sessions over the public calls of `serve_work`.
#![tactic(auto)]

#[cfg(test)]
mod tests;
