//! What books, hubs and their seats answer over the public calls of `serve_hub`.
#![tactic(auto)]

#[cfg(test)]
mod tests;
