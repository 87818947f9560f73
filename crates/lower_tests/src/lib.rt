//! The public calls of the lower crates: of headers, frames, bands, operations and jobs, and of accounts,
//! pools and queues.
#![tactic(auto)]

#[cfg(test)]
mod tests;
