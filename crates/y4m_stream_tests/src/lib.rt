//! Streams that are read, written and filtered over the public calls of `y4m_stream`.
#![tactic(auto)]

#[cfg(test)]
mod tests;
