//! The program over readers and writers in memory, and what it shows on a terminal, by the public calls of
//! `serve_report`.
#![tactic(auto)]

#[cfg(test)]
mod clock;
#[cfg(test)]
mod compare;
#[cfg(test)]
mod control;
#[cfg(test)]
mod lookout;
#[cfg(test)]
mod patient;
#[cfg(test)]
mod program;
#[cfg(test)]
mod progress;
#[cfg(test)]
mod relay;
