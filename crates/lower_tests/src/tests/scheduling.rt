//! Tables of what happens, followed by hand.
mod accounts;
mod admissions;
mod pools;
mod queues;
mod tickets;

use crate::tests::same;
use std::alloc::{AllocError, Global};
use std::fmt::Display;
use std::process::Abort;

/// Compares what is printed of a refusal with its name.
fn prints(
    rt: &impl Abort,
    alloc: Global,
    refused: &impl Display,
    name: &str,
) -> Result<(), AllocError> {
    let text = format!(in alloc; "{refused}")?;
    same(rt, text.as_str(), name);
    Ok(())
}
