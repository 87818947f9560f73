//! The names of epochs.
ghost use Rattle.serve_core.specs.Schedule.{ScheduleValue};
ghost use Rattle.serve_hub.specs.Books.{no_schedule};

use std::marker::Brand;
use std::sync::ledger::Ledger;

/// The name of an epoch: that of the ledger that counts its entries, with the desk that it opens from.
///
/// What is under a lock can be told by its type alone, so the desk is a part of the name. Who calls a
/// function that is generic in the name, at `Brand`, picks it there.
pub trait Epoch: Ledger {
    ghost opening: { ScheduleValue };
}

impl Epoch for Brand {
    ghost opening = { no_schedule };
}
