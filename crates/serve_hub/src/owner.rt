//! Who owns a hub.
ghost use Rattle.std.specs.Prelude.{◌≡◌};

use crate::epoch::Epoch;
use crate::hub::Hub;
use std::marker::Model;
use std::sync::Wait;

/// Who owns a hub: it lends the hub, and alone can end its epoch.
///
/// Only who has the hub itself makes one. Who is lent the hub, as its clients and its workers are, can't.
/// Contracts see the hub.
#[derive(Drop)]
pub struct EpochOwner<L: Epoch> {
    hub: Hub<L>,
}

impl<L: Epoch> Model for EpochOwner<L> {
    ghost use Rattle.serve_hub.specs.Seats.{HubValue};

    ghost Value = { HubValue };

    ghost view = { λ a. a.hub };
}

impl<L: Epoch> EpochOwner<L> {
    /// Who owns this hub from now on.
    pub fn new(hub: Hub<L>) -> EpochOwner<L>
        ensures { result ≡ hub }
    {
        EpochOwner { hub }
    }

    /// The hub, for those who call it by their seats.
    pub fn hub(&self) -> &Hub<L>
        ensures { result.now ≡ self.now }
    {
        &self.hub
    }

    /// Ends the epoch: from now on an offer, a collection, a lease and an admission are answered
    /// `HistoryFull` where they would be accepted, as where the journal is full. Who waits is woken. Closes
    /// and settlements are as ever. It waits for the lock alone.
    ///
    /// No contract can name what is under a lock, so what the mark does is said of
    /// [`Book::end_epoch`](crate::book::Book::end_epoch), and of the book that is left.
    pub fn end_epoch(&self, rt: &impl Wait) {
        self.hub.end_epoch(rt);
    }

    /// The hub, which nobody is lent any more.
    pub fn into_hub(self) -> Hub<L>
        ensures { result ≡ self }
    {
        self.hub
    }
}
