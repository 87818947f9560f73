//! What follows from the definitions alone.
ghost use Rattle.serve_work.specs.HistoryLaws.{EarliestLaw, EpochDemandLaw, HubDemandLaw, TakenOutLaw};

pub use serve_client::laws::{
    a_front_is_out, a_front_went_out, a_new_stream_is_unbegun, an_input_fault_is_told,
    streams_cross, the_input_is_served,
};
use serve_core::laws::charges::{life_demand_law, whole_demand_law};

/// Over the epochs of a session whose streams come and go each lease went to a stream with an earliest deadline
/// of those that were ready.
pub fn each_lease_is_earliest()
    ensures { EarliestLaw }
{}

/// In each of its epochs, what the streams were charged that are there, and whose deadline is at most a moment,
/// is at most that moment, once for each worker of the session.
pub fn epochs_keep_demand()
    ensures { EpochDemandLaw }
{
    whole_demand_law();
}

/// So it is of all the streams that there ever were since a hub opened: what was charged of those that were
/// taken out between two of its epochs counts for ever.
pub fn a_hub_keeps_demand()
    ensures taken_out { TakenOutLaw }
    ensures demand { HubDemandLaw }
{
    life_demand_law();
}
