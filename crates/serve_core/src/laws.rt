//! What follows from the rules alone, whatever program keeps them. Where a law has the clauses `of_frames`
//! and `bare`, the second is the same law for transcripts without their frames.
pub mod admissions;
pub mod charges;
pub mod choices;
pub mod delivered;
pub mod leads;
pub mod sound;

pub use admissions::{fits_from_law, fits_law, released_law};
pub use charges::{
    at_once_law, charge_law, delay_law, demand_law, grant_law, lent_law, life_demand_law,
    settled_law, still_law, whole_demand_law,
};
pub use choices::{answer_law, one_choice_law, refused_law, sized_law};
pub use delivered::{close_law, delivered_law, drained_law, headline, waiting_law};
pub use leads::{
    bare_law, going_on_law, join_law, opening_law, reached_law, step_law, unchanged_law,
};
pub use sound::{holder_law, sound_from_law, sound_law, sound_step_law};
