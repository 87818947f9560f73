//! What the streams of a run are read from and written to, and the threads that look out and carry for them
//! where a call may wait.
#![tactic(auto)]

mod ahead;
mod files;
mod inlet;
mod load;
mod lookout;
mod outlet;
mod patient;
mod reading;
mod relay;
mod stock;

pub use files::{FileId, Files, Place, StreamFiles};
pub use inlet::{Inflow, Inlet, OverInflow, inflow_by, inflow_of};
pub use lookout::{Looker, Lookout, Outlook};
pub use outlet::{Outflow, Outlet, OverOutflow, outflow_by, outflow_of};
pub use patient::Patient;
pub use reading::Reading;
pub use relay::{Carrier, Relay};
