//! Whether all leases of an epoch were spent and settled whole.
ghost use Rattle.std.specs.Prelude.{All, IsTrue};
ghost use Rattle.serve_client.specs.Workers.{AreSpent};

use serve_hub::{Act, Epoch, WorkSeat};

/// Whether calls are leases, each followed by the settlement of its whole grant.
fn are_spent(calls: &[Act]) -> bool
    ensures { IsTrue result → AreSpent calls.now }
{
    let mut grant = None;
    for call in calls {
        grant = match (grant, *call) {
            (None, Act::Leased(_, _, bands)) => Some(bands),
            (Some(bands), Act::Settled(done, _)) if done == bands => None,
            _ => return false,
        };
    }
    grant.is_none()
}

/// Whether each lease of these workers was settled with its whole grant.
pub fn have_spent<L: Epoch>(seats: &Vec<WorkSeat<L>>) -> bool
    ensures { IsTrue result → All (λ s. AreSpent s.calls.list) seats.now.items }
{
    for seat in seats {
        if !are_spent(seat.calls()) {
            return false;
        }
    }
    true
}
