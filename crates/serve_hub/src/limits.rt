//! How many seats a hub has, and what its journal may be limited to.
ghost use Rattle.std.specs.Prelude.{◌↔◌, ◌≤◌, IsTrue};
ghost use Rattle.serve_hub.specs.Books.{IsLimit};

use cbs_account::limits::{FEWEST_ENTRIES, MOST_ENTRIES, MOST_STREAMS, MOST_WORKERS};

/// The most seats of a hub, those of its streams and of its workers. A ledger has a part for each.
pub const MOST_SEATS: u64 = MOST_STREAMS as u64 + MOST_WORKERS;

/// Whether the journal of so many streams may have so many entries at most.
pub(crate) fn is_limit(streams: usize, limit: usize) -> bool
    requires { streams ≤ MOST_STREAMS }
    ensures { IsTrue result ↔ IsLimit streams limit }
{
    FEWEST_ENTRIES <= limit && limit <= MOST_ENTRIES && streams + 2 <= limit
}
