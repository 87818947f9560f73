//! Where the clock of a hub goes on between two epochs.
ghost use Rattle.std.specs.Prelude.{ℕ, List, ◌∷◌, Option};
ghost use Rattle.serve_work.specs.History.{EpochValue, epoch_of};
ghost use Rattle.serve_work.specs.Live.{Waiting};
ghost use Rattle.serve_work.specs.LiveInside.{GoesOn};

use crate::chronicle::Chronicle;
use serve_client::Clock;
use serve_hub::Ended;

/// Lets the hub's clock go on to the moment that the run's clock gives, and tells so: the shares of streams
/// that are over are free as soon as their deadlines have passed, also where the others are silent. A moment
/// past the last one changes nothing.
pub(super) fn go_to_now<K: Clock, C: Chronicle>(clock: &K, ended: Ended, chronicle: &mut C) -> Ended
    requires times { (at : ℕ) → K.gives clock.now at → C.times at }
    requires told { (whose : List (Option ℕ)) × (es : List EpochValue) × (ws : List Waiting)
        × C.stands chronicle.old (epoch_of ended whose ∷ es) ws }
    ensures { (whose : List (Option ℕ)) (es : List EpochValue) (ws : List Waiting)
        → C.stands chronicle.old (epoch_of ended whose ∷ es) ws
        → GoesOn (C.stands chronicle.new) C.times whose es ws ended result }
{
    let at = clock.moment();
    match ended.tick(at) {
        Ok(ended) => {
            chronicle.goes_on(at);
            ended
        }
        Err(ended) => ended,
    }
}
