//! What is told of a session, epoch by epoch.
ghost use Rattle.std.specs.Prelude.{ℕ, ◌≡◌, ◌≤◌, List, ◌∷◌, Option, IsFalse};
ghost use Rattle.serve_work.specs.History.{EpochValue, HasEnded, Terms, epoch_of, given_up, gone_to};
ghost use Rattle.serve_work.specs.Live.{AreAllIn, Waiting};

use cbs_account::limits::LAST_MOMENT;
use serve_hub::Ended;

/// What is told of each epoch, in the order in which it happens.
pub trait Chronicle {
    /// What the session serves by.
    ghost terms: { Terms };

    /// The moments that the session's clock may give, by which is told.
    ghost times: { ℕ → Type 0 };

    /// That it was told of these epochs, the latest first, and that these requests wait, the oldest first.
    ghost stands: { Self → List EpochValue → List Waiting → Type 0 };

    /// An epoch has ended, in which all requests that wait had their streams. Their tickets are by the numbers
    /// of their streams. There is none of a stream that was told before, or that no request asked for.
    fn epoch_ended(&mut self, ended: &Ended, tickets: &[Option<u64>])
        requires epoch { (es : List EpochValue) × (ws : List Waiting) × stands self.old es ws
            × HasEnded terms times es (epoch_of ended.now tickets.now)
            × AreAllIn terms (epoch_of ended.now tickets.now ∷ es) ws }
        ensures one_more { (es : List EpochValue) (ws : List Waiting)
            → stands self.old es ws → stands self.new (epoch_of ended.now tickets.now ∷ es) ws };

    /// The clock goes on from the end of the latest epoch to this moment, unless it was past that.
    fn goes_on(&mut self, at: u64)
        requires from_end { (epoch : EpochValue) × (es : List EpochValue) × (ws : List Waiting)
            × stands self.old (epoch ∷ es) ws × (epoch.gone ≡ epoch.last) }
        requires time { times at }
        requires within { at ≤ LAST_MOMENT }
        ensures gone { (epoch : EpochValue) (es : List EpochValue) (ws : List Waiting)
            → stands self.old (epoch ∷ es) ws → stands self.new (gone_to at epoch ∷ es) ws };

    /// All streams that are left are given up.
    fn gives_up(&mut self)
        ensures given_up { (es : List EpochValue) (ws : List Waiting) → stands self.old es ws
            → stands self.new (given_up es) ws };

    /// Released streams were taken out, behind the latest epoch.
    fn retired(&mut self)
        requires behind { (epoch : EpochValue) × (es : List EpochValue) × (ws : List Waiting)
            × stands self.old (epoch ∷ es) ws × IsFalse epoch.is_given_up }
        ensures waits { (es : List EpochValue) (ws : List Waiting) → stands self.old es ws
            → stands self.new es ws };
}
