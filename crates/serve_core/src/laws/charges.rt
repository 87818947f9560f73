//! What streams are charged, and what that keeps of the workers' time.
ghost use Rattle.serve_core.specs.AtOnce.{AtOnceLaw, LentLaw, SettledLaw, StillLaw};
ghost use Rattle.serve_core.specs.Bare.{measures_any, is_any_image};
ghost use Rattle.serve_core.specs.Frames.{measures, is_image};
ghost use Rattle.serve_core.specs.Grants.{GrantLaw};
ghost use Rattle.serve_core.specs.Laws.{ChargeLaw, DelayLaw, DemandLaw, WholeDemandLaw};
ghost use Rattle.serve_core.specs.Life.{LifeDemandLaw};

use cbs_account::bandwidth;

/// The grant of a lease is the greatest that there may be.
pub fn grant_law()
    ensures { GrantLaw }
{}

/// What a stream was charged is what its finished frames cost, and the bands that are done of the next one.
pub fn charge_law()
    ensures of_frames { ChargeLaw measures is_image }
    ensures bare { ChargeLaw measures_any is_any_image }
{}

/// No lease goes to a stream that had more than its bandwidth, up to the deadline of any other stream that is
/// ready.
pub fn delay_law()
    ensures of_frames { DelayLaw measures is_image }
    ensures bare { DelayLaw measures_any is_any_image }
{
    bandwidth();
}

/// What the streams were charged whose deadline is at most a moment, but for those that are released, is at
/// most that moment, once for each worker.
pub fn demand_law()
    ensures of_frames { DemandLaw measures is_image }
    ensures bare { DemandLaw measures_any is_any_image }
{}

/// What all the streams that there ever were were charged, and whose deadline is at most a moment, is at
/// most that moment, once for each worker.
///
/// A stream that is admitted finds only the time behind the deadlines of those whose share it takes over:
/// this is why a share is held up to its stream's deadline.
pub fn whole_demand_law()
    ensures of_frames { WholeDemandLaw measures is_image }
    ensures bare { WholeDemandLaw measures_any is_any_image }
{}

/// So it is over a whole life, in which transcripts follow one another and the released streams are taken out
/// between them: what was charged of those that were taken out counts for ever.
///
/// A clock that goes on between two of the transcripts is a tick of the later one.
pub fn life_demand_law()
    ensures of_frames { LifeDemandLaw measures is_image }
    ensures bare { LifeDemandLaw measures_any is_any_image }
{}

/// Bands that are charged one by one lead to where their sum leads at once.
pub fn at_once_law()
    ensures of_frames { AtOnceLaw measures is_image }
    ensures bare { AtOnceLaw measures_any is_any_image }
{}

/// Bands that are charged one by one, and the settlement behind them, lead to where the sum of their units
/// and the returned or finished stream lead at once.
pub fn settled_law()
    ensures of_frames { SettledLaw measures is_image }
    ensures bare { SettledLaw measures_any is_any_image }
{}

/// A lease can be settled, with any number of its bands, from the time that it is given.
pub fn lent_law()
    ensures of_frames { LentLaw measures is_image }
    ensures bare { LentLaw measures_any is_any_image }
{}

/// A lease can be settled as long as it is the same, whatever else happens.
pub fn still_law()
    ensures of_frames { StillLaw measures is_image }
    ensures bare { StillLaw measures_any is_any_image }
{}
