//! A session between two epochs.
ghost use Rattle.std.specs.Prelude.{◌≡◌, ◌<◌, ◌≤◌, ◌^◌, ℕ, ⊤, List, [], vec_capacity, vec_len};
ghost use Rattle.std.specs.List.{AllZip};
ghost use Rattle.serve_core.specs.Schedule.{HasStream};
ghost use Rattle.serve_work.specs.History.{EpochValue, epoch_of};
ghost use Rattle.serve_work.specs.Intervals.{Beginning, IsBetween, IsBetweenEpochs};
ghost use Rattle.serve_work.specs.SessionInside.{AreOver, AreTold, BringNoEnd, outcomes_of};
ghost use Rattle.serve_work.specs.Sessions.{IsServedBy};

use super::turn::Stream;
use serve_client::Served;
use serve_hub::Ended;
use y4m_stream::{Sink, Source};

/// What crosses from one epoch to the next.
#[derive(Drop)]
pub(super) struct Interval<R: Source, W: Sink> {
    pub(super) ended: Ended,
    pub(super) streams: Vec<Stream<R, W>>,
    /// The place for what is told of the streams, so that the end takes no memory.
    pub(super) served: Vec<Served<R, W>>,
    /// How many workers there are.
    pub(super) workers: usize,
    /// Whether a stream waits for another epoch.
    pub(super) waits: bool,
    /// Whether no epoch can begin any more.
    pub(super) is_cut: bool,
}

/// What became of each stream, where no epoch comes any more.
pub(super) fn report<R: Source + Drop, W: Sink + Drop>(
    interval: Interval<R, W>,
) -> Vec<Served<R, W>>
    requires between { IsBetweenEpochs interval }
    ensures served { (b : Beginning) (epochs : List EpochValue) → IsBetween b epochs interval
        → AllZip (IsServedBy interval.waits epochs (epoch_of interval.ended [])) b.starts result.items }
    ensures stops { BringNoEnd interval.streams.items result.items }
{
    let Interval {
        ended,
        streams,
        mut served,
        ..
    } = interval;
    tell(streams, &mut served);
    charge(&ended, &mut served);
    served
}

/// Tells what became of each stream.
fn tell<R: Source + Drop, W: Sink + Drop>(
    streams: Vec<Stream<R, W>>,
    served: &mut Vec<Served<R, W>>,
)
    requires none { served.old.items ≡ [] }
    requires room { vec_len streams ≤ vec_capacity served.old }
    ensures { AreOver streams.items served.new.items }
{
    for stream in streams {
        served.push_reserved(stream.into_served());
    }
}

/// Tells what each stream was charged.
fn charge<R: Source, W: Sink>(ended: &Ended, served: &mut Vec<Served<R, W>>)
    requires fits_u32 { vec_len served.old < 2 ^ 32 }
    requires in_desk { (n : ℕ) → n < vec_len served.old → HasStream ended.now.book.desk n (λ _. ⊤) }
    ensures outcomes { outcomes_of served.new.items ≡ outcomes_of served.old.items }
    ensures tells_charges { AreTold ended.now.book.desk (vec_len served.new) served.new.items }
{
    for n in 0..served.len() {
        let Some(counts) = ended.counts(n as u32) else {
            unreachable!()
        };
        let told = &mut served[n];
        told.charged = counts.charged;
    }
}
