//! What a chronicle is told of a session whose streams begin together.
ghost use Rattle.std.specs.Prelude.{◌≡◌, ⊤};
ghost use Rattle.serve_work.specs.History.{terms_with};
ghost use Rattle.serve_work.specs.Sessions.{AreInputs};

use super::live::HasTerms;
use super::many::{AllInputs, all_opened};
use super::stops::{PLAIN_THREE, TURNED_THREE};
use super::{Open, Still, same_at};
use serve_core::Setup;
use serve_hub::{Act, Ended};
use serve_work::{Chronicle, serve_session_told};
use std::alloc::Global;
use std::marker::{Brand, PhantomData};
use std::process::Abort;
use std::sync::Wait;
use std::thread::Threads;

/// How many entries an epoch's journal may have.
const LIMIT: usize = 16;

/// What was told of the epochs: how many there were, how many entries the longest journal had, and how many
/// frames were accepted in all.
#[derive(Clone, Copy, Debug, PartialEq, Eq)]
struct Counts {
    epochs: u64,
    most: usize,
    offers: u64,
}

/// Counts what it is told of.
#[derive(Drop)]
struct Tally<L> {
    counts: Counts,
    terms: PhantomData<L>,
}

impl<L: HasTerms> Chronicle for Tally<L> {
    ghost terms = { L.terms };

    ghost times = { λ _. ⊤ };

    ghost stands = { λ _ _ _. ⊤ };

    fn epoch_ended(&mut self, ended: &Ended, _tickets: &[Option<u64>]) {
        let journal = ended.journal();
        for entry in journal {
            if let Act::Offered(_, _) = entry.act {
                self.counts.offers = self.counts.offers.saturating_add(1);
            }
        }
        self.counts.epochs = self.counts.epochs.saturating_add(1);
        self.counts.most = self.counts.most.max(journal.len());
    }

    fn goes_on(&mut self, _at: u64) {}

    fn gives_up(&mut self) {}

    fn retired(&mut self) {}
}

/// What is told of a session of this setup, where it ends well.
fn told_by<'a, T: Threads + Wait + Sync, L: HasTerms>(
    rt: &T,
    alloc: Global,
    setup: Setup,
    inputs: AllInputs<'a>,
) -> Option<Counts>
    requires inputs { AreInputs setup.streams inputs.items }
    requires terms { terms_with setup LIMIT ≡ L.terms }
{
    let counts = Counts {
        epochs: 0,
        most: 0,
        offers: 0,
    };
    let mut tally: Tally<L> = Tally {
        counts,
        terms: PhantomData,
    };
    match serve_session_told(
        rt,
        alloc,
        setup,
        inputs,
        LIMIT,
        &mut tally,
        &Open,
        &Still(0),
    ) {
        Ok(_) => Some(tally.counts),
        Err(_) => None,
    }
}

/// What is told of two streams of three frames.
fn told(rt: &(impl Abort + Threads + Wait + Sync), alloc: Global) -> Option<Counts> {
    let (specs, inputs) = all_opened(rt, alloc, &[PLAIN_THREE, TURNED_THREE]);
    let setup = Setup::new(1, 4, specs).expect(rt, "no setup");
    told_by::<_, Brand>(rt, alloc, setup, inputs)
}

/// All six frames are entries of the epochs that are told, and of none is the journal too long.
#[test]
fn each_epoch_is_told(rt: HostRuntime) {
    let came = told(&rt, rt.alloc());
    let wanted = (true, true, Some(6));
    let is_one_of_many = came.map(|counts| counts.epochs) > Some(1);
    let fits = came.map(|counts| counts.most) <= Some(LIMIT);
    let offers = came.map(|counts| counts.offers);
    same_at(&rt, (is_one_of_many, fits, offers), wanted, "the epochs");
}
