//! The threads of an epoch: one for each worker, and one for each client where it is granted.
ghost use Rattle.std.specs.Prelude.{◌≡◌, IfErr, IfOk, IsErr, IsTrue, vec_len};
ghost use Rattle.std.specs.Thread.{IsSend, IsSync};
ghost use Rattle.serve_work.specs.SessionInside.{AllRun, Runs};

use super::room::Slot;
use super::turn::Turn;
use crate::bounds::{Host, LentClock, LentGate, SentSink, SentSource};
use crate::setting::Setting;
use cbs_account::limits::MOST_STREAMS;
use serve_client::{Post, work};
use serve_hub::{Epoch, Hub};
use std::sync::{Mutex, Wait};
use std::thread;
use std::thread::Threads;

/// Runs each client that waits, in a thread of its own, or on the one that asked for it where it is refused.
fn run_clients<L: Epoch + Send + Sync, R: SentSource, W: SentSink, K: LentClock, T: Host>(
    post: Post<'_, L, K, T>,
    turns: &mut [Turn<L, R, W>],
)
    requires sharing { IsSync T.row × IsSync K.row × IsSync L.row × IsSend L.row }
    ensures { AllRun (K.gives post.entry.clock.now) turns.old turns.new }
{
    let Post {
        rt,
        alloc,
        hub,
        clock,
    } = post;
    let serve = move |_: usize, turn: &mut Turn<L, R, W>|
        ensures { Runs (K.gives clock.entry.now) turn.old turn.new }
    { turn.run(rt, alloc, hub, clock) };
    thread::for_each_mut(rt, turns, MOST_STREAMS, &serve);
}

/// Runs the clients, where a worker runs beside them.
fn run_beside<L: Epoch + Send + Sync, R: SentSource, W: SentSink, K: LentClock, T: Host>(
    post: Post<'_, L, K, T>,
    turns: Vec<Turn<L, R, W>>,
    any_works: bool,
) -> Vec<Turn<L, R, W>>
    requires sharing { IsSync T.row × IsSync K.row × IsSync L.row × IsSend L.row }
    ensures count { vec_len result ≡ vec_len turns }
    ensures run { AllRun (K.gives post.entry.clock.now) turns.items result.items }
{
    if !any_works {
        return turns;
    }
    let mut turns = turns;
    run_clients(post, &mut turns);
    turns
}

/// Whether the workers begin. It is locked until each was asked for.
type Start = Mutex<bool>;

/// A worker takes its seat from its slot, and leaves it there at its end.
pub(crate) fn work_in<L: Epoch, G: LentGate, T: Threads + Wait>(
    rt: &T,
    hub: &Hub<L>,
    slot: &Slot<L>,
    gate: &G,
) {
    let seat = slot.lock(rt).take();
    if let Some(seat) = seat {
        let (seat, _) = work(rt, hub, seat, gate);
        let _none = slot.lock(rt).replace(seat);
    }
}

/// Runs a worker from its slot, where the workers begin.
fn begin_in<L: Epoch, G: LentGate, T: Threads + Wait>(
    rt: &T,
    hub: &Hub<L>,
    slot: &Slot<L>,
    start: &Start,
    gate: &G,
) {
    let begins = *start.lock(rt);
    if begins {
        work_in(rt, hub, slot, gate);
    }
}

/// Starts the workers, runs the clients, and waits until the workers are back. Where no worker started, no
/// client runs.
///
/// The seat of a worker whose thread is refused stays in its slot. Where all are needed, none begins then,
/// and the streams come back as they were.
pub(crate) fn run_threads<
    L: Epoch + Send + Sync,
    R: SentSource,
    W: SentSink,
    G: LentGate,
    K: LentClock,
    T: Host,
>(
    setting: Setting<'_, G, K, T>,
    hub: &Hub<L>,
    slots: &[Slot<L>],
    turns: Vec<Turn<L, R, W>>,
    needs_all: bool,
) -> Result<Vec<Turn<L, R, W>>, Vec<Turn<L, R, W>>>
    ensures count { IfOk result (λ after. vec_len after ≡ vec_len turns) }
    ensures run { IfOk result (λ after. AllRun (K.gives setting.entry.clock.now) turns.items after.items) }
    ensures needed { IsErr result → IsTrue needs_all }
    ensures returns_turns { IfErr result (λ back. back.items ≡ turns.items) }
    ensures all_back { IfErr result (λ back. vec_len back ≡ vec_len turns) }
{
    let Setting {
        rt,
        alloc,
        gate,
        clock,
    } = setting;
    let start = Mutex::new(false);
    let start = &start;
    thread::scope(
        thread::scope_env(),
        rt,
        |scope| -> Result<Vec<Turn<L, R, W>>, Vec<Turn<L, R, W>>>
            requires { IsSync T.row × IsSync G.row × IsSync K.row × IsSync L.row × IsSend L.row
                × IsSend R.row × IsSend W.row }
            ensures count { IfOk result (λ after. vec_len after ≡ vec_len turns) }
            ensures run { IfOk result (λ after. AllRun (K.gives clock.entry.now) turns.items after.items) }
            ensures needed { IsErr result → IsTrue needs_all }
            ensures returns_turns { IfErr result (λ back. back.items ≡ turns.items) }
            ensures all_back { IfErr result (λ back. vec_len back ≡ vec_len turns) }
        {
            let mut begins = start.lock(rt);
            let mut any_works = false;
            let mut all_work = true;
            for slot in slots {
                if scope
                    .spawn(move || begin_in(rt, hub, slot, start, gate))
                    .is_ok()
                {
                    any_works = true;
                } else {
                    all_work = false;
                }
            }
            if needs_all && !all_work {
                return Err(turns);
            }
            *begins = true;
            drop(begins);
            let post = Post {
                rt,
                alloc,
                hub,
                clock,
            };
            Ok(run_beside(post, turns, any_works))
        },
    )
}
