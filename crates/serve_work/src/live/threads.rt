//! The threads of an epoch whose streams may be joined by others.
ghost use Rattle.std.specs.Prelude.{◌≡◌, vec_len};
ghost use Rattle.std.specs.Thread.{IsSend, IsSync};
ghost use Rattle.serve_work.specs.SessionInside.{AllRun, Runs};

use crate::bounds::{Host, LentClock, LentDoor, LentGate, SentSink, SentSource};
use crate::door::Bell;
use crate::session::room::Slot;
use crate::session::threads::work_in;
use crate::session::turn::Turn;
use crate::setting::Setting;
use cbs_account::limits::MOST_STREAMS;
use serve_client::Post;
use serve_hub::{Epoch, EpochOwner};
use std::sync::Wait;
use std::thread;

/// For how many milliseconds the watch waits for a request or a question before it looks whether the epoch
/// has ended.
const PATIENCE: u64 = 5;

/// Ends the epoch where a request is at the door, or a question of how the streams stand
/// ([`Bell::is_there`]). The watch is over when the epoch is, and tells the door so.
fn watch<L: Epoch, B: Bell, T: Wait>(rt: &T, owner: &EpochOwner<L>, door: &B) {
    for _ in rt.forever() {
        if owner.hub().is_full(rt) {
            break;
        }
        if door.is_there(PATIENCE) {
            owner.end_epoch(rt);
            break;
        }
    }
    door.epoch_is_over();
}

/// Runs each client that waits, in a thread of its own, or on the one that asked for it where it is refused.
/// Where one is done it ends the epoch.
fn run_guests<L: Epoch + Send + Sync, R: SentSource, W: SentSink, K: LentClock, T: Host>(
    post: Post<'_, L, K, T>,
    owner: &EpochOwner<L>,
    turns: &mut [Turn<L, R, W>],
)
    requires sharing { IsSync T.row × IsSync K.row × IsSync L.row × IsSend L.row }
    ensures { AllRun (K.gives post.entry.clock.now) turns.old turns.new }
{
    let Post {
        rt,
        alloc,
        clock,
        ..
    } = post;
    let serve = move |_: usize, turn: &mut Turn<L, R, W>|
        ensures { Runs (K.gives clock.entry.now) turn.old turn.new }
    {
        turn.run(rt, alloc, owner.hub(), clock);
        if turn.is_over() {
            owner.end_epoch(rt);
        }
    };
    thread::for_each_mut(rt, turns, MOST_STREAMS, &serve);
}

/// Runs the clients where a worker runs beside them, and ends the epoch when all are done or paused.
fn run_beside<L: Epoch + Send + Sync, R: SentSource, W: SentSink, K: LentClock, T: Host>(
    post: Post<'_, L, K, T>,
    owner: &EpochOwner<L>,
    turns: Vec<Turn<L, R, W>>,
    any_works: bool,
) -> Vec<Turn<L, R, W>>
    requires sharing { IsSync T.row × IsSync K.row × IsSync L.row × IsSend L.row }
    ensures count { vec_len result ≡ vec_len turns }
    ensures run { AllRun (K.gives post.entry.clock.now) turns.items result.items }
{
    if !any_works {
        owner.end_epoch(post.rt);
        return turns;
    }
    let mut turns = turns;
    run_guests(post, owner, &mut turns);
    owner.end_epoch(post.rt);
    turns
}

/// Starts the workers and the watch at the door, runs the clients, and waits until all are back. Where no
/// worker started, no client runs. Tells whether one did. Where the thread of the watch is refused, requests
/// and questions wait until the epoch ends by itself.
pub(super) fn run_threads<
    L: Epoch + Send + Sync,
    R: SentSource,
    W: SentSink,
    D: LentDoor<R, W>,
    G: LentGate,
    K: LentClock,
    T: Host,
>(
    setting: Setting<'_, G, K, T>,
    owner: &EpochOwner<L>,
    slots: &[Slot<L>],
    turns: Vec<Turn<L, R, W>>,
    door: &D,
) -> (Vec<Turn<L, R, W>>, bool)
    ensures count { vec_len result.0 ≡ vec_len turns }
    ensures run { AllRun (K.gives setting.entry.clock.now) turns.items result.0.items }
{
    let Setting {
        rt,
        alloc,
        gate,
        clock,
    } = setting;
    let hub = owner.hub();
    thread::scope(
        thread::scope_env(),
        rt,
        |scope| -> (Vec<Turn<L, R, W>>, bool)
            requires { IsSync T.row × IsSync G.row × IsSync K.row × IsSync L.row × IsSend L.row
                × IsSync D.row × IsSend R.row × IsSend W.row }
            ensures count { vec_len result.0 ≡ vec_len turns }
            ensures run { AllRun (K.gives clock.entry.now) turns.items result.0.items }
        {
            let mut any_works = false;
            for slot in slots {
                if scope.spawn(move || work_in(rt, hub, slot, gate)).is_ok() {
                    any_works = true;
                }
            }
            let _is_watched = scope.spawn(move || watch(rt, owner, door)).is_ok();
            let post = Post {
                rt,
                alloc,
                hub,
                clock,
            };
            (run_beside(post, owner, turns, any_works), any_works)
        },
    )
}
