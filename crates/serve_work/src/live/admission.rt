//! Streams that are admitted where an epoch opens.
ghost use Rattle.std.specs.Prelude.{◌≡◌, ◌≤◌, ◌++◌, List, [], ◌∷◌, IfErr, IfOk, OnOk, length};
ghost use Rattle.serve_hub.specs.Calls.{Admits};
ghost use Rattle.serve_work.specs.History.{EpochValue};
ghost use Rattle.serve_work.specs.Live.{AllowsRefusal, Waiting, waiting_of};
ghost use Rattle.serve_work.specs.LiveInside.{AreSeated};
ghost use Rattle.serve_work.specs.Sessions.{IsInput};

use crate::door::Door;
use crate::live::opening::Hall;
use crate::request::{Answer, Request};
use crate::session::turn::Stream;
use crate::setting::Setting;
use cbs_account::limits::MOST_STREAMS;
use serve_core::{Refusal as Core, StreamSpec};
use serve_hub::{Epoch, Hub, Refusal, StreamSeat};
use std::alloc::Global;
use std::sync::Wait;
use y4m_stream::{Sink, Source};

/// The seat of a stream that is admitted, or why it isn't.
fn take_seat<L: Epoch, T: Wait>(
    rt: &T,
    alloc: Global,
    hub: &Hub<L>,
    spec: StreamSpec,
) -> Result<StreamSeat<L>, Refusal>
    ensures seat { IfOk result (Admits spec) }
    ensures sized { OnOk result (spec.chain.geometry ≡ spec.geometry) }
    ensures behind { IfOk result (λ seat. length L.opening.streams ≤ seat.number) }
    ensures refused { IfErr result (AllowsRefusal spec) }
{
    // The hub refuses such a stream too, but its contract doesn't say so of one that it admits.
    if !spec.job().fits(spec.geometry()) {
        return Err(Refusal::Core(Core::BadLimits));
    }
    match hub.admit(rt, alloc, spec) {
        Ok(seat) => Ok(seat),
        Err(refused) => Err(refused.refusal),
    }
}

/// Admits the stream of a request, or tells why not.
fn admit<L: Epoch, R: Source + Drop, W: Sink + Drop, D: Door<R, W>, G, K, T: Wait>(
    setting: Setting<'_, G, K, T>,
    hub: &Hub<L>,
    hall: &mut Hall<L, R, W>,
    request: Request<R, W>,
    door: &mut D,
)
    requires input { IsInput request.spec (request.reader, request.writer) }
    requires seated { (es : List EpochValue) × (ws : List Waiting)
        × D.stands door.old es (ws ++ waiting_of W.contents W.failures (length es) request ∷ [])
        × AreSeated D.terms D.times es L.opening ws hall.old }
    ensures seated { (es : List EpochValue) × (ws : List Waiting) × D.stands door.new es ws
        × AreSeated D.terms D.times es L.opening ws hall.new }
{
    let Request {
        ticket,
        spec,
        reader,
        writer,
    } = request;
    if hall.room.turns.len() + hall.idle.len() >= MOST_STREAMS {
        let refusal = Refusal::Core(Core::TooManyStreams);
        door.tell(ticket, &mut Some(Answer::Refused(refusal, reader, writer)));
        return;
    }
    match take_seat(setting.rt, setting.alloc, hub, spec) {
        Ok(seat) => {
            hall.seat(seat, ticket, Stream::new(reader, writer));
            door.admitted(ticket);
        }
        Err(refusal) => {
            door.tell(ticket, &mut Some(Answer::Refused(refusal, reader, writer)));
        }
    }
}

/// Admits the streams of the requests that are there.
pub(super) fn admit_all<L: Epoch, R: Source + Drop, W: Sink + Drop, D: Door<R, W>, G, K, T: Wait>(
    setting: Setting<'_, G, K, T>,
    hub: &Hub<L>,
    hall: &mut Hall<L, R, W>,
    door: &mut D,
)
    requires seated { (es : List EpochValue) × (ws : List Waiting) × D.stands door.old es ws
        × AreSeated D.terms D.times es L.opening ws hall.old }
    ensures seated { (es : List EpochValue) × (ws : List Waiting) × D.stands door.new es ws
        × AreSeated D.terms D.times es L.opening ws hall.new }
{
    for _ in 0..MOST_STREAMS {
        match door.next() {
            None => return,
            Some(request) => admit(setting, hub, hall, request, door),
        }
    }
}
