//! Queues of items that can't be dropped.
ghost use Rattle.std.specs.Prelude.{◌≡◌, IfOk, IsFalse};

use crate::tests::{same, same_at};
use std::alloc::Global;
use std::test::Fail;
use stream_queue::{FrameQueue, Refused};

/// An item that can't be dropped.
struct Ticket {
    number: u32,
}

impl Ticket {
    fn tear(self) -> u32 {
        let Ticket { number } = self;
        number
    }
}

/// Passes a ticket through a queue of its own.
fn passed_on(alloc: Global, ticket: Ticket) -> Result<(u64, Ticket), Ticket>
    ensures { IfOk result (λ passed. (passed.0 ≡ 0) × (passed.1 ≡ ticket)) }
{
    let Ok(mut queue) = FrameQueue::new(alloc, 1) else {
        return Err(ticket);
    };
    match queue.offer(ticket) {
        Ok(_) => {}
        Err(_refused) => unreachable!(),
    }
    match queue.take() {
        Some(passed) => {
            queue.finish();
            queue.destroy_empty();
            Ok(passed)
        }
        None => unreachable!(),
    }
}

/// Ends a queue of tickets none of which is out, and answers the sum of their numbers.
fn torn_up(mut queue: FrameQueue<Ticket>) -> u32
    requires { IsFalse queue.is_out }
{
    let mut sum: u32 = 0;
    while let Some((_, ticket)) = queue.take() {
        sum = sum.wrapping_add(ticket.tear());
        queue.finish();
    }
    queue.destroy_empty();
    sum
}

#[test]
fn items_that_cannot_be_dropped_come_out_again(rt: HostRuntime) {
    let got = match passed_on(rt.alloc(), Ticket { number: 7 }) {
        Ok((number, ticket)) => Some((number, ticket.tear())),
        Err(ticket) => {
            ticket.tear();
            None
        }
    };
    same_at(&rt, got, Some((0, 7)), "was memory refused?");
}

/// Whether a ticket of this number found room.
fn is_queued(queue: &mut FrameQueue<Ticket>, number: u32) -> bool
    ensures { queue.new.is_out ≡ queue.old.is_out }
{
    if queue.accepted() >= 1 << 40 {
        return false;
    }
    match queue.offer(Ticket { number }) {
        Ok(_) => true,
        Err(Refused::Closed(ticket) | Refused::Full(ticket)) => {
            ticket.tear();
            false
        }
    }
}

#[test]
fn an_owner_empties_a_queue_that_ends(rt: HostRuntime) -> Result<(), Fail> {
    let mut queue = FrameQueue::new(rt.alloc(), 3)?;
    let are_queued = is_queued(&mut queue, 4)
        && is_queued(&mut queue, 5)
        && is_queued(&mut queue, 6);
    same_at(&rt, are_queued, true, "there is room");
    same(&rt, torn_up(queue), 15);
    Ok(())
}
