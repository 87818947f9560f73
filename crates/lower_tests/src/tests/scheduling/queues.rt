//! Queues of letters, and of numbers round the ring.
use super::prints;
use crate::tests::{same, same_at};
use std::alloc::AllocError;
use stream_queue::{AlreadyClosed, FrameQueue, Refused};

enum Call {
    Offer(char),
    Front,
    Take,
    PutBack(char),
    Finish,
    Close,
}

#[derive(Debug, Drop, PartialEq)]
enum Answer {
    Number(u64),
    Item(char),
    Out(u64, char),
    Nothing,
    Done,
    Closed(char),
    Full(char),
    AlreadyClosed,
    /// What the queue does not allow now.
    Never,
}

fn offered(queue: &mut FrameQueue<char>, item: char) -> Answer {
    if queue.accepted() >= 1 << 40 {
        return Answer::Never;
    }
    match queue.offer(item) {
        Ok(number) => Answer::Number(number),
        Err(Refused::Closed(item)) => Answer::Closed(item),
        Err(Refused::Full(item)) => Answer::Full(item),
    }
}

/// What is answered to the end of the item that is out: it goes back where it is told, and is finished else.
fn ended(queue: &mut FrameQueue<char>, item: Option<char>) -> Answer {
    if !queue.is_out() {
        return Answer::Never;
    }
    match item {
        Some(item) => {
            queue.put_back(item);
            Answer::Done
        }
        None => Answer::Number(queue.finish()),
    }
}

fn answer_of(queue: &mut FrameQueue<char>, call: &Call) -> Answer {
    match call {
        Call::Offer(item) => offered(queue, *item),
        Call::Front => match queue.front() {
            Some(item) => Answer::Item(*item),
            None => Answer::Nothing,
        },
        Call::Take => match queue.take() {
            Some((number, item)) => Answer::Out(number, item),
            None => Answer::Nothing,
        },
        Call::PutBack(item) => ended(queue, Some(*item)),
        Call::Finish => ended(queue, None),
        Call::Close => match queue.close() {
            Ok(()) => Answer::Done,
            Err(AlreadyClosed) => Answer::AlreadyClosed,
        },
    }
}

/// Of a queue of two places.
const CALLS: &[(Call, Answer)] = &[
    (Call::Front, Answer::Nothing),
    (Call::Offer('a'), Answer::Number(0)),
    (Call::Offer('b'), Answer::Number(1)),
    (Call::Offer('c'), Answer::Full('c')),
    (Call::Front, Answer::Item('a')),
    (Call::Take, Answer::Out(0, 'a')),
    (Call::Front, Answer::Nothing),
    (Call::Take, Answer::Nothing),
    (Call::Offer('c'), Answer::Full('c')),
    (Call::PutBack('a'), Answer::Done),
    (Call::Front, Answer::Item('a')),
    (Call::Take, Answer::Out(0, 'a')),
    (Call::Finish, Answer::Number(0)),
    (Call::Front, Answer::Item('b')),
    (Call::Offer('c'), Answer::Number(2)),
    // Closed comes before Full, and what was accepted still goes out.
    (Call::Close, Answer::Done),
    (Call::Offer('d'), Answer::Closed('d')),
    (Call::Close, Answer::AlreadyClosed),
    (Call::Take, Answer::Out(1, 'b')),
    (Call::Finish, Answer::Number(1)),
    (Call::Offer('d'), Answer::Closed('d')),
    (Call::Take, Answer::Out(2, 'c')),
];

#[test]
fn an_item_that_is_out_keeps_its_place(rt: HostRuntime) -> Result<(), AllocError> {
    let mut queue = FrameQueue::new(rt.alloc(), 2)?;
    for (i, (call, wanted)) in CALLS.iter().enumerate() {
        same_at(&rt, &answer_of(&mut queue, call), wanted, i);
    }
    let counts = (queue.accepted(), queue.finished());
    same(&rt, counts, (3, 2));
    same(&rt, (queue.is_out(), queue.is_closed()), (true, true));
    Ok(())
}

/// Whether a number is taken with this place and finished.
fn goes_out(queue: &mut FrameQueue<u64>, number: u64) -> bool {
    queue.take() == Some((number, number)) && queue.is_out() && queue.finish() == number
}

/// Whether a number is accepted with its own number, where one is wanted; else there is no place for it.
fn is_offered(queue: &mut FrameQueue<u64>, item: u64, number: Option<u64>) -> bool {
    if queue.accepted() >= 1 << 40 {
        return false;
    }
    match queue.offer(item) {
        Ok(given) => number == Some(given),
        Err(refused) => number == None && refused == Refused::Full(item),
    }
}

#[test]
fn a_long_queue_goes_round(rt: HostRuntime) -> Result<(), AllocError> {
    let mut queue = FrameQueue::new(rt.alloc(), 256)?;
    for number in 0..256 {
        let is_offered = is_offered(&mut queue, number, Some(number));
        same_at(&rt, is_offered, true, number);
    }
    for number in 0..1000 {
        let last = 256 + number;
        let is_passed = is_offered(&mut queue, 0, None)
            && goes_out(&mut queue, number)
            && is_offered(&mut queue, last, Some(last));
        same_at(&rt, is_passed, true, number);
    }
    Ok(())
}

#[test]
fn refusals_print_their_names(rt: HostRuntime) -> Result<(), AllocError> {
    prints(&rt, rt.alloc(), &Refused::Closed(4), "Closed")?;
    prints(&rt, rt.alloc(), &Refused::Full(4), "Full")?;
    prints(&rt, rt.alloc(), &AlreadyClosed, "AlreadyClosed")
}
