//! A queue whose front item may be out, and keeps its number and its place until it has finished.
ghost use Rattle.std.specs.Prelude.{◌≡◌, ◌≤◌, ◌<◌, ◌↔◌, true, IsTrue, IsFalse, IsOk, IfOk, OnOk, OnErr};
ghost use Rattle.std.specs.Prelude.{IsErrOf, IfSome, OnSome, IfNone, IsNone, [], ◌∷◌, option_copied};
ghost use Rattle.stream_queue.specs.Queue.{HasRoom, IsFull, IsQueue, front, opened, with_front};
ghost use Rattle.stream_queue.specs.Queue.{with_front_out, with_last, with_one_finished};

use crate::limits::{MOST_ITEMS, MOST_PLACES};
use circular_buffer::HeapCircularBuffer;
use std::alloc::{AllocError, Global};
use std::marker::Model;
use thiserror::Error;

/// An item that was not accepted, and why.
#[derive(Debug, Drop, PartialEq, Eq, Error)]
pub enum Refused<T> {
    /// The queue accepts no more items.
    #[error("Closed")]
    Closed(T),
    /// As many items as the queue has places are unfinished.
    #[error("Full")]
    Full(T),
}

/// The queue was closed before.
#[derive(Clone, Copy, Debug, PartialEq, Eq, Error)]
#[error("AlreadyClosed")]
pub struct AlreadyClosed;

/// A queue of items that are numbered from 0 as they are accepted, and go out and finish in that order.
///
/// At most one item is out at a time. It keeps its number and its place, and comes back to the front by
/// [`FrameQueue::put_back`] or frees its place by [`FrameQueue::finish`]. Items that can't be dropped are
/// taken and finished one by one before [`FrameQueue::destroy_empty`]. Only [`FrameQueue::new`] takes memory.
#[derive(Drop)]
pub struct FrameQueue<T> {
    ring: HeapCircularBuffer<T>,
    is_out: bool,
    accepted: u64,
    finished: u64,
    is_closed: bool,
}

impl<T> Model for FrameQueue<T> {
    ghost use Rattle.stream_queue.specs.Queue.{IsQueue, Queue, queue_code};

    ghost Value = { Queue T };

    ghost coded = { queue_code T.code };

    ghost view = { λ q. record {
      waiting = q.ring.items;
      is_out = q.is_out;
      accepted = q.accepted;
      finished = q.finished;
      is_closed = q.is_closed;
      capacity = q.ring.capacity;
    } };

    ghost invariant = { λ q. IsQueue (record {
      waiting = q.ring.items;
      is_out = q.is_out;
      accepted = q.accepted;
      finished = q.finished;
      is_closed = q.is_closed;
      capacity = q.ring.capacity;
    }) };
}

impl<T> FrameQueue<T> {
    /// A queue with places for `capacity` items.
    pub fn new(alloc: Global, capacity: usize) -> Result<FrameQueue<T>, AllocError>
        requires { (1 ≤ capacity) × (capacity ≤ MOST_PLACES) }
        ensures { IfOk result (λ q. q ≡ opened capacity) }
    {
        let ring = HeapCircularBuffer::with_capacity(alloc, capacity)?;
        Ok(FrameQueue {
            ring,
            is_out: false,
            accepted: 0,
            finished: 0,
            is_closed: false,
        })
    }

    /// Accepts an item behind all others, and answers its number. A refused item comes back.
    pub fn offer(&mut self, item: T) -> Result<u64, Refused<T>>
        requires { self.old.accepted < MOST_ITEMS }
        ensures closed { IsErrOf result (Refused.Closed item) ↔ IsTrue self.old.is_closed }
        ensures full { IsErrOf result (Refused.Full item) ↔ (IsFalse self.old.is_closed × IsFull self.old) }
        ensures accepted { IsOk result ↔ (IsFalse self.old.is_closed × HasRoom self.old) }
        ensures number { IfOk result (λ n. n ≡ self.old.accepted) }

        ensures ok { OnOk result (self.new ≡ with_last item self.old) }
        ensures err { OnErr result (self.new ≡ self.old) }
    {
        if self.is_closed {
            return Err(Refused::Closed(item));
        }
        if self.accepted - self.finished >= self.ring.capacity() as u64 {
            return Err(Refused::Full(item));
        }
        match self.ring.try_push_back(item) {
            Ok(()) => {}
            Err(_) => unreachable!(),
        }
        let number = self.accepted;
        self.accepted += 1;
        Ok(number)
    }

    /// The item that [`FrameQueue::take`] would give.
    pub fn front(&self) -> Option<&T>
        ensures { option_copied result ≡ front self.now }
    {
        if self.is_out { None } else { self.ring.front() }
    }

    /// Gives the front item out, with its number. It keeps its place.
    pub fn take(&mut self) -> Option<(u64, T)>
        ensures none { IsNone result ↔ (front self.old ≡ None) }
        ensures number { IfSome result (λ taken. taken.0 ≡ self.old.finished) }
        ensures item { IfSome result (λ taken. self.old.waiting ≡ taken.1 ∷ self.new.waiting) }

        ensures out { OnSome result (self.new ≡ with_front_out self.old) }
        ensures same { IfNone result (self.new ≡ self.old) }
    {
        if self.is_out {
            return None;
        }
        let item = self.ring.pop_front()?;
        self.is_out = true;
        Some((self.finished, item))
    }

    /// Takes the item that is out back to the front.
    pub fn put_back(&mut self, item: T)
        requires { IsTrue self.old.is_out }
        ensures { self.new ≡ with_front item self.old }
    {
        match self.ring.try_push_front(item) {
            Ok(()) => {}
            Err(_) => unreachable!(),
        }
        self.is_out = false;
    }

    /// Frees the place of the item that is out, and answers its number.
    pub fn finish(&mut self) -> u64
        requires { IsTrue self.old.is_out }
        ensures number { result ≡ self.old.finished }
        ensures finished { self.new ≡ with_one_finished self.old }
    {
        let number = self.finished;
        self.is_out = false;
        self.finished += 1;
        number
    }

    /// Accepts no more items from now on. Those that are there stay.
    pub fn close(&mut self) -> Result<(), AlreadyClosed>
        ensures accepted { IsOk result ↔ IsFalse self.old.is_closed }
        ensures closed { self.new ≡ record self.old { is_closed = true } }
    {
        if self.is_closed {
            return Err(AlreadyClosed);
        }
        self.is_closed = true;
        Ok(())
    }

    /// How many items were accepted: the number of the next one.
    pub fn accepted(&self) -> u64
        ensures value { result ≡ self.now.accepted }
        ensures sound { IsQueue self.now }
    {
        self.accepted
    }

    /// How many items have finished: the number of the front one, or of the one that is out.
    pub fn finished(&self) -> u64
        ensures value { result ≡ self.now.finished }
        ensures sound { IsQueue self.now }
    {
        self.finished
    }

    /// Whether an item is out.
    pub fn is_out(&self) -> bool
        ensures { result ≡ self.now.is_out }
    {
        self.is_out
    }

    /// Whether no more items are accepted.
    pub fn is_closed(&self) -> bool
        ensures { result ≡ self.now.is_closed }
    {
        self.is_closed
    }

    /// Ends a queue in which nothing waits, where `T` need not be `Drop`.
    pub fn destroy_empty(self)
        requires { self.waiting ≡ [] }
    {
        let FrameQueue {
            ring,
            is_out: _,
            accepted: _,
            finished: _,
            is_closed: _,
        } = self;
        ring.destroy_empty();
    }
}
