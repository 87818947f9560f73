//! The calls that a seat made.
ghost use Rattle.std.specs.Prelude.{◌≡◌, ◌+◌, ◌<◌, ◌≤◌, ◌^◌, [], length, sum_by};
ghost use Rattle.std.specs.Prelude.{IfOk, IsSomeAnd, slice_get, vec_capacity};
ghost use Rattle.serve_hub.specs.Seats.{no_calls, one_collection, with_call};

use crate::book::Book;
use crate::entry::Act;
use std::alloc::{AllocError, Global};
use std::marker::Model;
use std::sync::ledger::{Book as Total, Ledger, Share};

/// The accepted calls of a seat, the oldest first, each of which is counted in the seat's share of the
/// ledger. There is room for as many as the hub's journal has.
#[derive(Drop)]
pub(crate) struct Calls<L: Ledger> {
    pub(crate) list: Vec<Act>,
    pub(crate) limit: usize,
    share: Share<L>,
}

impl<L: Ledger> Model for Calls<L> {
    ghost use Rattle.std.specs.Prelude.{◌≡◌, ◌≤◌, vec_len, vec_capacity};
    ghost use Rattle.serve_hub.specs.Seats.{CallsValue};

    ghost Value = { CallsValue };

    ghost view = { λ a. record { limit = a.limit; list = a.list.items } };

    ghost invariant = { λ a. (a.share.parts ≡ 1) × (a.share.amount ≡ vec_len a.list)
        × (a.limit ≤ vec_capacity a.list) };
}

impl<L: Ledger> Calls<L> {
    pub(crate) fn new(alloc: Global, limit: usize, share: Share<L>) -> Result<Calls<L>, AllocError>
        requires part { share.parts ≡ 1 }
        requires amount { share.amount ≡ 0 }
        ensures { IfOk result (λ calls. calls ≡ no_calls limit) }
    {
        let list = Vec::with_capacity(alloc, limit)?;
        Ok(Calls::over(list, limit, share))
    }

    /// No calls yet, with this memory for them.
    pub(crate) fn over(list: Vec<Act>, limit: usize, share: Share<L>) -> Calls<L>
        requires part { share.parts ≡ 1 }
        requires amount { share.amount ≡ 0 }
        requires none { list.items ≡ [] }
        requires room { limit ≤ vec_capacity list }
        ensures { result ≡ no_calls limit }
    {
        Calls { list, limit, share }
    }

    /// How many images were collected.
    pub(crate) fn collections(&self) -> u64
        ensures value { result ≡ sum_by one_collection self.now.list }
        ensures small { result < 2 ^ 63 }
    {
        let mut sum = 0;
        for call in &self.list {
            if let Act::Collected(_) = call {
                sum += 1;
            }
        }
        sum
    }

    /// The part of the ledger that counted the calls.
    pub(crate) fn into_share(self) -> Share<L>
        ensures parts { result.parts ≡ 1 }
        ensures amount { result.amount ≡ length self.list }
    {
        self.share
    }

    /// Adds the call of the book's latest entry, which the total doesn't count yet.
    pub(crate) fn count(&mut self, book: &Book, total: &mut Total<L>)
        requires behind { total.old.total + 1 ≡ length book.now.past }
        requires fits { length book.now.past ≤ self.old.limit }
        ensures total { total.new.total ≡ length book.now.past }
        ensures call { IsSomeAnd (slice_get book.now.past 0) (λ e. self.new ≡ with_call e.act self.old) }
    {
        let Some(entry) = book.latest() else {
            unreachable!()
        };
        total.audit(&mut self.share);
        total.add(&mut self.share, 1);
        self.list.push_reserved(entry.act);
    }
}
