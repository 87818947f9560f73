//! A stream that is to be opened.

use super::crew::Wants;
use super::order::Order;
use filters::Op;
use std::alloc::Global;
use std::sync::Arc;

/// A stream that is to be opened, with its operations.
#[derive(Drop)]
pub struct Errand {
    pub order: Arc<Order, Global>,
    pub ops: Vec<Op>,
    /// Whether a read of its input may wait. It may where nothing stands there yet.
    pub may_wait: bool,
    /// Whether its files are opened at once, since none is a FIFO.
    pub is_prompt: bool,
    /// Whether a write to its output may wait. It may where nothing stands there yet, and where its input is
    /// waited for, since another file may stand there then.
    pub output_may_wait: bool,
}

impl Errand {
    /// Whom it wants, if anybody, and where there is memory to tell.
    pub fn wants(&self) -> Option<Wants> {
        if !self.may_wait && !self.output_may_wait {
            return None;
        }
        let order = Arc::try_clone(&self.order).ok()?;
        Some(Wants {
            order,
            looker: self.may_wait,
            carrier: self.output_may_wait,
        })
    }
}

/// What comes of a line.
#[derive(Drop)]
pub enum Bidding {
    /// Nothing more.
    Done,
    /// A stream is to be opened.
    Open(Errand),
    /// No line is taken after it.
    End,
}

/// What says what is to be done, one thing after the other.
pub trait Bids {
    /// What comes next. It waits for that.
    fn next(&mut self) -> Bidding;
}
