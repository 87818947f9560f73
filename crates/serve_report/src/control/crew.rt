//! The threads that read and write for streams that are to be opened.

use super::order::Order;
use serve_files::{Carrier, Looker};
use std::alloc::Global;
use std::io::{Read, Write};
use std::sync::{Arc, Mutex, Wait};
use std::thread::Threads;

/// Whom a stream wants that is to be opened.
#[derive(Drop)]
pub struct Wants {
    pub order: Arc<Order, Global>,
    /// Whether a read of its input may wait.
    pub looker: bool,
    /// Whether a write to its output may wait.
    pub carrier: bool,
}

/// Who was there for a stream.
#[derive(Drop)]
pub struct Helpers<S: Read + Drop, W: Write + Drop, T: Wait + Drop> {
    pub looker: Option<Looker<S, T>>,
    pub carrier: Option<Carrier<W, T>>,
}

/// Who was started for a stream, and waits for it.
#[derive(Drop)]
struct Idle<H: Drop> {
    order: Arc<Order, Global>,
    helper: H,
}

/// Those who were started and haven't been taken.
#[derive(Drop)]
struct AllIdle<H: Drop> {
    idle: Vec<Idle<H>>,
}

impl<H: Drop> AllIdle<H> {
    /// Keeps one for a stream, where there is memory. Those of streams that are closed are let go.
    fn keep(&mut self, order: &Arc<Order, Global>, helper: H) {
        self.idle.retain(|idle| !idle.order.is_closed());
        if let Ok(order) = Arc::try_clone(order) {
            let _ = self.idle.push(Idle { order, helper }).is_ok();
        }
    }

    /// The one that was started for the stream of this number.
    fn take(&mut self, number: u64) -> Option<H> {
        let place = self
            .idle
            .iter()
            .position(|idle| idle.order.number == number)?;
        let Idle { helper, .. } = self.idle.swap_remove(place);
        Some(helper)
    }
}

/// The lookers and carriers that were started and haven't been taken.
#[derive(Drop)]
pub struct Crew<S: Read + Drop, W: Write + Drop, T: Wait + Drop> {
    lookers: Mutex<AllIdle<Looker<S, T>>>,
    carriers: Mutex<AllIdle<Carrier<W, T>>>,
}

impl<S: Read + Drop, W: Write + Drop, T: Wait + Drop> Crew<S, W, T> {
    /// None was started yet.
    pub fn new(alloc: Global) -> Crew<S, W, T> {
        Crew {
            lookers: Mutex::new(AllIdle {
                idle: Vec::new(alloc),
            }),
            carriers: Mutex::new(AllIdle {
                idle: Vec::new(alloc),
            }),
        }
    }

    /// Starts those whom a stream wants, where there are threads and memory for them.
    pub fn start(&self, rt: &T, alloc: Global, wants: &Wants)
    where
        S: Send + 'static,
        W: Send + 'static,
        T: Threads + Copy + Send + 'static,
    {
        if wants.looker {
            let reading = wants.order.reading.for_another();
            if let Some(looker) = Looker::start(rt, alloc, reading) {
                self.lookers.lock(rt).keep(&wants.order, looker);
            }
        }
        if wants.carrier {
            if let Some(carrier) = Carrier::start(rt, alloc) {
                self.carriers.lock(rt).keep(&wants.order, carrier);
            }
        }
    }

    /// Those who were started for the stream of this number.
    pub fn take(&self, rt: &T, number: u64) -> Helpers<S, W, T> {
        Helpers {
            looker: self.lookers.lock(rt).take(number),
            carrier: self.carriers.lock(rt).take(number),
        }
    }
}
