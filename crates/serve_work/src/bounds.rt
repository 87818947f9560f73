//! What a session asks of the types whose values it lends or hands to its threads.

use crate::door::Door;
use serve_client::{Clock, Gate};
use std::sync::Wait;
use std::thread::Threads;
use y4m_stream::{Sink, Source};

/// A source that goes to another thread.
pub(crate) trait SentSource: Source + Drop + Send {}

impl<R: Source + Drop + Send> SentSource for R {}

/// A sink that goes to another thread.
pub(crate) trait SentSink: Sink + Drop + Send {}

impl<W: Sink + Drop + Send> SentSink for W {}

/// A gate that is lent to workers.
pub(crate) trait LentGate: Gate + Sync {}

impl<G: Gate + Sync> LentGate for G {}

/// A clock that is lent to clients.
pub(crate) trait LentClock: Clock + Sync {}

impl<K: Clock + Sync> LentClock for K {}

/// A door that is lent to a thread that watches it.
pub(crate) trait LentDoor<R: Source, W: Sink>: Door<R, W> + Sync {}

impl<R: Source, W: Sink, D: Door<R, W> + Sync> LentDoor<R, W> for D {}

/// What starts threads and waits, and is lent to them.
pub(crate) trait Host: Threads + Wait + Sync {}

impl<T: Threads + Wait + Sync> Host for T {}
