//! A stream that was asked for.
ghost use Rattle.std.specs.Prelude.{◌≡◌, IfOk, string_bytes};

use serve_files::Reading;
use serve_watch::Presence;
use serve_words::StreamWord;
use std::alloc::{AllocError, Global};
use std::sync::atomic::{AtomicBool, AtomicU64, Ordering};

/// A stream as it was asked for: `q` units of work in every `t` moments. Any thread may close it.
#[derive(Drop)]
pub struct Order {
    /// Its number among all that were asked for.
    pub number: u64,
    /// Whether the words asked for it, and no line.
    pub is_of_words: bool,
    pub name: String,
    pub input: String,
    pub output: String,
    pub q: u64,
    pub t: u64,
    /// Whether its input is being read by a thread of its own.
    pub reading: Reading,
    /// Whether it isn't told yet what it came to.
    pub presence: Presence,
    is_closed: AtomicBool,
    /// How many of its frames were read whole, and how many images of these were written.
    frames: AtomicU64,
    images: AtomicU64,
    /// Whether a write to its output has failed.
    has_lost_output: AtomicBool,
}

impl Order {
    /// It isn't closed yet.
    pub fn new(
        alloc: Global,
        number: u64,
        word: StreamWord<'_>,
        is_of_words: bool,
    ) -> Result<Order, AllocError>
        ensures name { IfOk result (λ order. string_bytes order.name ≡ word.entry.name.now) }
        ensures input { IfOk result (λ order. string_bytes order.input ≡ word.entry.input.now) }
        ensures output { IfOk result (λ order. string_bytes order.output ≡ word.entry.output.now) }
        ensures share { IfOk result (λ order. (order.q ≡ word.entry.q) × (order.t ≡ word.entry.t)) }
        ensures number { IfOk result (λ order. order.number ≡ number) }
        ensures is_of_words { IfOk result (λ order. order.is_of_words ≡ is_of_words) }
    {
        Ok(Order {
            number,
            is_of_words,
            name: String::from_str(alloc, word.name)?,
            input: String::from_str(alloc, word.input)?,
            output: String::from_str(alloc, word.output)?,
            q: word.q,
            t: word.t,
            reading: Reading::new(alloc)?,
            presence: Presence::new(alloc)?,
            is_closed: AtomicBool::new(false),
            frames: AtomicU64::new(0),
            images: AtomicU64::new(0),
            has_lost_output: AtomicBool::new(false),
        })
    }

    /// The word that it was asked for by, without its operations.
    pub fn word(&self) -> StreamWord<'_>
        ensures input { result.input.now ≡ string_bytes self.now.input }
        ensures output { result.output.now ≡ string_bytes self.now.output }
        ensures share { (result.q ≡ self.now.q) × (result.t ≡ self.now.t) }
    {
        StreamWord {
            name: &self.name,
            input: &self.input,
            output: &self.output,
            q: self.q,
            t: self.t,
            operations: "",
        }
    }

    /// Whether no read of it is begun any more.
    pub fn is_closed(&self) -> bool {
        self.is_closed.load(Ordering::SeqCst)
    }

    /// No read of it is begun from here on. Answers whether that is new.
    pub fn close(&self) -> bool {
        let is_new = !self.is_closed.swap(true, Ordering::SeqCst);
        self.reading.call();
        is_new
    }

    /// Notes that one more frame was read.
    pub fn frame_ended(&self) {
        self.frames.fetch_add(1, Ordering::SeqCst);
    }

    /// Notes that one more image was written.
    pub fn image_ended(&self) {
        self.images.fetch_add(1, Ordering::SeqCst);
    }

    /// Whether no image is to come of the frames that were read.
    pub fn is_idle(&self) -> bool {
        self.frames.load(Ordering::SeqCst) == self.images.load(Ordering::SeqCst)
    }

    /// Whether a write to its output has failed.
    pub fn has_lost_output(&self) -> bool {
        self.has_lost_output.load(Ordering::SeqCst)
    }

    /// Notes that a write to its output has failed.
    pub fn lose_output(&self) {
        self.has_lost_output.store(true, Ordering::SeqCst);
    }
}
