//! What is checked of the words before any file is opened.
ghost use Rattle.std.specs.Prelude.{◌≡◌, ◌≤◌, [], Err, None, Ok, Some, IfErr, IfOk, MatchResult};
ghost use Rattle.cbs_account.specs.Admission.{load_of};
ghost use Rattle.filters.specs.OpsText.{ops_of};
ghost use Rattle.serve_words.specs.ServeChecks.{AdmissionGives, AreSaid, ChecksGive, HasOptions, IsSaid};
ghost use Rattle.serve_words.specs.ServeChecks.{MayTell, all_told, asked_told, fault_told, is_named};
ghost use Rattle.serve_words.specs.ServeChecks.{ops_given, word_given, words_given};
ghost use Rattle.serve_words.specs.StreamWords.{words_asked};

use crate::request::ServeWords;
use crate::stream_word::{StreamWord, parse_word_beside};
use cbs_account::limits::{MOST_STREAMS, MOST_WORKERS};
use cbs_account::{Admission, AdmissionError};
use filters::{FilterError, Op, parse_ops};
use row_bands::BandHeight;
use std::alloc::{AllocFailed, Global};
use std::fmt;

/// A stream that the words ask for.
#[derive(Drop)]
pub struct Asked<'a> {
    pub word: StreamWord<'a>,
    pub ops: Vec<Op>,
}

/// What the words ask for, with the streams in their order.
#[derive(Drop)]
pub struct Checked<'a> {
    pub workers: u64,
    pub quantum: u64,
    pub journal: usize,
    pub height: BandHeight,
    pub streams: Vec<Asked<'a>>,
}

/// What is wrong with the words.
#[derive(Clone, Copy)]
pub enum WordFault<'a> {
    /// The rows of a band are odd.
    BadBand,
    /// No stream is asked for, and none may come.
    NoStreams,
    /// There are more streams than are served at once.
    TooManyStreams,
    /// This word names no stream.
    BadStream(&'a str),
    /// Two streams have this name.
    RepeatedName(&'a str),
    /// The operations of the stream of this name.
    Ops(FilterError, &'a str),
    /// The stream of this name has no bandwidth, or the streams before it leave it none.
    Admission(AdmissionError, &'a str),
    /// The file of this name stands before it, and one of the two would be lost.
    RepeatedFile(&'a str),
    /// There was no memory for them.
    NoMemory,
}

impl WordFault<'_> {
    /// The program's status after it.
    pub fn status(self) -> u8
        ensures least { 1 ≤ result }
        ensures most { result ≤ 2 }
    {
        match self {
            WordFault::Admission(..) | WordFault::NoMemory => 1,
            _ => 2,
        }
    }
}

impl fmt::Display for WordFault<'_> {
    fn fmt<W: fmt::Write>(&self, f: &mut fmt::Formatter<W>) -> fmt::Result {
        match *self {
            WordFault::BadBand => write!(f, "bad band"),
            WordFault::NoStreams => write!(f, "no streams"),
            WordFault::TooManyStreams => write!(f, "too many streams"),
            WordFault::BadStream(word) => write!(f, "bad stream {word}"),
            WordFault::RepeatedName(name) => write!(f, "repeated name {name}"),
            WordFault::Ops(error, name) => write!(f, "{error} {name}"),
            WordFault::Admission(error, name) => write!(f, "{error} {name}"),
            WordFault::RepeatedFile(name) => write!(f, "repeated file {name}"),
            WordFault::NoMemory => write!(f, "NoMemory"),
        }
    }
}

impl<'a, T: Drop> From<AllocFailed<T>> for WordFault<'a> {
    ghost from_gives = { λ _ fault. fault_told fault ≡ None };

    fn from(_error: AllocFailed<T>) -> WordFault<'a> {
        WordFault::NoMemory
    }
}

/// What the words ask for, or the first fault: of the band, of the number of streams, of a word after the
/// other, and then of the shares that the streams ask of the workers.
pub fn check<'a>(alloc: Global, words: &ServeWords<'a>) -> Result<Checked<'a>, WordFault<'a>>
    ensures passed { IfOk result (λ checked. ChecksGive words.now (Ok (all_told checked.streams.items))) }
    ensures options { IfOk result (HasOptions words.now) }
    ensures ops { IfOk result (λ checked. AreSaid checked.streams.items) }
    ensures fault { IfErr result (λ fault. MayTell fault (λ told. ChecksGive words.now (Err told))) }
{
    let Some(height) = BandHeight::new(words.band) else {
        return Err(WordFault::BadBand);
    };
    if words.streams.is_empty() && words.control.is_none() {
        return Err(WordFault::NoStreams);
    }
    if words.streams.len() > MOST_STREAMS {
        return Err(WordFault::TooManyStreams);
    }
    let is_input_taken = words.takes_input();
    let streams = all_streams(alloc, &words.streams, is_input_taken)?;
    let workers = u64::from(words.workers);
    admit_all(workers, &streams)?;
    Ok(Checked {
        workers,
        quantum: u64::from(words.quantum),
        journal: words.journal as usize,
        height,
        streams,
    })
}

/// The streams of the words, or the first fault among these.
fn all_streams<'a>(
    alloc: Global,
    words: &[&'a str],
    is_input_taken: bool,
) -> Result<Vec<Asked<'a>>, WordFault<'a>>
    ensures streams { IfOk result (λ streams.
        words_given is_input_taken [] (words_asked words.now) ≡ Ok (all_told streams.items)) }
    ensures ops { IfOk result (λ streams. AreSaid streams.items) }
    ensures fault { IfErr result
        (λ fault. MayTell fault (λ told. words_given is_input_taken [] (words_asked words.now) ≡ Err told)) }
{
    let mut streams = Vec::new(alloc);
    for word in words {
        let asked = next_stream(alloc, &streams, word, is_input_taken)?;
        streams.push(asked)?;
    }
    Ok(streams)
}

/// The stream of a word behind those before it.
fn next_stream<'a>(
    alloc: Global,
    before: &[Asked<'a>],
    text: &'a str,
    is_input_taken: bool,
) -> Result<Asked<'a>, WordFault<'a>>
    ensures stream { IfOk result
        (λ asked. word_given is_input_taken (all_told before.now) text.now ≡ Ok (asked_told asked)) }
    ensures ops { IfOk result IsSaid }
    ensures fault { IfErr result (λ fault. MayTell fault
        (λ told. word_given is_input_taken (all_told before.now) text.now ≡ Err told)) }
{
    let Some(word) = parse_word_beside(text, is_input_taken) else {
        return Err(WordFault::BadStream(text));
    };
    if has_name(before, word.name) {
        return Err(WordFault::RepeatedName(word.name));
    }
    let ops = stream_ops(alloc, word)?;
    Ok(Asked { word, ops })
}

/// The operations of a stream.
fn stream_ops<'a>(alloc: Global, word: StreamWord<'a>) -> Result<Vec<Op>, WordFault<'a>>
    ensures ops { IfOk result (λ ops. ops_of word.entry.operations.now ≡ Some ops.items) }
    ensures given { IfOk result
        (λ ops. ops_given word.entry.name.now (ops_of word.entry.operations.now) ≡ Ok ops.items) }
    ensures fault { IfErr result (λ fault.
        MayTell fault (λ told. ops_given word.entry.name.now (ops_of word.entry.operations.now) ≡ Err told)) }
{
    match parse_ops(alloc, word.operations.as_bytes()) {
        Ok(ops) => Ok(ops),
        Err(FilterError::NoMemory) => Err(WordFault::NoMemory),
        Err(error) => Err(WordFault::Ops(error, word.name)),
    }
}

/// Whether a stream has the name.
fn has_name(streams: &[Asked<'_>], name: &str) -> bool
    ensures { result ≡ is_named name.now (all_told streams.now) }
{
    for asked in streams {
        if name == asked.word.name {
            return true;
        }
    }
    false
}

/// Asks for the streams' shares of the workers, one after the other.
fn admit_all<'a>(workers: u64, streams: &[Asked<'a>]) -> Result<(), WordFault<'a>>
    requires some_workers { 1 ≤ workers }
    requires most { workers ≤ MOST_WORKERS }
    ensures { MatchResult result
        (λ _. AdmissionGives (load_of workers []) (all_told streams.now) None)
        (λ fault. MayTell fault
        (λ told. AdmissionGives (load_of workers []) (all_told streams.now) (Some told))) }
{
    let mut admission = Admission::new(workers);
    for asked in streams {
        let word = asked.word;
        if let Err(error) = admission.admit(word.q, word.t) {
            return Err(WordFault::Admission(error, word.name));
        }
    }
    Ok(())
}
