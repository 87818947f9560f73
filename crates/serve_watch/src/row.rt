//! The row of a stream on a board.
ghost use Rattle.std.specs.Prelude.{◌≡◌, ◌≤◌, ◌+◌, ◌↔◌, IfOk, IsTrue, false, map, string_bytes};

use crate::due::has_passed;
use crate::presence::Presence;
use std::alloc::{AllocError, Global};
use std::fmt;

/// After how many milliseconds it is shown that a stream is waited for.
pub const PATIENCE: u64 = 1000;

/// How far a stream has come.
#[derive(Clone, Copy)]
pub struct StreamProgress<'a> {
    pub name: &'a str,
    /// Whether it is shown that its files are waited for.
    pub is_awaited: bool,
    /// The frames that were read whole.
    pub read: u64,
    /// The images that were written whole.
    pub written: u64,
}

/// At most 64 columns, where the name has at most 32 and each number at most 8 digits.
impl fmt::Display for StreamProgress<'_> {
    ghost use Rattle.std.specs.Prelude.{Some};
    ghost use Rattle.serve_watch.specs.Board.{progress_text};

    ghost output = { λ stream. Some (progress_text stream) };

    fn fmt<W: fmt::Write>(&self, f: &mut fmt::Formatter<W>) -> fmt::Result {
        let StreamProgress {
            name,
            is_awaited,
            read,
            written,
        } = *self;
        if is_awaited {
            write!(f, "waiting for {name}")
        } else {
            write!(f, "{name} frames in {read} out {written}")
        }
    }
}

/// A stream of a run, and how far it has come.
#[derive(Drop)]
pub struct Row {
    pub stream: usize,
    name: String,
    /// Whether its row stands yet. Where nothing says, it stands until the run ends.
    presence: Option<Presence>,
    /// When it began.
    since: u64,
    /// Whether its files are open, or it stopped before they were.
    pub is_open: bool,
    pub read: u64,
    pub written: u64,
}

impl Row {
    /// A stream whose files aren't open yet.
    pub fn new(
        alloc: Global,
        stream: usize,
        name: &str,
        presence: Option<Presence>,
        since: u64,
    ) -> Result<Row, AllocError>
        ensures stream { IfOk result (λ row. row.stream ≡ stream) }
        ensures name { IfOk result (λ row. string_bytes row.name ≡ name.now) }
    {
        Ok(Row {
            stream,
            name: String::from_str(alloc, name)?,
            presence,
            since,
            is_open: false,
            read: 0,
            written: 0,
        })
    }

    /// Whether its row stands yet.
    pub fn lasts(&self) -> bool {
        match &self.presence {
            Some(presence) => presence.lasts(),
            None => true,
        }
    }

    /// How far the stream has come at a time.
    pub fn progress(&self, time: u64) -> StreamProgress<'_>
        ensures name { result.name.now ≡ string_bytes self.now.name }
        ensures awaited { IsTrue result.is_awaited
            ↔ ((self.now.is_open ≡ false) × (self.now.since + PATIENCE ≤ time)) }
        ensures counts { (result.read ≡ self.now.read) × (result.written ≡ self.now.written) }
    {
        StreamProgress {
            name: &self.name,
            is_awaited: !self.is_open && has_passed(PATIENCE, Some(self.since), time),
            read: self.read,
            written: self.written,
        }
    }
}

/// Rows of streams of these names, which begin at this time, in order.
pub fn rows_of(alloc: Global, names: &[&str], since: u64) -> Result<Vec<Row>, AllocError>
    ensures { IfOk result (λ rows. map (λ row. string_bytes row.name) rows.items
        ≡ map (λ name. name.now) names.now) }
{
    let mut rows = Vec::new(alloc);
    for name in names {
        let stream = rows.len();
        rows.push(Row::new(alloc, stream, name, None, since)?)?;
    }
    Ok(rows)
}

/// How far the streams of these rows have come at a time, in order.
pub fn progress_of(
    alloc: Global,
    rows: &[Row],
    time: u64,
) -> Result<Vec<StreamProgress<'_>>, AllocError>
    ensures { IfOk result (λ streams. map (λ stream. stream.name.now) streams.items
        ≡ map (λ row. string_bytes row.name) rows.now) }
{
    let mut streams = Vec::new(alloc);
    for row in rows {
        streams.push(row.progress(time))?;
    }
    Ok(streams)
}
