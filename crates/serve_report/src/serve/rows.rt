//! The report of a run: a line for each stream, and one for all.
ghost use Rattle.std.specs.Prelude.{◌≡◌, ◌≤◌, [], OnOk, length, vec_capacity, vec_items};
ghost use Rattle.std.specs.Io.KnownBytes.{Appends};
ghost use Rattle.std.specs.List.{list_all};
ghost use Rattle.std.specs.Option.{option_map};
ghost use Rattle.serve_report.specs.Entrants.{units_in, is_whole, is_whole_stop, next_given};
ghost use Rattle.serve_report.specs.Entrants.{report_text, row_told, rows_given, rows_text, served_row};
ghost use Rattle.serve_script.specs.ScriptReport.{line_text};
ghost use Rattle.serve_report.specs.ServeReport.{row_text};

use super::opening::Entrant;
use super::report::{StreamRow, StreamStop};
use serve_work::Served;
use std::io::{self, Write};
use y4m_stream::{Sink, Source};

/// What is reported of each stream, in order, where some took part in a session that left these. None where
/// these are too few. There is room for the rows, so that no memory is taken.
pub fn rows_of<'a, R: Source, W: Sink>(
    rows: Vec<StreamRow<'a>>,
    entrants: &[Entrant<'a>],
    left: &[Served<R, W>],
) -> Option<Vec<StreamRow<'a>>>
    requires none { rows.items ≡ [] }
    requires room { length entrants.now ≤ vec_capacity rows }
    ensures { option_map vec_items result ≡ rows_given served_row entrants.now left.now }
{
    let mut rows = rows;
    let mut left = left;
    for entrant in entrants {
        let (row, later) = next_row(*entrant, left)?;
        rows.push_reserved(row);
        left = later;
    }
    Some(rows)
}

/// What is reported of a stream, and what the session left of those after it.
fn next_row<'a, 's, R: Source, W: Sink>(
    entrant: Entrant<'a>,
    left: &'s [Served<R, W>],
) -> Option<(StreamRow<'a>, &'s [Served<R, W>])>
    ensures { option_map row_told result ≡ next_given served_row entrant.entry left.now }
{
    let name = entrant.name;
    let Some(stop) = entrant.stop else {
        let (served, later) = left.split_first()?;
        return Some((served_row(name, served), later));
    };
    let row = StreamRow {
        name,
        accepted: 0,
        delivered: 0,
        charged: 0,
        stop,
    };
    Some((row, left))
}

/// What is reported of a stream that took part in the session.
fn served_row<'a, R: Source, W: Sink>(name: &'a str, served: &Served<R, W>) -> StreamRow<'a>
    ensures { result ≡ served_row name.entry served.now }
{
    StreamRow {
        name,
        accepted: served.accepted,
        delivered: served.delivered,
        charged: served.charged,
        stop: StreamStop::from(served.stop),
    }
}

/// Whether each stream is whole.
pub fn are_whole(rows: &[StreamRow<'_>]) -> bool
    ensures { result ≡ list_all is_whole rows.now }
{
    rows.iter().all(|row| is_whole(row.stop))
}

fn is_whole(stop: StreamStop) -> bool
    ensures { result ≡ is_whole_stop stop }
{
    matches!(stop, StreamStop::Whole)
}

/// The units that were done for all streams. A number of 64 bits stays at its last value.
fn units_in(rows: &[StreamRow<'_>]) -> u64
    ensures { result ≡ units_in rows.now }
{
    let mut units = 0u64;
    for row in rows {
        units = units.saturating_add(row.charged);
    }
    units
}

/// Writes the report.
pub fn write_report<W: Write>(output: &mut W, rows: &[StreamRow<'_>]) -> io::Result<()>
    ensures { OnOk result (Appends (W.contents output.old) (W.contents output.new) (report_text rows.now)) }
{
    write_rows(output, rows)?;
    let units = units_in(rows);
    writeln!(output, "units {units}")
}

/// Writes a line for each stream.
fn write_rows<W: Write>(output: &mut W, rows: &[StreamRow<'_>]) -> io::Result<()>
    ensures { OnOk result (Appends (W.contents output.old) (W.contents output.new) (rows_text rows.now)) }
{
    for row in rows {
        write_row(output, row)?;
    }
    Ok(())
}

/// Writes the line of a stream.
fn write_row<W: Write>(output: &mut W, row: &StreamRow<'_>) -> io::Result<()>
    ensures { OnOk result
        (Appends (W.contents output.old) (W.contents output.new) (line_text (row_text row.now))) }
{
    writeln!(output, "{row}")
}
