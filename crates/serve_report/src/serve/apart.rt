//! Whether the files of a run are told apart.
ghost use Rattle.std.specs.Prelude.{◌≡◌, ◌↔◌, AllPairs, Any, IfOk, IsFalse, IsTrue, MatchOption};
ghost use Rattle.std.specs.Prelude.{MatchResult, None, Some};
ghost use Rattle.serve_report.specs.Apart.{AreErrorsApart, AreUses, Clash, FilesGive, IsApart};
ghost use Rattle.serve_report.specs.Apart.{IsFirstClash};
ghost use Rattle.serve_report.specs.Apart.{IsTraceApart};
ghost use Rattle.serve_words.specs.ServeChecks.{MayTell, all_told};

use serve_files::{Files, Place};
use serve_words::{Asked, WordFault};
use std::alloc::{AllocError, Global};

/// Where the report goes.
const REPORT: &str = "/dev/stdout";

/// Where faults are told.
const ERRORS: &str = "/dev/stderr";

/// A file as a run uses it.
#[derive(Clone, Copy)]
pub struct FileUse<'a> {
    pub name: &'a str,
    pub place: Place,
    /// It is written, and else read.
    pub is_written: bool,
}

impl<'a> FileUse<'a> {
    /// A file that is read.
    pub fn input(name: &'a str, place: Place) -> FileUse<'a>
        ensures name { result.name ≡ name.entry }
        ensures place { result.place ≡ place }
        ensures read { IsFalse result.is_written }
    {
        FileUse {
            name,
            place,
            is_written: false,
        }
    }

    /// A file that is written.
    pub fn output(name: &'a str, place: Place) -> FileUse<'a>
        ensures name { result.name ≡ name.entry }
        ensures place { result.place ≡ place }
        ensures written { IsTrue result.is_written }
    {
        FileUse {
            name,
            place,
            is_written: true,
        }
    }

    /// Whether one of the two would lose what the other reads or writes.
    pub fn clashes_with(&self, other: &FileUse<'_>) -> bool
        ensures { IsTrue result ↔ Clash self.now other.now }
    {
        let is_written = self.is_written || other.is_written;
        match (self.place, other.place) {
            (Place::File(one), Place::File(other)) => one == other && is_written,
            (Place::Pipe(one), Place::Pipe(other)) => one == other,
            (Place::Missing, _) | (_, Place::Missing) => self.name == other.name && is_written,
            _ => false,
        }
    }
}

/// Refuses the first file that clashes with one before it, and else the first of a stream to which faults go.
pub fn tell_files_apart<'a, F: Files>(
    alloc: Global,
    files: &F,
    streams: &[Asked<'a>],
) -> Result<(), WordFault<'a>>
    ensures apart { IfOk result (λ _. FilesGive F.place_gives (all_told streams.now) None) }
    ensures errors { IfOk result (λ _. AreErrorsApart F.place_gives (all_told streams.now)) }
{
    tell_apart(alloc, files, streams)?;
    tell_errors_apart(alloc, files, streams)
}

/// Refuses the first file that clashes with one before it: the report's is the first, and each stream's input
/// comes before its output. No file is opened to see that.
fn tell_apart<'a, F: Files>(
    alloc: Global,
    files: &F,
    streams: &[Asked<'a>],
) -> Result<(), WordFault<'a>>
    ensures { MatchResult result (λ _. FilesGive F.place_gives (all_told streams.now) None)
        (λ fault. MayTell fault (λ told. FilesGive F.place_gives (all_told streams.now) (Some told))) }
{
    let Ok(uses) = uses_of(alloc, files, streams) else {
        return Err(WordFault::NoMemory);
    };
    match first_clash(&uses) {
        None => Ok(()),
        Some(file) => Err(WordFault::RepeatedFile(file.name)),
    }
}

/// Refuses the first file of a stream that is the one to which faults go. That may be the report's.
fn tell_errors_apart<'a, F: Files>(
    alloc: Global,
    files: &F,
    streams: &[Asked<'a>],
) -> Result<(), WordFault<'a>>
    ensures { IfOk result (λ _. AreErrorsApart F.place_gives (all_told streams.now)) }
{
    let Ok(uses) = uses_of(alloc, files, streams) else {
        return Err(WordFault::NoMemory);
    };
    let errors = use_of(files, ERRORS, true);
    let asked = &uses[1..];
    if has_clash(asked, &errors) {
        return Err(WordFault::RepeatedFile(first_with(asked, &errors)));
    }
    Ok(())
}

/// The name of the first file that clashes with this one; this one's, where none does.
fn first_with<'a>(uses: &[FileUse<'a>], file: &FileUse<'a>) -> &'a str {
    for one in uses {
        if one.clashes_with(file) {
            return one.name;
        }
    }
    file.name
}

/// The file to which faults go.
pub fn errors_of<F: Files>(files: &F) -> FileUse<'static> {
    use_of(files, ERRORS, true)
}

/// Refuses the first file of a stream that is the one from which a control's lines come, and else that one,
/// where faults go to it.
pub fn tell_control_apart<'a, F: Files>(
    files: &F,
    lines: &'a str,
    streams: &[Asked<'a>],
) -> Result<(), WordFault<'a>> {
    let lines = use_of(files, lines, true);
    for asked in streams {
        for name in [asked.word.input, asked.word.output] {
            if lines.clashes_with(&use_of(files, name, true)) {
                return Err(WordFault::RepeatedFile(name));
            }
        }
    }
    if lines.clashes_with(&errors_of(files)) {
        return Err(WordFault::RepeatedFile(lines.name));
    }
    Ok(())
}

/// Refuses the file of a trace that is the report's, or one of a stream, or where faults go: it is written.
pub fn tell_trace_apart<'a, F: Files>(
    alloc: Global,
    files: &F,
    trace: &'a str,
    streams: &[Asked<'a>],
) -> Result<(), WordFault<'a>>
    ensures apart { IfOk result (λ _. IsTraceApart F.place_gives (all_told streams.now) trace.now) }
{
    let Ok(uses) = uses_of(alloc, files, streams) else {
        return Err(WordFault::NoMemory);
    };
    if errors_of(files).clashes_with(&use_of(files, trace, true)) {
        return Err(WordFault::RepeatedFile(trace));
    }
    if has_clash(&uses, &use_of(files, trace, true)) {
        return Err(WordFault::RepeatedFile(trace));
    }
    Ok(())
}

/// The files of the report and of the streams, in order.
fn uses_of<'a, F: Files>(
    alloc: Global,
    files: &F,
    streams: &[Asked<'a>],
) -> Result<Vec<FileUse<'a>>, AllocError>
    ensures { IfOk result (λ uses. AreUses F.place_gives (all_told streams.now) uses.items) }
{
    let mut uses = Vec::new(alloc);
    uses.push(use_of(files, REPORT, true))?;
    for asked in streams {
        uses.push(use_of(files, asked.word.input, false))?;
        uses.push(use_of(files, asked.word.output, true))?;
    }
    Ok(uses)
}

fn use_of<'a, F: Files>(files: &F, name: &'a str, is_written: bool) -> FileUse<'a>
    ensures name { result.name ≡ name.entry }
    ensures place { F.place_gives name.now result.place }
    ensures written { result.is_written ≡ is_written }
{
    let place = files.place(name);
    FileUse {
        name,
        place,
        is_written,
    }
}

/// The first file that clashes with one before it.
fn first_clash<'a>(uses: &[FileUse<'a>]) -> Option<FileUse<'a>>
    ensures { MatchOption result (AllPairs IsApart uses.now) (IsFirstClash uses.now) }
{
    for (i, file) in uses.iter().enumerate() {
        if has_clash(&uses[..i], file) {
            return Some(*file);
        }
    }
    None
}

/// Whether the file clashes with one of those before it.
fn has_clash(before: &[FileUse<'_>], file: &FileUse<'_>) -> bool
    ensures { IsTrue result ↔ Any (λ one. Clash one file.now) before.now }
{
    before.iter().any(|one| one.clashes_with(file))
}
