//! A stream that is filtered, from the input to the output.
ghost use Rattle.std.specs.Prelude.{◌≡◌, ◌≤◌, ◌⊎◌, ◌↔◌, IfOk, IsOk, List, Option, ℕ};
ghost use Rattle.std.specs.Io.KnownBytes.{Keeps};
ghost use Rattle.y4m_stream.specs.Filtered.{IsFiltered};
ghost use Rattle.serve_report.specs.Filtering.{AreAsked, FiltersAll, FiltersTo, IsFilteredBy};

use crate::bounds::{LentWatch, SentReader, SentSource};
use crate::host::Host;
use crate::lent::{LentWriter, Loan, NamedWriter};
use crate::tell::tell;
use filters::{FilterError, Op, parse_ops};
use row_bands::BandHeight;
use serve_watch::{Watch, WatchedSink, WatchedSource};
use serve_words::FilterWords;
use std::alloc::Global;
use std::fmt;
use std::io::Write;
use std::marker::Brand;
use std::thread::Threads;
use y4m_stream::{FilterFault, OverRead, OverWrite, Sink, filter_overlapped, filter_stream};

/// What is said where the input is a terminal.
const AWAITED: &str = "waiting for a stream (.y4m) on standard input; for help: filter -h";

/// The number of a stream that is alone.
const ALONE: usize = 0;

/// Why a stream is not read at all.
#[derive(Clone, Copy)]
enum WordFault {
    /// The rows of a band are odd.
    BadBand,
    /// The operations, or there was no memory for them.
    Ops(FilterError),
    /// The images would be shown as text.
    Terminal,
}

impl fmt::Display for WordFault {
    fn fmt<W: fmt::Write>(&self, f: &mut fmt::Formatter<W>) -> fmt::Result {
        match *self {
            WordFault::BadBand => write!(f, "bad band"),
            WordFault::Ops(error) => write!(f, "{error}"),
            WordFault::Terminal => write!(f, "output is a terminal"),
        }
    }
}

impl WordFault {
    fn status(self) -> u8
        ensures least { 1 ≤ result }
        ensures most { result ≤ 2 }
    {
        match self {
            WordFault::Ops(FilterError::NoMemory) => 1,
            _ => 2,
        }
    }
}

/// How a stream is filtered: what starts threads, where memory is taken, who is told of its frames, by how
/// many threads and by which operations, and the rows of a band.
#[derive(Drop)]
struct Filtering<'t, 'w, V, T> {
    rt: &'t T,
    alloc: Global,
    watch: Option<&'w V>,
    threads: u32,
    ops: Vec<Op>,
    height: BandHeight,
}

impl<'t, 'w, V: LentWatch, T: Threads> Filtering<'t, 'w, V, T> {
    /// Filters a stream by as many threads as are asked for, and gives the output back.
    #[tactic(auto, using(crate::proofs::Filtered::filtered_ahead))]
    fn filter<R: SentSource, W: Sink + Drop>(
        self,
        input: R,
        output: W,
    ) -> (W, Result<u64, FilterFault>)
        ensures filtered { IsFilteredBy self.entry.ops.items self.entry.height (R.remaining input)
            (W.contents output) (W.contents result.0) result.1 }
        ensures one_thread { self.entry.threads ≡ 1 → (left : Option (List ℕ))
            × IsFiltered result.1 self.entry.ops.items self.entry.height (record {
              input = R.remaining input;
              left = left;
              before = W.contents output;
              after = W.contents result.0;
            }) }
    {
        if self.threads == 1 {
            filter_stream(self.alloc, input, output, self.ops, self.height)
        } else {
            filter_overlapped(self.rt, self.alloc, input, output, self.ops, self.height)
        }
    }

    /// Filters a stream from a reader to a writer that is lent.
    fn filter_lent<'o, R: SentReader, W: Write, L: Loan>(
        self,
        input: R,
        output: LentWriter<'o, W>,
    ) -> (LentWriter<'o, W>, Result<u64, FilterFault>)
        requires name { output.writer.ghost_name ≡ L.name }
        ensures name { result.0.writer.ghost_name ≡ L.name }
        ensures filtered { IsFilteredBy self.entry.ops.items self.entry.height (R.remaining input)
            (W.contents output.entry.writer.now) (W.contents result.0.writer.now) result.1 }
    {
        let output: NamedWriter<'o, W, L> = NamedWriter::new(output);
        let input = WatchedSource::new(OverRead::new(input), ALONE, self.watch);
        let output = WatchedSink::new(OverWrite::new(output), ALONE, self.watch);
        let (output, filtered) = self.filter(input, output);
        (output.into_inner().into_inner().into_lent(), filtered)
    }

    /// Filters a stream from a reader to the writer itself.
    fn filter_into<R: SentReader, W: Write>(
        self,
        input: R,
        output: &mut W,
    ) -> Result<u64, FilterFault>
        ensures { IsFilteredBy self.entry.ops.items self.entry.height (R.remaining input)
            (W.contents output.old) (W.contents output.new) result }
    {
        let output = LentWriter::new(output);
        let (_, filtered) = self.filter_lent::<R, W, Brand>(input, output);
        filtered
    }
}

/// What a stream is filtered by, where its images can be written.
fn check_words<V: Watch>(
    alloc: Global,
    asked: FilterWords<'_>,
    watch: Option<&V>,
) -> Result<(Vec<Op>, BandHeight), WordFault>
    ensures { IfOk result (λ checked. AreAsked asked.entry checked.0.items checked.1) }
{
    let Some(height) = BandHeight::new(asked.band) else {
        return Err(WordFault::BadBand);
    };
    let ops = match parse_ops(alloc, asked.operations.as_bytes()) {
        Ok(ops) => ops,
        Err(error) => return Err(WordFault::Ops(error)),
    };
    if watch.is_some_and(|watch| watch.output_is_terminal()) {
        return Err(WordFault::Terminal);
    }
    Ok((ops, height))
}

/// Tells the fault of a stream that was filtered, if there is one, and answers the program's status.
fn status_of<E: Write>(errors: &mut E, filtered: Result<u64, FilterFault>) -> u8
    ensures status { result ≤ 1 }
    ensures well { (result ≡ 0) ↔ IsOk filtered }
{
    match filtered {
        Ok(_) => 0,
        Err(fault) => {
            tell(errors, &fault);
            1
        }
    }
}

impl<'t, 'f, 'w, F, V: LentWatch, T: Threads> Host<'t, 'f, 'w, F, V, T> {
    /// Filters the input as the words ask.
    pub(crate) fn run_filter<R: SentReader, W: Write, E: Write>(
        self,
        asked: FilterWords<'_>,
        input: R,
        output: &mut W,
        errors: &mut E,
    ) -> u8
        ensures status { result ≤ 2 }
        ensures untouched { result ≡ 2 → Keeps (W.contents output.old) (W.contents output.new) }
        ensures well { result ≡ 0
            → FiltersAll asked.entry (R.remaining input) (W.contents output.old) (W.contents output.new) }
        ensures fault { result ≡ 1 → Keeps (W.contents output.old) (W.contents output.new)
            ⊎ FiltersTo asked.entry (R.remaining input) (W.contents output.old) (W.contents output.new) }
    {
        let (ops, height) = match check_words(self.alloc, asked, self.watch) {
            Ok(checked) => checked,
            Err(fault) => {
                tell(errors, &fault);
                return fault.status();
            }
        };
        let watch = self.watch_of_frames(asked.is_quiet);
        if !asked.is_quiet && self.watch.is_some_and(|watch| watch.input_is_terminal()) {
            tell(errors, &AWAITED);
        } else if let Some(watch) = watch {
            watch.awaits_stream();
        }
        let filtering = Filtering {
            rt: self.rt,
            alloc: self.alloc,
            watch,
            threads: asked.threads,
            ops,
            height,
        };
        let filtered = filtering.filter_into(input, output);
        if let Some(watch) = watch {
            watch.ends();
        }
        status_of(errors, filtered)
    }
}
