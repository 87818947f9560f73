//! An example of a program on these crates: filters the stream on standard input by the operations of its
//! first argument, and writes the images to standard output.
#![tactic(auto)]

ghost use Rattle.std.specs.Prelude.{IfOk, List, Option, ℕ};
ghost use Rattle.row_bands.specs.declared.band_height.BandHeight.{BandHeight};
ghost use Rattle.y4m_stream.specs.Filtered.{IsServed, ends_of};

use filters::{FilterError, Op, parse_ops};
use row_bands::BandHeight;
use std::alloc::Global;
use std::io::{Read, Write};
use std::process::ExitCode;
use thiserror::Error;
use y4m_stream::{FilterFault, OverRead, OverWrite, filter_stream};

/// Luma rows of a band, the part of a picture that is worked on at a time.
const ROWS: u32 = 16;

/// Why a stream wasn't filtered to its end.
#[derive(Debug, Drop, Error)]
enum Fault {
    #[error("give the operations as one argument, such as hflip+blur:2")]
    Usage,
    #[error("{0}")]
    Operations(FilterError),
    #[error("{0}")]
    Stream(FilterFault),
}

/// Filters a stream, and gives the output back. `Ok(n)` says that the whole input was a stream of n frames,
/// and that just their images were written.
fn filter<R: Read + Drop, W: Write>(
    alloc: Global,
    input: R,
    output: W,
    ops: Vec<Op>,
    height: BandHeight,
) -> (W, Result<u64, FilterFault>)
    ensures { IfOk result.1 (λ n. (left : Option (List ℕ)) × IsServed n ops.items height
        (ends_of (R.remaining input) left (W.contents output) (W.contents result.0))) }
{
    let (output, answer) = filter_stream(
        alloc,
        OverRead::new(input),
        OverWrite::new(output),
        ops,
        height,
    );
    (output.into_inner(), answer)
}

/// Filters standard input to standard output, and answers how many frames there were.
fn run(rt: &HostRuntime) -> Result<u64, Fault> {
    let words = std::env::args(rt).map_err(|_| Fault::Usage)?;
    let Some(operations) = words.skip(1).next() else {
        return Err(Fault::Usage);
    };
    let ops = parse_ops(rt.alloc(), operations.as_bytes()).map_err(Fault::Operations)?;
    let Some(height) = BandHeight::new(ROWS) else {
        return Err(Fault::Usage);
    };
    let (_, answer) = filter(
        rt.alloc(),
        rt.stdin().lock(),
        rt.stdout().lock(),
        ops,
        height,
    );
    answer.map_err(Fault::Stream)
}

fn main(rt: HostRuntime) -> ExitCode {
    match run(&rt) {
        Ok(frames) => {
            let _ = eprintln!(rt; "{frames} frames");
            ExitCode::from(0)
        }
        Err(fault) => {
            let _ = eprintln!(rt; "example_filter: {fault}");
            ExitCode::from(1)
        }
    }
}
