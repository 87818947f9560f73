//! What is told where a growth is refused: each test passes with any one refused, and with none.
use super::{ENDS, INVERTED, STREAM, same};
use filters::{FilterError, Op, parse_ops};
use row_bands::BandHeight;
use std::alloc::Global;
use std::process::Abort;
use std::test::Fail;
use y4m_stream::{FilterFault, OverRead, OverWrite, ReadFault, filter_overlapped, filter_stream};

/// The stream was inverted, or memory was wanted behind a whole image or before the header line.
fn is_told_behind_whole_images(
    rt: &impl Abort,
    output: &[u8],
    answer: Result<u64, FilterFault>,
) -> Result<(), Fail> {
    assert!(rt; INVERTED.starts_with(output));
    let written = output.len();
    match answer {
        Ok(frames) => same(rt, (frames, written), (3, 61)),
        Err(FilterFault::Read(ReadFault::NoMemory) | FilterFault::Ops(FilterError::NoMemory)) => {
            assert!(rt;
                written == 0 || ENDS[..3].contains(&written),
                "{written} bytes"
            );
        }
        Err(fault) => return Err(fault.into()),
    }
    Ok(())
}

/// The operations, unless their memory is refused.
fn inverting(rt: &impl Abort, alloc: Global) -> Option<Vec<Op>> {
    match parse_ops(alloc, b"vflip+invert+vflip") {
        Ok(ops) => Some(ops),
        Err(fault) => {
            same(rt, fault, FilterError::NoMemory);
            None
        }
    }
}

#[test]
fn want_of_memory_is_told_behind_whole_images(rt: HostRuntime) -> Result<(), Fail> {
    let height = BandHeight::new(2).ok_or("height")?;
    let Some(ops) = inverting(&rt, rt.alloc()) else {
        return Ok(());
    };
    let mut room = [0; 64];
    let (rest, result) = filter_stream(
        rt.alloc(),
        OverRead::new(STREAM),
        OverWrite::new(room.as_mut_slice()),
        ops,
        height,
    );
    let rest = rest.into_inner();
    let written = 64 - rest.len().min(64);
    is_told_behind_whole_images(&rt, &room[..written], result)
}

#[test]
fn filter_overlapped_tells_it_behind_whole_images(rt: HostRuntime) -> Result<(), Fail> {
    let height = BandHeight::new(2).ok_or("height")?;
    let Some(ops) = inverting(&rt, rt.alloc()) else {
        return Ok(());
    };
    let mut room = [0; 64];
    let (rest, result) = filter_overlapped(
        &rt,
        rt.alloc(),
        OverRead::new(STREAM),
        OverWrite::new(room.as_mut_slice()),
        ops,
        height,
    );
    let rest = rest.into_inner();
    let written = 64 - rest.len().min(64);
    is_told_behind_whole_images(&rt, &room[..written], result)
}
