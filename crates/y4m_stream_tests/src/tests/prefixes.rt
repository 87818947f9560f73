//! The first bytes of a stream give the images of its frames that are whole in them.
use super::devices::DEVICE;
use super::{Pieces, STREAM, answer_of_part, filter_into, same, same_part};
use std::alloc::Global;
use std::process::Abort;
use std::test::Fail;
use y4m_stream::{FilterFault, ReadFault};

/// Inverts the first `len` bytes, read in such pieces. A reader that never answers the end fails there.
fn invert_prefix(
    rt: &impl Abort,
    alloc: Global,
    len: usize,
    step: usize,
    ends: usize,
) -> Result<(), Fail> {
    let left = STREAM.get(..len).ok_or("prefix")?;
    let input = Pieces { left, step, ends };
    let mut room = [0; 64];
    let got = filter_into(alloc, "invert", input, &mut room)?;
    let want = if ends == 0 {
        DEVICE
    } else {
        answer_of_part(len)
    };
    same_part(rt, len, &room, got, want);
    Ok(())
}

/// Inverts each prefix, read in such pieces.
fn invert_prefixes(rt: &impl Abort, alloc: Global, step: usize, ends: usize) -> Result<(), Fail> {
    for len in 0..62 {
        invert_prefix(rt, alloc, len, step, ends)?;
    }
    Ok(())
}

/// How many bytes a read gives at most.
const STEPS: &[usize] = &[1, 7, 4096];

#[test]
fn each_prefix_gives_its_whole_frames(rt: HostRuntime) -> Result<(), Fail> {
    for step in STEPS {
        invert_prefixes(&rt, rt.alloc(), *step, usize::MAX)?;
    }
    Ok(())
}

#[test]
fn a_failed_read_keeps_the_images_before_it(rt: HostRuntime) -> Result<(), Fail> {
    for step in STEPS {
        invert_prefixes(&rt, rt.alloc(), *step, 0)?;
    }
    Ok(())
}

#[test]
fn each_prefix_of_a_stream_of_three_planes(rt: HostRuntime) -> Result<(), Fail> {
    let text = b"YUV4MPEG2 W2 H2\nFRAME\n\x01\x02\x03\x04\x50\x60".as_slice();
    let image = b"YUV4MPEG2 W2 H2\nFRAME\n\xfe\xfd\xfc\xfb\xaf\x9f".as_slice();
    same(&rt, text.len(), 28);
    for len in 0..29 {
        let input = text.get(..len).ok_or("prefix")?;
        let mut room = [0; 64];
        let (written, result) = filter_into(rt.alloc(), "invert", input, &mut room)?;
        let cut = Err(FilterFault::Read(ReadFault::Truncated));
        let (end, expected) = match len {
            0..=15 => (0, cut),
            16 => (16, Ok(0)),
            17..=27 => (16, cut),
            _ => (28, Ok(1)),
        };
        let got = (len, result, room.get(..written));
        same(&rt, got, (len, expected, image.get(..end)));
    }
    Ok(())
}
