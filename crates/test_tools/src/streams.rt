//! Streams of two by two samples, and what `invert` makes of them: each sample v becomes 255 - v.
use std::alloc::{AllocError, Global};

/// The header line: 22 bytes with its line feed.
pub const HEADER: &[u8] = b"YUV4MPEG2 W2 H2 Cmono\n";

/// One frame of ten bytes, and its image.
pub const ONE: &[u8] = b"YUV4MPEG2 W2 H2 Cmono\nFRAME\n\x00\x01\xfe\xff";

pub const ONE_INVERTED: &[u8] = b"YUV4MPEG2 W2 H2 Cmono\nFRAME\n\xff\xfe\x01\x00";

/// Two frames, and the same without the last byte.
pub const TWO: &[u8] = b"YUV4MPEG2 W2 H2 Cmono\nFRAME\n\x00\x01\xfe\xffFRAME\n\x10\x20\x30\x40";

pub const CUT: &[u8] = b"YUV4MPEG2 W2 H2 Cmono\nFRAME\n\x00\x01\xfe\xffFRAME\n\x10\x20\x30";

/// Three frames, and their images. The last one's samples look like text.
pub const THREE: &[u8] =
    b"YUV4MPEG2 W2 H2 Cmono\nFRAME\n\x00\x01\xfe\xffFRAME\n\x10\x20\x30\x40FRAME\nFRAM";

pub const THREE_INVERTED: &[u8] =
    b"YUV4MPEG2 W2 H2 Cmono\nFRAME\n\xff\xfe\x01\x00FRAME\n\xef\xdf\xcf\xbfFRAME\n\xb9\xad\xbe\xb2";

/// Frames of six samples, where the header says four.
pub const WIDER: &[u8] =
    b"YUV4MPEG2 W2 H2 Cmono\nFRAME\n\x00\x01\xfe\xff\x02\x03FRAME\n\x10\x20\x30\x40\x50\x60";

/// So many frames, whose samples count on from 0, and their images, each behind the header line.
pub fn numbered(alloc: Global, count: u8) -> Result<(Vec<u8>, Vec<u8>), AllocError> {
    let mut frames = HEADER.to_vec(alloc)?;
    let mut images = HEADER.to_vec(alloc)?;
    for n in 0..count {
        frames.extend_from_slice(b"FRAME\n")?;
        images.extend_from_slice(b"FRAME\n")?;
        for place in 0..4u8 {
            let sample = n.wrapping_mul(4).wrapping_add(place);
            frames.push(sample)?;
            images.push(255 - sample)?;
        }
    }
    Ok((frames, images))
}
