//! Frames that are written band by band.
use super::Copied;
use crate::tests::same_list;
use frame_view::{Frame, Geometry};
use row_bands::{BandHeight, Canvas, halves_part_the_band, paint_band, paint_halves};
use std::alloc::Global;
use std::process::Abort;
use std::test::Fail;
use std::thread::Threads;
use test_tools::{frame_of, geometry_of};
use y4m_header::Chroma;

/// A copy of the frame, band by band, each in two parts where it has a row to part at.
fn copy_by_bands(
    rt: &impl Threads,
    alloc: Global,
    source: &Frame,
    rows: u32,
) -> Result<Frame, Fail> {
    let height = BandHeight::new(rows).ok_or("no height")?;
    let painter = Copied { source };
    let mut canvas = Canvas::new(alloc, source.geometry(), height, b"FRAME")?;
    for k in 0..canvas.plan().count() {
        let mut band = canvas.band_mut(k);
        let (from, to) = band.luma_rows();
        if from + 2 <= to {
            halves_part_the_band(&band, from + 2);
            paint_halves(rt, &painter, &mut band, from + 2, &|_| {});
        } else {
            paint_band(&painter, &mut band);
        }
    }
    Ok(canvas.into_frame())
}

/// Each has as many of these as it needs.
const SAMPLES: &[u8] = &[
    1, 2, 3, 4, 5, 6, 7, 8, 9, 10, 11, 12, 13, 14, 15, 16, 17, 18, 19, 20, 21, 22, 23, 24,
];

/// Header lines of each form.
const FORMS: &[&[u8]] = &[
    b"YUV4MPEG2 W2 H6 C420",
    b"YUV4MPEG2 W2 H2 C420",
    b"YUV4MPEG2 W2 H5 C422",
    b"YUV4MPEG2 W4 H3 C411",
    b"YUV4MPEG2 W1 H7 C444",
    b"YUV4MPEG2 W2 H3 C444alpha",
    b"YUV4MPEG2 W3 H1 Cmono",
];

/// Copies a frame of this size in bands of two rows, and of four.
fn is_copied<T: Threads + Abort>(rt: &T, alloc: Global, geometry: Geometry) -> Result<(), Fail> {
    let samples = SAMPLES.get(..geometry.bytes());
    let samples = samples.ok_or("too few samples")?;
    let source = frame_of(alloc, geometry, b"FRAME", samples)?;
    for rows in [2, 4] {
        let copy = copy_by_bands(rt, alloc, &source, rows)?;
        same_list(rt, copy.data(), samples);
    }
    Ok(())
}

#[test]
fn every_form_is_written_band_by_band(rt: HostRuntime) -> Result<(), Fail> {
    for line in FORMS {
        let geometry = geometry_of(rt.alloc(), line)?;
        is_copied(&rt, rt.alloc(), geometry)?;
    }
    Ok(())
}

#[test]
fn other_rows_stay(rt: HostRuntime) -> Result<(), Fail> {
    let geometry = Geometry {
        width: 1,
        height: 5,
        chroma: Chroma::Mono,
    };
    let height = BandHeight::new(2).ok_or("no height")?;
    let frame = frame_of(rt.alloc(), geometry, b"FRAME", &[1, 2, 3, 4, 5])?;
    let mut canvas = Canvas::over(frame, height);
    assert_eq!(rt; canvas.plan().count(), 3);
    canvas.band_mut(1).rows_mut(0).fill(9);
    same_list(&rt, canvas.frame().data(), &[1, 2, 9, 9, 5]);
    let mut band = canvas.band_mut(2);
    let rows = band.rows(0);
    assert_eq!(rt; rows, (4, 5));
    band.row_mut(0, 4).fill(7);
    same_list(&rt, canvas.frame().data(), &[1, 2, 9, 9, 7]);
    Ok(())
}
