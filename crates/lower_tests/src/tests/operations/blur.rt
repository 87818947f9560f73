//! The rows of a blurred plane beside the double sum.

use super::plain::{Plane, mean_of_square, scatter};
use crate::tests::same;
use filters::painter::ImagePainter;
use filters::{Blur, Op};
use frame_view::{Frame, Geometry};
use row_bands::Painter;
use std::alloc::Global;
use std::process::Abort;
use std::test::Fail;
use test_tools::frame_of;
use y4m_header::Chroma;

/// Compares the rows from `from` up to `to` of the blurred plane with the means of its squares.
fn rows_agree(rt: &impl Abort, plane: Plane<'_>, radius: u8, from: u16, to: u16, blurred: &[u8]) {
    for y in from..to {
        for x in 0..plane.width {
            let at = usize::from(y - from) * usize::from(plane.width) + usize::from(x);
            let mean = mean_of_square(plane, radius, y, x);
            same(rt, (y, x, blurred.get(at).copied()), (y, x, Some(mean)));
        }
    }
}

/// Room for two rows of 4,100 samples.
const ROOM: usize = 8200;

/// A frame of one plane.
fn frame_with(rt: &impl Abort, alloc: Global, plane: Plane<'_>) -> Result<Frame, Fail> {
    assert!(rt; 1 <= plane.width && plane.width <= 4100 && 1 <= plane.height && plane.height <= 20);
    let geometry = Geometry {
        width: u32::from(plane.width),
        height: u32::from(plane.height),
        chroma: Chroma::Mono,
    };
    Ok(frame_of(alloc, geometry, b"FRAME", plane.samples)?)
}

/// Blurs the rows from `from` up to `to` of a small plane, which a frame has alone, and compares each sample.
fn band_agrees(rt: &impl Abort, source: &Frame, plane: Plane<'_>, radius: u8, from: u16, to: u16) {
    let size = source.geometry().plane_size(0);
    let (columns, rows) = (size.columns, size.rows);
    let above = usize::from(from);
    let below = usize::from(to);
    assert_eq!(rt;
        (columns, rows),
        (usize::from(plane.width), usize::from(plane.height))
    );
    assert!(rt; above <= below && below <= rows && (below - above) * columns <= ROOM);
    assert!(rt; 1 <= radius && radius <= 8);
    let painter = ImagePainter {
        op: Op::Blur(Blur {
            radius: u32::from(radius),
        }),
        target: source.geometry(),
        source,
    };
    let mut room = [0u8; ROOM];
    let blurred = &mut room[..(below - above) * columns];
    painter.paint(0, above, below, blurred);
    rows_agree(rt, plane, radius, from, to, blurred);
}

/// Blurs a plane of the first of these samples by each radius, in bands that end at the cuts and at its end.
fn bands_agree(
    rt: &impl Abort,
    alloc: Global,
    samples: &[u8],
    width: u16,
    height: u16,
    cuts: &[u16],
) -> Result<(), Fail> {
    let size = usize::from(width) * usize::from(height);
    assert!(rt; size <= samples.len());
    let plane = Plane {
        samples: &samples[..size],
        width,
        height,
    };
    let source = frame_with(rt, alloc, plane)?;
    for radius in 1..=8u8 {
        let mut from = 0;
        for cut in cuts {
            band_agrees(rt, &source, plane, radius, from, *cut);
            from = *cut;
        }
        band_agrees(rt, &source, plane, radius, from, height);
    }
    Ok(())
}

/// Widths and heights below, at and above those of the least square and of the greatest.
const SIZES: &[u16] = &[1, 2, 3, 9, 17, 20];

/// Widths that fill vectors and leave a rest. The sums of a row of 2,033 samples take more room from one
/// radius on.
const WIDTHS: &[u16] = &[31, 33, 64, 255, 2033, 4099];

#[test]
fn each_radius_gives_the_double_sum_in_each_band(rt: HostRuntime) -> Result<(), Fail> {
    let mut samples = [0u8; ROOM];
    scatter(&mut samples);
    for width in SIZES {
        for height in SIZES {
            let (width, height) = (*width, *height);
            let cut = width.min(height) / 2;
            bands_agree(&rt, rt.alloc(), &samples, width, height, &[cut])?;
        }
    }
    for width in WIDTHS {
        bands_agree(&rt, rt.alloc(), &samples, *width, 2, &[])?;
    }
    bands_agree(&rt, rt.alloc(), &[0xFF; ROOM], 100, 3, &[2])
}
