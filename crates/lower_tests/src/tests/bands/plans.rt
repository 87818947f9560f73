//! Where the bands of a frame lie, and where they are halved.
use crate::tests::same;
use frame_view::Geometry;
use row_bands::{BandHeight, BandPlan, Canvas, bands_part_the_rows};
use std::alloc::Global;
use std::test::Fail;
use test_tools::{TALL, geometry_of};

/// The rows of a band, and of the band that is made of them.
const HEIGHTS: &[(u32, Option<usize>)] = &[
    (0, None),
    (3, None),
    (130, None),
    (2, Some(2)),
    (128, Some(128)),
];

#[test]
fn heights_are_even_and_2_to_128(rt: HostRuntime) {
    for case in HEIGHTS {
        let height = BandHeight::new(case.0).map(|height| height.rows());
        same(&rt, (case.0, height), *case);
    }
}

/// A band, a plane, and the plane's rows in the band.
const ROWS: &[(usize, usize, (usize, usize))] = &[
    (0, 0, (0, 4)),
    (1, 0, (4, 6)),
    (0, 1, (0, 2)),
    (1, 1, (2, 3)),
];

#[test]
fn chroma_rows_of_a_band_are_divided(rt: HostRuntime) -> Result<(), Fail> {
    let height = BandHeight::new(4).ok_or("no height")?;
    let plan = BandPlan::new(TALL, height);
    same(&rt, plan.count(), 2);
    for case in ROWS {
        let (k, p, _) = *case;
        assert!(rt; k < plan.count() && p < plan.geometry.planes());
        same(&rt, (k, p, plan.rows(k, p)), *case);
    }
    bands_part_the_rows(TALL, height);
    Ok(())
}

/// A header line, the rows of the bands, the number of one, and the row at which that is halved.
type Halved = (&'static [u8], u32, usize, Option<usize>);

const HALVES: &[Halved] = &[
    (b"YUV4MPEG2 W2 H6 C420", 4, 0, Some(2)),
    (b"YUV4MPEG2 W2 H6 C420", 4, 1, None),
    (b"YUV4MPEG2 W1 H3 Cmono", 2, 0, Some(1)),
    (b"YUV4MPEG2 W1 H3 Cmono", 2, 1, None),
];

/// Where a canvas of this geometry halves band `k`.
fn half_of(alloc: Global, geometry: Geometry, rows: u32, k: usize) -> Result<Option<usize>, Fail> {
    let height = BandHeight::new(rows).ok_or("no height")?;
    let mut canvas = Canvas::new(alloc, geometry, height, b"FRAME")?;
    if k < canvas.plan().count() {
        Ok(canvas.band_mut(k).half())
    } else {
        Err(Fail::from("no such band"))
    }
}

#[test]
fn bands_are_halved_at_a_whole_chroma_row(rt: HostRuntime) -> Result<(), Fail> {
    for case in HALVES {
        let (line, rows, k, _) = *case;
        let geometry = geometry_of(rt.alloc(), line)?;
        let half = half_of(rt.alloc(), geometry, rows, k)?;
        same(&rt, (line, rows, k, half), *case);
    }
    Ok(())
}
