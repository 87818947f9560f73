//! Each operation on frames of every form, a band at a time, beside its plain formula.

ghost use Rattle.std.specs.Prelude.{◌≡◌};

use super::plain::{Rows, pixels_of, rows_of_image, scatter, size_of_image};
use crate::tests::same;
use filters::{Blur, Chain, Crop, FilterError, Op, Table, apply_band, apply_in_place};
use frame_view::{Frame, Geometry};
use row_bands::{BandHeight, Canvas};
use std::alloc::{AllocError, Global};
use std::process::Abort;
use std::test::Fail;
use test_tools::{frame_of, geometry_of};

/// Writes band `k` alone into a blank canvas of the chain's one operation.
fn band_by_itself(
    rt: &impl Abort,
    alloc: Global,
    chain: &Chain,
    source: &Frame,
    k: usize,
) -> Result<Frame, AllocError>
    requires { source.now.geometry ≡ chain.now.geometry }
{
    assert_eq!(rt; chain.ops().len(), 1);
    let output = chain.geometry_after(1);
    let mut canvas = Canvas::new(alloc, output, chain.band_height(), source.line())?;
    assert!(rt; k < canvas.plan().count());
    let mut band = canvas.band_mut(k);
    apply_band(chain.op(0), source, &mut band);
    Ok(canvas.into_frame())
}

/// Compares band `k`, written alone, with what is wanted of its rows of luma and what goes with them.
fn band_agrees(
    rt: &impl Abort,
    alloc: Global,
    chain: &Chain,
    source: &Frame,
    k: usize,
    wanted: &[u8],
) -> Result<(), AllocError>
    requires { source.now.geometry ≡ chain.now.geometry }
{
    let band = band_by_itself(rt, alloc, chain, source, k)?;
    let place = (chain.geometry(), k);
    same(
        rt,
        (place, chain.ops(), band.data() == wanted),
        (place, chain.ops(), true),
    );
    Ok(())
}

/// Compares what a table makes of a frame in its own memory.
fn frame_agrees(rt: &impl Abort, alloc: Global, table: Table, source: &Frame) -> Result<(), Fail> {
    let geometry = source.geometry();
    let to = size_of_image(Op::Table(table), geometry).1;
    let wanted = rows_of_image(alloc, Op::Table(table), source, Rows { from: 0, to })?;
    let mut frame = frame_of(alloc, geometry, b"FRAME", source.data())?;
    apply_in_place(table, &mut frame);
    let is_wanted = frame.data() == wanted.as_slice();
    same(rt, (table, geometry, is_wanted), (table, geometry, true));
    Ok(())
}

/// Takes the samples of a band from those of an image that has them too.
fn take_out(image: &mut Frame, band: &[u8]) {
    for (sample, of_band) in image.data_mut().iter_mut().zip(band.iter()) {
        *sample ^= *of_band;
    }
}

/// Compares each band of the image of a frame, and then the image, which is all bands together.
fn bands_agree(
    rt: &impl Abort,
    alloc: Global,
    chain: &Chain,
    op: Op,
    source: &Frame,
) -> Result<(), FilterError>
    requires { source.now.geometry ≡ chain.now.geometry }
{
    let (_, height) = size_of_image(op, source.geometry());
    let mut image = chain.apply(alloc, source)?;
    for k in 0..height.div_ceil(4) {
        let from = k.wrapping_mul(4);
        let to = from.saturating_add(4).min(height);
        let wanted = rows_of_image(alloc, op, source, Rows { from, to })?;
        band_agrees(rt, alloc, chain, source, usize::from(k), &wanted)?;
        take_out(&mut image, &wanted);
    }
    let is_all = image.data().iter().all(|left| *left == 0);
    let place = (op, source.geometry());
    same(rt, (place, is_all), (place, true));
    Ok(())
}

/// Compares the image of a frame by an operation, and what a table makes of the frame in its own memory.
fn image_agrees(rt: &impl Abort, alloc: Global, op: Op, source: &Frame) -> Result<(), Fail> {
    let bands = BandHeight::new(4).ok_or("no height")?;
    let chain = Chain::new(alloc, [op].to_vec(alloc)?, source.geometry(), bands)?;
    bands_agree(rt, alloc, &chain, op, source)?;
    match op {
        Op::Table(table) => frame_agrees(rt, alloc, table, source),
        _ => Ok(()),
    }
}

/// All but three samples at the left of a chroma row, two at its right, and a row above and below.
fn inner(geometry: Geometry) -> Op {
    let (across, down) = pixels_of(geometry.chroma, 1);
    let (across, down) = (u32::from(across), u32::from(down));
    Op::Crop(Crop {
        x: 3 * across,
        y: down,
        width: geometry.width.saturating_sub(5 * across),
        height: geometry.height.saturating_sub(2 * down),
    })
}

const OPS: &[Op] = &[
    Op::Table(Table::Invert),
    Op::Table(Table::Threshold(100)),
    Op::Table(Table::Clamp { low: 16, high: 235 }),
    Op::HFlip,
    Op::VFlip,
];

/// Compares the images of a frame by all operations, with blurs of these radii.
fn all_agree(rt: &impl Abort, alloc: Global, source: &Frame, radii: &[u32]) -> Result<(), Fail> {
    for op in OPS {
        image_agrees(rt, alloc, *op, source)?;
    }
    image_agrees(rt, alloc, inner(source.geometry()), source)?;
    for radius in radii {
        image_agrees(rt, alloc, Op::Blur(Blur { radius: *radius }), source)?;
    }
    Ok(())
}

/// Compares those of frames of each form.
fn images_agree(
    rt: &impl Abort,
    alloc: Global,
    forms: &[&[u8]],
    radii: &[u32],
) -> Result<(), Fail> {
    for line in forms {
        let geometry = geometry_of(alloc, line)?;
        let mut source = Frame::blank(alloc, geometry, b"FRAME")?;
        scatter(source.data_mut());
        all_agree(rt, alloc, &source, radii)?;
    }
    Ok(())
}

/// Header lines of each form.
const SMALL: &[&[u8]] = &[
    b"YUV4MPEG2 W66 H22 C420",
    b"YUV4MPEG2 W62 H5 C422",
    b"YUV4MPEG2 W132 H9 C411",
    b"YUV4MPEG2 W35 H13 C444",
    b"YUV4MPEG2 W35 H13 C444alpha",
    b"YUV4MPEG2 W31 H20 Cmono",
];

#[test]
fn each_band_is_that_of_the_formula(rt: HostRuntime) -> Result<(), Fail> {
    images_agree(&rt, rt.alloc(), SMALL, &[1, 2, 3, 4, 5, 6, 7, 8])
}

/// Rows that are many times as long as a vector, and leave a rest.
const LONG: &[&[u8]] = &[
    b"YUV4MPEG2 W510 H6 C420",
    b"YUV4MPEG2 W2046 H5 C422",
    b"YUV4MPEG2 W4100 H5 C411",
    b"YUV4MPEG2 W1000 H5 C444",
    b"YUV4MPEG2 W255 H5 C444alpha",
    b"YUV4MPEG2 W4099 H5 Cmono",
];

#[test]
fn each_band_of_long_rows_is_that_of_the_formula(rt: HostRuntime) -> Result<(), Fail> {
    images_agree(&rt, rt.alloc(), LONG, &[1, 5])
}
