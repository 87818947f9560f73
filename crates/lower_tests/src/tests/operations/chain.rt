//! Chains that are made, chains that are refused, and their images.
ghost use Rattle.std.specs.Prelude.{◌≡◌, IfOk};

use crate::tests::{same, same_frame, same_list};
use filters::{Blur, Chain, Crop, FilterError, Op, StepRun, Table};
use frame_view::{Frame, Geometry};
use row_bands::BandHeight;
use std::alloc::Global;
use std::process::Abort;
use std::test::Fail;
use test_tools::{frame_of, geometry_of};
use y4m_header::Chroma;

const COLUMN: &[u8] = b"YUV4MPEG2 W1 H16384 Cmono";

const SMALL: &[u8] = b"YUV4MPEG2 W4 H2 C422";

const ODD: &[u8] = b"YUV4MPEG2 W3 H5 C444alpha";

macro_rules! crop {
    ($x:expr, $y:expr, $width:expr, $height:expr) => {
        Op::Crop(Crop {
            x: $x,
            y: $y,
            width: $width,
            height: $height,
        })
    };
}

macro_rules! blur {
    ($radius:expr) => {
        Op::Blur(Blur { radius: $radius })
    };
}

fn chain_of(alloc: Global, ops: &[Op], geometry: Geometry) -> Result<Chain, FilterError>
    ensures { IfOk result (λ chain. chain.geometry ≡ geometry) }
{
    let Some(band_height) = BandHeight::new(2) else {
        return Err(FilterError::NoMemory);
    };
    Chain::new(alloc, ops.to_vec(alloc)?, geometry, band_height)
}

/// Operations, a header line, and why they make no chain, if they make none.
type Made = (&'static [Op], &'static [u8], Option<FilterError>);

/// Makes each chain, and compares the refusal.
fn are_made(rt: &impl Abort, alloc: Global, chains: &[Made]) -> Result<(), Fail> {
    for made in chains {
        let (ops, line, fault) = *made;
        let refused = chain_of(alloc, ops, geometry_of(alloc, line)?).err();
        same(rt, (ops, line, refused), (ops, line, fault));
    }
    Ok(())
}

/// The steps and the cost of a chain.
fn totals(alloc: Global, ops: &[Op], geometry: Geometry) -> Result<(u32, u32), FilterError> {
    let chain = chain_of(alloc, ops, geometry)?;
    Ok((chain.steps(), chain.cost()))
}

/// Operations that cost the most, others that cost more, and the steps of the first.
const COSTS: &[(&[Op], &[Op], u32)] = &[
    (&[Op::HFlip; 4], &[Op::HFlip; 5], 32_768),
    (&[blur!(3)], &[blur!(4)], 8192),
];

#[test]
fn a_frame_costs_32768_units_at_most(rt: HostRuntime) -> Result<(), Fail> {
    let column = geometry_of(rt.alloc(), COLUMN)?;
    for case in COSTS {
        let (most, more, steps) = *case;
        let most = totals(rt.alloc(), most, column);
        let more = totals(rt.alloc(), more, column);
        same(&rt, most, Ok((steps, 32_768)));
        same(&rt, more, Err(FilterError::TooManySteps));
    }
    Ok(())
}

const TEN_ROWS: Geometry = Geometry {
    width: 4,
    height: 10,
    chroma: Chroma::Mono,
};

/// Compares the run of a step, and what it costs.
fn has_run(rt: &impl Abort, chain: &Chain, k: u32, count: u32, cost: u32) {
    assert!(rt; k < chain.steps());
    let got = (k, chain.run_of_step(k), chain.cost_of_step(k));
    same(rt, got, (k, StepRun { count, cost }, cost));
}

/// The steps of an operation that are left, this one among them, and what it costs.
const RUNS: &[(u32, u32)] = &[
    (5, 3),
    (4, 3),
    (3, 3),
    (2, 3),
    (1, 3),
    (2, 1),
    (1, 1),
    (2, 2),
    (1, 2),
    (2, 1),
    (1, 1),
];

#[test]
fn a_step_costs_what_its_operation_does(rt: HostRuntime) -> Result<(), Fail> {
    let ops = [blur!(2), crop!(0, 0, 2, 3), blur!(1), Op::HFlip];
    let chain = chain_of(rt.alloc(), &ops, TEN_ROWS)?;
    let got = (chain.steps(), chain.cost(), RUNS.len());
    same(&rt, got, (11, 23, 11));
    for (k, run) in (0..).zip(RUNS) {
        let (count, cost) = *run;
        has_run(&rt, &chain, k, count, cost);
    }
    Ok(())
}

const FITTING: &[Made] = &[
    (&[Op::VFlip; 8], SMALL, None),
    (&[blur!(1), blur!(8)], SMALL, None),
    (&[crop!(2, 0, 2, 2)], SMALL, None),
    (&[crop!(2, 0, 2, 2), crop!(0, 1, 2, 1)], SMALL, None),
    (&[crop!(2, 4, 1, 1)], ODD, None),
    (&[crop!(0, 0, 3, 5)], ODD, None),
    (&[crop!(1, 3, 2, 2)], ODD, None),
];

#[test]
fn chains_are_of_one_to_eight_operations_that_fit(rt: HostRuntime) -> Result<(), Fail> {
    are_made(&rt, rt.alloc(), FITTING)
}

/// Outside of a small picture.
const OUTSIDE: Op = crop!(4, 0, 2, 2);

/// A radius beyond the greatest, among operations that don't fit.
const NINE: &[Op] = &[
    OUTSIDE,
    blur!(9),
    OUTSIDE,
    OUTSIDE,
    OUTSIDE,
    OUTSIDE,
    OUTSIDE,
    OUTSIDE,
    OUTSIDE,
];

/// A crop that doesn't fit, behind operations of too many steps.
const TOO_LONG: &[Op] = &[
    Op::HFlip,
    Op::HFlip,
    Op::HFlip,
    Op::HFlip,
    Op::HFlip,
    crop!(1, 0, 1, 1),
];

const MOST: u32 = u32::MAX;

const REFUSED: &[Made] = &[
    (&[], SMALL, Some(FilterError::TooManyOps)),
    (&[Op::VFlip; 9], SMALL, Some(FilterError::TooManyOps)),
    (&[OUTSIDE; 9], SMALL, Some(FilterError::TooManyOps)),
    (&[blur!(0)], SMALL, Some(FilterError::BadOp)),
    (&[blur!(9)], SMALL, Some(FilterError::BadOp)),
    (NINE, SMALL, Some(FilterError::BadOp)),
    // A crop cuts no chroma sample, and is of the picture that reaches it.
    (&[crop!(1, 0, 2, 2)], SMALL, Some(FilterError::BadCrop)),
    (&[crop!(0, 0, 3, 2)], SMALL, Some(FilterError::BadCrop)),
    (
        &[crop!(2, 0, 2, 2), crop!(2, 0, 2, 2)],
        SMALL,
        Some(FilterError::BadCrop),
    ),
    (TOO_LONG, COLUMN, Some(FilterError::BadCrop)),
    (&[crop!(3, 0, 1, 1)], ODD, Some(FilterError::BadCrop)),
    (&[crop!(0, 5, 1, 1)], ODD, Some(FilterError::BadCrop)),
    (&[crop!(1, 0, 3, 1)], ODD, Some(FilterError::BadCrop)),
    (&[crop!(0, 2, 1, 4)], ODD, Some(FilterError::BadCrop)),
    (&[crop!(MOST, 0, 1, 1)], ODD, Some(FilterError::BadCrop)),
    (&[crop!(1, 0, MOST, 1)], ODD, Some(FilterError::BadCrop)),
    (&[crop!(0, MOST, 1, MOST)], ODD, Some(FilterError::BadCrop)),
    (&[crop!(0, 0, 0, 1)], ODD, Some(FilterError::BadCrop)),
    (&[crop!(0, 0, 1, 0)], ODD, Some(FilterError::BadCrop)),
];

/// Where several faults hold, that of a radius is told before that of the length, and this before the others.
#[test]
fn the_first_fault_of_a_chain_is_told(rt: HostRuntime) -> Result<(), Fail> {
    are_made(&rt, rt.alloc(), REFUSED)
}

/// The operation of a step, and the band that it writes.
const PLACES: &[(usize, usize)] = &[
    (0, 0),
    (0, 1),
    (0, 2),
    (0, 3),
    (0, 4),
    (1, 0),
    (1, 1),
    (2, 0),
    (2, 1),
];

#[test]
fn steps_go_by_the_height_of_each_output(rt: HostRuntime) -> Result<(), Fail> {
    let ops = [Op::Table(Table::Invert), crop!(0, 0, 2, 3), Op::VFlip];
    let chain = chain_of(rt.alloc(), &ops, TEN_ROWS)?;
    same_list(&rt, chain.ops(), &ops);
    let got = (chain.steps(), chain.geometry(), chain.has_crop());
    same(&rt, got, (9, TEN_ROWS, true));
    let out = chain.out_geometry();
    let got = (chain.band_height().rows(), out.width, out.height);
    same(&rt, got, (2, 2, 3));
    same(&rt, PLACES.len(), 9);
    for (k, place) in (0..9).zip(PLACES) {
        is_at(&rt, &chain, k, *place);
    }
    Ok(())
}

/// Compares where a step is.
fn is_at(rt: &impl Abort, chain: &Chain, k: u32, place: (usize, usize)) {
    assert!(rt; k < chain.steps());
    same(rt, (k, chain.op_of_step(k)), (k, place));
}

#[test]
fn the_geometries_between_the_operations(rt: HostRuntime) -> Result<(), Fail> {
    let small = geometry_of(rt.alloc(), SMALL)?;
    flips_have_no_crop(&rt, rt.alloc(), small)?;
    let ops = [crop!(0, 0, 4, 1), crop!(2, 0, 2, 1)];
    let chain = chain_of(rt.alloc(), &ops, small)?;
    has_geometries(&rt, &chain, small);
    Ok(())
}

/// Of a chain of two crops.
fn has_geometries(rt: &impl Abort, chain: &Chain, small: Geometry) {
    assert_eq!(rt; chain.ops().len(), 2);
    let got = (chain.op(1), chain.geometry_after(0));
    same(rt, got, (crop!(2, 0, 2, 1), small));
    let between = chain.geometry_after(1);
    let out = chain.geometry_after(2);
    let got = (between.width, between.height, out.width, out.height);
    same(rt, got, (4, 1, 2, 1));
}

fn flips_have_no_crop(rt: &impl Abort, alloc: Global, small: Geometry) -> Result<(), FilterError> {
    let flips = chain_of(alloc, &[Op::HFlip, Op::VFlip], small)?;
    same(rt, flips.has_crop(), false);
    Ok(())
}

/// Compares the image that a chain makes anew.
fn shows_anew(
    rt: &impl Abort,
    alloc: Global,
    chain: &Chain,
    source: &Frame,
    image: &[u8],
) -> Result<(), FilterError>
    requires { source.now.geometry ≡ chain.now.geometry }
{
    let made = chain.apply(alloc, source)?;
    same_frame(rt, &made, source.line(), image);
    Ok(())
}

/// Compares the image that a chain makes in the frame's own place and into canvases that are there.
fn shows_in_place(
    rt: &impl Abort,
    alloc: Global,
    chain: &Chain,
    mut source: Frame,
    image: &[u8],
) -> Result<(), FilterError>
    requires { source.geometry ≡ chain.now.geometry }
{
    let mut canvases = chain.canvases(alloc, source.line())?;
    let count = canvases.len().checked_add(chain.front());
    same(rt, count, Some(chain.ops().len()));
    chain.apply_into(&mut source, canvases.as_mut_slice());
    let held = match canvases.last() {
        Some(last) => last.frame(),
        None => &source,
    };
    same_list(rt, held.data(), image);
    Ok(())
}

/// Compares the image of a frame in both ways.
fn shows(rt: &impl Abort, alloc: Global, case: Image) -> Result<(), Fail> {
    let (ops, line, samples, image) = case;
    let geometry = geometry_of(alloc, line)?;
    let source = frame_of(alloc, geometry, b"FRAME Ip", samples)?;
    let chain = chain_of(alloc, ops, geometry)?;
    shows_anew(rt, alloc, &chain, &source, image)?;
    shows_in_place(rt, alloc, &chain, source, image)?;
    Ok(())
}

const PAIR: &[u8] = b"YUV4MPEG2 W2 H1 Cmono";

const THREE: &[u8] = b"YUV4MPEG2 W3 H1 Cmono";

const TALL: &[u8] = b"YUV4MPEG2 W2 H6 C420";

const PIXEL: &[u8] = b"YUV4MPEG2 W1 H1 C444alpha";

const SQUARE: &[u8] = b"YUV4MPEG2 W2 H2 C420";

/// Operations, the header line of a small picture, its samples, and those of its image.
type Image = (&'static [Op], &'static [u8], &'static [u8], &'static [u8]);

/// Compares the image of each picture.
fn show(rt: &impl Abort, alloc: Global, images: &[Image]) -> Result<(), Fail> {
    for image in images {
        shows(rt, alloc, *image)?;
    }
    Ok(())
}

const INVERT: Op = Op::Table(Table::Invert);

const HALF: Op = Op::Table(Table::Threshold(128));

const CLAMP: Op = Op::Table(Table::Clamp { low: 16, high: 235 });

/// Two rows of luma, and two of each chroma plane.
const LUMA_AND_CHROMA: &[u8] = &[
    0, 1, 2, 3, 4, 5, 6, 7, 0x10, 0x11, 0x12, 0x13, 0x20, 0x21, 0x22, 0x23,
];

const ONE_OPERATION: &[Image] = &[
    (&[HALF], PAIR, &[0x00, 0x80], &[0x00, 0xFF]),
    (&[CLAMP], PAIR, &[0x05, 0xFA], &[0x10, 0xEB]),
    (
        &[INVERT],
        PIXEL,
        &[0x00, 0x10, 0x20, 0x30],
        &[0xFF, 0xEF, 0xDF, 0x30],
    ),
    (
        &[HALF],
        PIXEL,
        &[0x00, 0x10, 0x20, 0x30],
        &[0x00, 0x80, 0x80, 0x30],
    ),
    (
        &[CLAMP],
        PIXEL,
        &[0x00, 0x05, 0xFA, 0x05],
        &[0x10, 0x05, 0xFA, 0x05],
    ),
    (&[Op::HFlip], PAIR, &[1, 2], &[2, 1]),
    (
        &[Op::VFlip],
        TALL,
        &[
            0, 1, 2, 3, 4, 5, 6, 7, 8, 9, 10, 11, 0x20, 0x21, 0x22, 0x30, 0x31, 0x32,
        ],
        &[
            10, 11, 8, 9, 6, 7, 4, 5, 2, 3, 0, 1, 0x22, 0x21, 0x20, 0x32, 0x31, 0x30,
        ],
    ),
    (
        &[crop!(2, 0, 2, 2)],
        SMALL,
        LUMA_AND_CHROMA,
        &[2, 3, 6, 7, 0x11, 0x13, 0x21, 0x23],
    ),
    (&[blur!(1)], THREE, &[0x00, 0x5A, 0x00], &[0x1E, 0x1E, 0x1E]),
];

#[test]
fn each_operation_on_small_pictures(rt: HostRuntime) -> Result<(), Fail> {
    show(&rt, rt.alloc(), ONE_OPERATION)
}

const LOW: &[u8] = &[1, 2, 3, 4, 0x50, 0x60];

const IN_ORDER: &[Image] = &[
    (
        &[Op::Table(Table::Threshold(3))],
        SQUARE,
        LOW,
        &[0x00, 0x00, 0xFF, 0xFF, 0x80, 0x80],
    ),
    (
        &[Op::Table(Table::Threshold(3)), Op::VFlip],
        SQUARE,
        LOW,
        &[0xFF, 0xFF, 0x00, 0x00, 0x80, 0x80],
    ),
    (
        &[crop!(2, 0, 2, 2), Op::HFlip],
        SMALL,
        LUMA_AND_CHROMA,
        &[3, 2, 7, 6, 0x11, 0x13, 0x21, 0x23],
    ),
    (
        &[Op::HFlip, crop!(2, 0, 2, 2)],
        SMALL,
        LUMA_AND_CHROMA,
        &[1, 0, 5, 4, 0x10, 0x12, 0x20, 0x22],
    ),
];

#[test]
fn operations_are_done_in_order(rt: HostRuntime) -> Result<(), Fail> {
    show(&rt, rt.alloc(), IN_ORDER)
}

/// Three pixels of four planes.
const FOUR_PLANES: &[u8] = b"YUV4MPEG2 W3 H1 C444alpha";

const PLANES: &[u8] = &[0, 90, 255, 1, 2, 3, 254, 128, 0, 7, 8, 9];

const TABLES_IN_FRONT: &[Image] = &[
    (
        &[INVERT, CLAMP],
        FOUR_PLANES,
        PLANES,
        &[235, 165, 16, 254, 253, 252, 1, 127, 255, 7, 8, 9],
    ),
    (
        &[INVERT, blur!(1)],
        FOUR_PLANES,
        PLANES,
        &[225, 140, 55, 254, 253, 252, 43, 128, 212, 7, 8, 9],
    ),
    (
        &[INVERT, Op::HFlip, CLAMP],
        FOUR_PLANES,
        PLANES,
        &[16, 165, 235, 252, 253, 254, 255, 127, 1, 9, 8, 7],
    ),
];

#[test]
fn tables_in_front_are_done_in_the_frame(rt: HostRuntime) -> Result<(), Fail> {
    show(&rt, rt.alloc(), TABLES_IN_FRONT)
}
