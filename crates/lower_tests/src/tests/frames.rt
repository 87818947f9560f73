//! Frames of given sizes, with the bytes that the manual page's order of planes and rows gives.
ghost use Rattle.std.specs.Prelude.{◌≡◌, ◌≤◌, ◌-◌, ◌*◌, ◌++◌};
ghost use Rattle.std.specs.Prelude.{length, take, drop, replicate};
ghost use Rattle.frame_view.specs.Frame.{samples_of};
ghost use Rattle.frame_view.specs.LentTogether.{lent_len};

use crate::tests::{same, same_frame, same_list};
use frame_view::{
    Frame, Geometry, PlaneMut, PlaneSize, lend_planes, lent_planes_stand_in_their_rows,
    lent_rows_leave_the_others, rows_part_the_bytes, split_rows,
};
use std::alloc::Global;
use std::process::Abort;
use std::test::Fail;
use test_tools::{PIXEL, TALL, frame_of};
use y4m_header::{Chroma, Header, check_frame_line};

/// Luma 0 to 11, then Cb 32 to 34, then Cr 48 to 50.
const SAMPLES: &[u8] = &[0, 1, 2, 3, 4, 5, 6, 7, 8, 9, 10, 11, 32, 33, 34, 48, 49, 50];

/// A header line, the columns and rows of Y and those of Cb, the planes, and the bytes of a frame.
type SizesSaid = (&'static [u8], (usize, usize), (usize, usize), usize, usize);

const SIZES: &[SizesSaid] = &[
    (b"YUV4MPEG2 W2 H2", (2, 2), (1, 1), 3, 6),
    (b"YUV4MPEG2 W2 H1 C422", (2, 1), (1, 1), 3, 4),
    (b"YUV4MPEG2 W4 H1 C411", (4, 1), (1, 1), 3, 6),
    (b"YUV4MPEG2 W1 H1 C444", (1, 1), (1, 1), 3, 3),
    (b"YUV4MPEG2 W1 H1 C444alpha", (1, 1), (1, 1), 4, 4),
    (b"YUV4MPEG2 W1 H1 Cmono", (1, 1), (0, 0), 1, 1),
    (b"YUV4MPEG2 W66 H22 C420paldv", (66, 22), (33, 11), 3, 2178),
    (b"YUV4MPEG2 W62 H5 C422", (62, 5), (31, 5), 3, 620),
    (b"YUV4MPEG2 W132 H9 C411", (132, 9), (33, 9), 3, 1782),
    (b"YUV4MPEG2 W3 H2 C444", (3, 2), (3, 2), 3, 18),
    (b"YUV4MPEG2 W35 H13 C444alpha", (35, 13), (35, 13), 4, 1820),
    (b"YUV4MPEG2 W4099 H3 Cmono", (4099, 3), (0, 0), 1, 12_297),
    (
        b"YUV4MPEG2 W8192 H2048 C444alpha",
        (8192, 2048),
        (8192, 2048),
        4,
        67_108_864,
    ),
];

/// Compares the size of each plane.
fn has_planes(rt: &impl Abort, geometry: Geometry, luma: (usize, usize), chroma: (usize, usize)) {
    for p in 0..geometry.planes() {
        let (columns, rows) = if p == 1 || p == 2 { chroma } else { luma };
        let size = PlaneSize { columns, rows };
        same(rt, (p, geometry.plane_size(p)), (p, size));
    }
}

#[test]
fn a_header_line_says_the_sizes_of_planes_and_frames(rt: HostRuntime) -> Result<(), Fail> {
    for case in SIZES {
        let (line, luma, chroma, planes, bytes) = *case;
        let geometry = Geometry::of(&Header::parse(rt.alloc(), line)?);
        let got = (line, geometry.planes(), geometry.bytes());
        same(&rt, got, (line, planes, bytes));
        has_planes(&rt, geometry, luma, chroma);
    }
    Ok(())
}

/// A plane, a row of it, the row behind the last, and the samples from the first to there.
type Rows = (usize, usize, usize, &'static [u8]);

const ROWS: &[Rows] = &[
    (0, 5, 6, &[10, 11]),
    (1, 0, 1, &[32]),
    (2, 1, 3, &[49, 50]),
    (2, 2, 3, &[50]),
    (0, 1, 3, &[2, 3, 4, 5]),
];

/// Compares rows of a frame, and of its plane.
fn shows_rows(rt: &impl Abort, frame: &Frame, rows: Rows) {
    let (p, from, to, samples) = rows;
    assert!(rt; p < frame.geometry().planes());
    assert!(rt; from < to && to <= frame.geometry().plane_size(p).rows);
    let got = (frame.rows(p, from, to), frame.plane(p).rows(from, to));
    same(rt, (rows, got), (rows, (samples, samples)));
    if to - from == 1 {
        let got = (frame.row(p, from), frame.plane(p).row(from));
        same(rt, (rows, got), (rows, (samples, samples)));
    }
}

#[test]
fn rows_of_a_plane_are_slices_of_the_data(rt: HostRuntime) -> Result<(), Fail> {
    let frame = frame_of(rt.alloc(), TALL, b"FRAME Ip", SAMPLES)?;
    has_planes(&rt, frame.geometry(), (2, 6), (1, 3));
    for rows in ROWS {
        shows_rows(&rt, &frame, *rows);
    }
    same_frame(&rt, &frame, b"FRAME Ip", SAMPLES);
    Ok(())
}

/// One less than a frame has.
const TOO_FEW: &[u8] = &[0, 1, 2, 3, 4, 5, 6, 7, 8, 9, 10, 11, 32, 33, 34, 48, 49];

#[test]
fn data_of_another_length_comes_back(rt: HostRuntime) -> Result<(), Fail> {
    let line = b"FRAME".to_vec(rt.alloc())?;
    match Frame::new(TALL, line, TOO_FEW.to_vec(rt.alloc())?) {
        Ok(_) => Err("accepted".into()),
        Err(wrong) => {
            same_list(&rt, &wrong.line, b"FRAME");
            same_list(&rt, &wrong.samples, TOO_FEW);
            let said = format!(in rt.alloc(); "{wrong}")?;
            same(&rt, said.as_str(), "WrongLength");
            Ok(())
        }
    }
}

/// A row of Cr becomes 7, the last two of luma 9, and the first sample of Cb 5.
#[tactic(auto, unfolding(frame_view::specs::Places::plane_width, frame_view::specs::Places::plane_height))]
fn write_lent(frame: &mut Frame)
    requires width { frame.old.geometry.width ≡ 2 }
    requires height { frame.old.geometry.height ≡ 6 }
    requires chroma { frame.old.geometry.chroma ≡ Chroma.S420 }
{
    frame.row_mut(2, 1).fill(7);
    frame.rows_mut(0, 4, 6).fill(9);
    frame.data_mut()[12] = 5;
}

/// A frame takes a line, and takes it again.
fn takes_line(rt: &impl Abort, alloc: Global, mut frame: Frame) -> Result<(), Fail> {
    let tagged = b"FRAME XA=b".as_slice();
    check_frame_line(tagged)?;
    frame.set_line(alloc, tagged)?;
    frame.set_line(alloc, tagged)?;
    let (line, samples) = frame.into_parts();
    same(rt, (line.as_slice(), samples.len()), (tagged, 18));
    Ok(())
}

#[test]
fn lent_rows_and_lines_are_written(rt: HostRuntime) -> Result<(), Fail> {
    let mut frame = Frame::blank(rt.alloc(), TALL, b"FRAME")?;
    same_list(&rt, frame.data(), &[0; 18]);
    has_planes(&rt, frame.geometry(), (2, 6), (1, 3));
    write_lent(&mut frame);
    let written = [0, 0, 0, 0, 0, 0, 0, 0, 9, 9, 9, 9, 5, 0, 0, 0, 7, 0];
    same_list(&rt, frame.data(), &written);
    takes_line(&rt, rt.alloc(), frame)
}

/// One of the planes is written; the others stay.
fn fill_cr(frame: &mut Frame, value: u8)
    ensures { let g = frame.old.geometry in
        let from_cb = drop (lent_len g 0) (samples_of frame.old) in
        let from_cr = drop (lent_len g 1) from_cb in
        samples_of frame.new ≡ take (lent_len g 0) (samples_of frame.old)
        ++ (take (lent_len g 1) from_cb ++ (replicate (lent_len g 2) value ++ drop (lent_len g 2) from_cr)) }
{
    lend_planes!(&mut *frame => _luma, _cb, cr, _alpha);
    cr.samples.fill(value);
}

/// The rows of a plane, lent in two parts.
fn fill_parts(samples: &mut [u8], columns: usize, y: usize, above: u8, below: u8)
    requires { y * columns ≤ length samples.old }
    ensures { samples.new
        ≡ replicate (y * columns) above ++ replicate (length samples.old - y * columns) below }
{
    let (top, bottom) = split_rows(samples, columns, y);
    bottom.fill(below);
    top.fill(above);
}

/// Two samples become 7, and two 8.
fn fill_pairs(rt: &impl Abort, samples: &mut [u8]) {
    assert_eq!(rt; samples.len(), 4);
    fill_parts(samples, 2, 1, 7, 8);
}

/// The last row of luma becomes 1, and the second one 5 and 6.
fn write_luma(rt: &impl Abort, luma: PlaneMut<'_>) {
    let columns = luma.columns;
    assert_eq!(rt; (columns, luma.samples.len()), (2, 12));
    let (top, bottom) = split_rows(luma.samples, columns, 5);
    bottom.fill(1);
    PlaneMut::over(columns, top).put_row(1, &[5, 6]);
}

#[test]
fn planes_lent_at_once_are_written_in_any_order(rt: HostRuntime) -> Result<(), Fail> {
    let mut frame = Frame::blank(rt.alloc(), TALL, b"FRAME")?;
    lend_planes!(&mut frame => luma, cb, cr, alpha);
    cr.samples.fill(3);
    alpha.samples.fill(4);
    write_luma(&rt, luma);
    cb.samples.fill(2);
    let written = [0, 0, 5, 6, 0, 0, 0, 0, 0, 0, 1, 1, 2, 2, 2, 3, 3, 3];
    same_list(&rt, frame.data(), &written);
    Ok(())
}

#[test]
fn absent_planes_are_not_filled(rt: HostRuntime) -> Result<(), Fail> {
    let mut frame = frame_of(rt.alloc(), TALL, b"FRAME Ip", SAMPLES)?;
    frame.fill([16, 128, 129, 255]);
    let filled = [
        16, 16, 16, 16, 16, 16, 16, 16, 16, 16, 16, 16, 128, 128, 128, 129, 129, 129,
    ];
    same_frame(&rt, &frame, b"FRAME Ip", &filled);
    Ok(())
}

#[test]
fn four_planes_of_one_pixel(rt: HostRuntime) -> Result<(), Fail> {
    let mut frame = frame_of(rt.alloc(), PIXEL, b"FRAME", &[0; 4])?;
    frame.fill([1, 2, 3, 4]);
    same_list(&rt, frame.data(), &[1, 2, 3, 4]);
    fill_cr(&mut frame, 5);
    same_list(&rt, frame.data(), &[1, 2, 5, 4]);
    fill_pairs(&rt, frame.data_mut());
    same_list(&rt, frame.data(), &[7, 7, 8, 8]);
    follow_the_laws(&frame);
    Ok(())
}

/// What holds for all frames holds for this one.
fn follow_the_laws(frame: &Frame) {
    rows_part_the_bytes(frame.geometry());
    lent_planes_stand_in_their_rows(frame.geometry());
    lent_rows_leave_the_others(frame);
}

/// A plane, a row of it, and the samples that are put there.
type Put = (usize, usize, &'static [u8]);

/// Puts rows into a frame of this size, whose samples are 9, and compares it.
fn puts(
    rt: &impl Abort,
    alloc: Global,
    geometry: Geometry,
    rows: &[Put],
    written: &[u8],
) -> Result<(), Fail> {
    let blank = vec![in alloc; 9; written.len()]?;
    let mut frame = frame_of(alloc, geometry, b"FRAME", &blank)?;
    for put in rows {
        put_row(rt, &mut frame, *put);
    }
    same_list(rt, frame.data(), written);
    Ok(())
}

/// Puts a row into a plane that has it.
fn put_row(rt: &impl Abort, frame: &mut Frame, put: Put) {
    let (p, y, row) = put;
    let geometry = frame.geometry();
    assert!(rt; p < geometry.planes());
    let size = geometry.plane_size(p);
    assert!(rt; y < size.rows && row.len() == size.columns);
    frame.put_row(p, y, row);
}

#[test]
fn rows_are_put_into_planes_of_divided_columns(rt: HostRuntime) -> Result<(), Fail> {
    let geometry = Geometry {
        width: 6,
        height: 4,
        chroma: Chroma::S420,
    };
    let written = [
        9, 9, 9, 9, 9, 9, 9, 9, 9, 9, 9, 9, 9, 9, 9, 9, 9, 9, 9, 9, 9, 9, 9, 9, 9, 9, 9, 1, 2, 3,
        4, 5, 6, 9, 9, 9,
    ];
    let rows: &[Put] = &[(1, 1, &[1, 2, 3]), (2, 0, &[4, 5, 6])];
    puts(&rt, rt.alloc(), geometry, rows, &written)
}

#[test]
fn rows_are_put_into_full_planes(rt: HostRuntime) -> Result<(), Fail> {
    let geometry = Geometry {
        width: 2,
        height: 2,
        chroma: Chroma::S444Alpha,
    };
    let written = [7, 8, 9, 9, 9, 9, 1, 2, 3, 4, 9, 9, 9, 9, 5, 6];
    let rows: &[Put] = &[
        (0, 0, &[7, 8]),
        (1, 1, &[1, 2]),
        (2, 0, &[3, 4]),
        (3, 1, &[5, 6]),
    ];
    puts(&rt, rt.alloc(), geometry, rows, &written)
}
