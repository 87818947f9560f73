//! Each table on a frame of odd size with alpha.

use crate::tests::same_list;
use filters::{Table, apply_in_place};
use frame_view::Geometry;
use std::alloc::Global;
use std::process::Abort;
use std::test::Fail;
use test_tools::frame_of;
use y4m_header::Chroma;

/// 0, 90, 255 of Y, 1, 2, 3 of Cb, 254, 128, 0 of Cr and 7, 8, 9 of A.
const SAMPLES: &[u8] = &[0, 90, 255, 1, 2, 3, 254, 128, 0, 7, 8, 9];

/// What a table makes of a frame of these samples.
fn makes(rt: &impl Abort, alloc: Global, table: Table, image: &[u8]) -> Result<(), Fail> {
    let geometry = Geometry {
        width: 3,
        height: 1,
        chroma: Chroma::S444Alpha,
    };
    let mut frame = frame_of(alloc, geometry, b"FRAME Ip", SAMPLES)?;
    apply_in_place(table, &mut frame);
    same_list(rt, frame.data(), image);
    same_list(rt, frame.line(), b"FRAME Ip");
    Ok(())
}

const IMAGES: &[(Table, &[u8])] = &[
    (
        Table::Invert,
        &[255, 165, 0, 254, 253, 252, 1, 127, 255, 7, 8, 9],
    ),
    (
        Table::Threshold(90),
        &[0, 255, 255, 128, 128, 128, 128, 128, 128, 7, 8, 9],
    ),
    (
        Table::Clamp { low: 16, high: 235 },
        &[16, 90, 235, 1, 2, 3, 254, 128, 0, 7, 8, 9],
    ),
];

#[test]
fn tables_change_the_frame_and_keep_its_alpha(rt: HostRuntime) -> Result<(), Fail> {
    for case in IMAGES {
        makes(&rt, rt.alloc(), case.0, case.1)?;
    }
    Ok(())
}
