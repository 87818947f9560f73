//! The text of operations.
use crate::tests::{same, same_list};
use filters::{Blur, Crop, FilterError, Op, Table, parse_ops};
use std::alloc::Global;
use std::process::Abort;
use std::test::Fail;

const SAID: &[Op] = &[
    Op::Table(Table::Invert),
    Op::HFlip,
    Op::VFlip,
    Op::Table(Table::Threshold(128)),
    Op::Table(Table::Clamp { low: 16, high: 235 }),
    Op::Crop(Crop {
        x: 0,
        y: 10,
        width: 2,
        height: 4,
    }),
    Op::Blur(Blur { radius: 8 }),
];

#[test]
fn each_form_says_its_operation(rt: HostRuntime) -> Result<(), Fail> {
    let text = b"invert+hflip+vflip+thresh:0128+clamp:16,235+crop:0,10,000000002,4+blur:8";
    let ops = parse_ops(rt.alloc(), text)?;
    same_list(&rt, &ops, SAID);
    Ok(())
}

/// A text of operations, and how many it says.
type Text = (&'static str, Result<usize, FilterError>);

/// Reads each text, and compares how many operations it says.
fn say(rt: &impl Abort, alloc: Global, texts: &[Text]) {
    for case in texts {
        let (text, want) = *case;
        same(rt, (text, count_of(alloc, text)), (text, want));
    }
}

fn count_of(alloc: Global, text: &str) -> Result<usize, FilterError> {
    let ops = parse_ops(alloc, text.as_bytes())?;
    Ok(ops.len())
}

const BAD: &[Text] = &[
    ("thresh:256", Err(FilterError::BadOp)),
    ("clamp:9,3", Err(FilterError::BadOp)),
    ("blur:0", Err(FilterError::BadOp)),
    ("", Err(FilterError::BadOp)),
    ("blur:9", Err(FilterError::BadOp)),
    ("invert+", Err(FilterError::BadOp)),
    ("thresh", Err(FilterError::BadOp)),
    ("invert:", Err(FilterError::BadOp)),
    ("clamp:1", Err(FilterError::BadOp)),
    ("clamp:1,2,3", Err(FilterError::BadOp)),
    ("crop:1,2,3", Err(FilterError::BadOp)),
    ("thresh:0000000001", Err(FilterError::BadOp)),
    ("thresh:-1", Err(FilterError::BadOp)),
    ("Invert", Err(FilterError::BadOp)),
];

#[test]
fn other_texts_are_refused(rt: HostRuntime) {
    say(&rt, rt.alloc(), BAD);
}

const MANY: &[Text] = &[
    ("hflip+hflip+hflip+hflip+hflip+hflip+hflip+hflip", Ok(8)),
    (
        "hflip+hflip+hflip+hflip+hflip+hflip+hflip+hflip+hflip",
        Err(FilterError::TooManyOps),
    ),
    (
        "hflip+hflip+hflip+hflip+hflip+hflip+hflip+hflip+flip",
        Err(FilterError::BadOp),
    ),
];

#[test]
fn a_bad_part_is_told_of_before_too_many(rt: HostRuntime) {
    say(&rt, rt.alloc(), MANY);
}
