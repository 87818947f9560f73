//! As many streams and workers as there may be.
use super::{Expected, given, holds, serves};
use crate::program::memory::{Made, Memory};
use std::alloc::{AllocError, Global};
use std::process::Abort;
use std::sync::Wait;

/// How many streams there are.
const STREAMS: u64 = 64;

/// The samples of a frame of 16 rows and columns, with chroma planes of half of them.
const SAMPLES: usize = 384;

/// A stream of two frames whose samples are all this one.
fn text_of(alloc: Global, sample: u8) -> Result<Vec<u8>, AllocError> {
    let mut text = Vec::new(alloc);
    text.extend_from_slice(b"YUV4MPEG2 W16 H16\n")?;
    for _ in 0..2 {
        text.extend_from_slice(b"FRAME\n")?;
        text.extend_from_slice(&[sample; SAMPLES])?;
    }
    Ok(text)
}

/// The names of the files that are made.
fn names(alloc: Global) -> Result<Vec<String>, AllocError> {
    let mut names = Vec::new(alloc);
    for k in 0..STREAMS {
        names.push(format!(in alloc; "{k}.out")?)?;
    }
    Ok(names)
}

/// The files that are made.
fn outputs_of<'a>(rt: &impl Abort, alloc: Global, names: &'a [String]) -> Vec<Made<'a>> {
    let mut outputs = Vec::new(alloc);
    for name in names {
        let output = Made::new(alloc, name.as_str(), 4096);
        outputs.push(output).ok().expect(rt, "was memory refused?");
    }
    outputs
}

/// Each file holds this text.
fn each_holds<R: Abort + Wait>(rt: &R, outputs: &[Made<'_>], text: &[u8]) {
    for file in outputs {
        holds(rt, file, text);
    }
}

/// The words, and what is reported.
fn words_and_report(alloc: Global) -> Result<(String, String), AllocError> {
    let mut line = String::from_str(alloc, "serve --workers 16")?;
    let mut report = String::new(alloc);
    for k in 0..STREAMS {
        let word = format!(in alloc; " s{k}:in.y4m:{k}.out:1:4:invert")?;
        line.push_str(word.as_str())?;
        let row = format!(in alloc; "s{k} accepted 2 delivered 2 charged 2 stop whole\n")?;
        report.push_str(row.as_str())?;
    }
    report.push_str("units 128\n")?;
    Ok((line, report))
}

#[test]
fn sixty_four_streams_share_sixteen_workers(rt: HostRuntime) {
    let text = text_of(rt.alloc(), 0x10).expect(&rt, "the text");
    let inverted = text_of(rt.alloc(), 0xEF).expect(&rt, "the images");
    let (line, report) = words_and_report(rt.alloc()).expect(&rt, "the words");
    let names = names(rt.alloc()).expect(&rt, "the names");
    let outputs = outputs_of(&rt, rt.alloc(), names.as_slice());
    let inputs = [given("in.y4m", text.as_slice())];
    let files = Memory::new(&rt, &inputs, outputs.as_slice());
    let expected = Expected {
        report: report.as_str(),
        errors: "",
        status: 0,
    };
    serves(&rt, rt.alloc(), line.as_str(), &files, expected);
    each_holds(&rt, outputs.as_slice(), inverted.as_slice());
}
