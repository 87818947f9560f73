//! Lines of the manual page's grammar, with what they are.
ghost use Rattle.std.specs.Prelude.{◌≡◌};

use crate::tests::same;
use std::alloc::Global;
use std::process::Abort;
use std::test::Fail;
use y4m_header::text::is_name;
use y4m_header::{Chroma, Header, HeaderError, check_frame_line};

/// The columns, the rows and the form of a picture.
type Size = (u32, u32, Chroma);

/// A header line, and what it says.
type Line = (&'static str, Result<Size, HeaderError>);

fn size_of(header: &Header) -> Size
    ensures width { result.0 ≡ header.now.width }
    ensures height { result.1 ≡ header.now.height }
    ensures form { result.2 ≡ header.now.chroma }
{
    (header.width(), header.height(), header.chroma())
}

/// What a header line says.
fn size_said(alloc: Global, line: &[u8]) -> Result<Size, HeaderError> {
    let header = Header::parse(alloc, line)?;
    Ok(size_of(&header))
}

/// Reads each line, and compares what it says.
fn say(rt: &impl Abort, alloc: Global, lines: &[Line]) {
    for line in lines {
        let (line, want) = *line;
        same(rt, (line, size_said(alloc, line.as_bytes())), (line, want));
    }
}

const REFUSED: &[Line] = &[
    ("YUV4MPEG2W2 H2", Err(HeaderError::NotY4m)),
    ("YUV4MPEG W2 H2 Cmono", Err(HeaderError::NotY4m)),
    ("YUV4MPEG2 W2 H2 Cmono\n", Err(HeaderError::NotY4m)),
    ("YUV4MPEG2 W0 H2", Err(HeaderError::BadNumber)),
    ("YUV4MPEG2 W H2", Err(HeaderError::BadNumber)),
    ("YUV4MPEG2 W2 H0000000001", Err(HeaderError::BadNumber)),
    ("YUV4MPEG2 W2 W2x H2", Err(HeaderError::BadNumber)),
    ("YUV4MPEG2 W2 W2 H2", Err(HeaderError::RepeatedTag)),
    ("YUV4MPEG2 W2 W2", Err(HeaderError::RepeatedTag)),
    ("YUV4MPEG2 W2 H2 Cmono Cmono", Err(HeaderError::RepeatedTag)),
    ("YUV4MPEG2", Err(HeaderError::MissingSize)),
    ("YUV4MPEG2 W2 C420p10", Err(HeaderError::MissingSize)),
    ("YUV4MPEG2 W2 H2 C420p10", Err(HeaderError::UnknownChroma)),
    ("YUV4MPEG2 W16385 H1 C", Err(HeaderError::UnknownChroma)),
    ("YUV4MPEG2 W2 H2 C", Err(HeaderError::UnknownChroma)),
    ("YUV4MPEG2 W3 H2 C420", Err(HeaderError::NotDivisible)),
    ("YUV4MPEG2 W16385 H1", Err(HeaderError::NotDivisible)),
    ("YUV4MPEG2 W16385 H1 Cmono", Err(HeaderError::TooLarge)),
    (
        "YUV4MPEG2 W999999999 H999999999 Cmono",
        Err(HeaderError::TooLarge),
    ),
];

#[test]
fn each_refusal_is_the_first_that_holds(rt: HostRuntime) {
    say(&rt, rt.alloc(), REFUSED);
}

#[test]
fn leading_zeros_and_unread_tags_are_kept(rt: HostRuntime) -> Result<(), Fail> {
    let line = b"YUV4MPEG2 H3  W002 F25:1 Ip A1:1 Cmono XA=b Q".as_slice();
    let header = Header::parse(rt.alloc(), line)?;
    let got = (size_of(&header), header.line());
    same(&rt, got, ((2, 3, Chroma::Mono), line));
    Ok(())
}

const FORMS: &[Line] = &[
    ("YUV4MPEG2 W2 H2", Ok((2, 2, Chroma::S420))),
    ("YUV4MPEG2 W2 H2 C420", Ok((2, 2, Chroma::S420))),
    (
        "YUV4MPEG2 W2 H2 F25:1 Ip A1:1 C420jpeg XYSCSS=420JPEG",
        Ok((2, 2, Chroma::S420)),
    ),
    ("YUV4MPEG2 W2 H2 C420mpeg2", Ok((2, 2, Chroma::S420))),
    ("YUV4MPEG2 W2 H2 C420paldv", Ok((2, 2, Chroma::S420))),
    ("YUV4MPEG2 W2 H1 C422", Ok((2, 1, Chroma::S422))),
    ("YUV4MPEG2 W4 H1 C411", Ok((4, 1, Chroma::S411))),
    ("YUV4MPEG2 W3 H2 C444", Ok((3, 2, Chroma::S444))),
    ("YUV4MPEG2 W1 H1 C444alpha", Ok((1, 1, Chroma::S444Alpha))),
    ("YUV4MPEG2 W1 H1 Cmono", Ok((1, 1, Chroma::Mono))),
];

#[test]
fn each_value_of_c_names_its_form(rt: HostRuntime) {
    say(&rt, rt.alloc(), FORMS);
}

const LARGEST: &[Line] = &[
    (
        "YUV4MPEG2 W16384 H4096 Cmono",
        Ok((16384, 4096, Chroma::Mono)),
    ),
    ("YUV4MPEG2 W16384 H4097 Cmono", Err(HeaderError::TooLarge)),
];

#[test]
fn the_largest_picture_is_16384_by_4096(rt: HostRuntime) {
    say(&rt, rt.alloc(), LARGEST);
}

/// A header line of 23 bytes and this many more, in a tag X.
fn padded(alloc: Global, more: usize) -> Result<Vec<u8>, Fail> {
    let mut line = Vec::from_slice(alloc, b"YUV4MPEG2 W2 H2 Cmono X")?;
    let pad = vec![in alloc; b'a'; more]?;
    line.extend_from_slice(pad.as_slice())?;
    Ok(line)
}

/// How many bytes the line has, and whether it is a header line.
const LENGTHS: &[(usize, usize, Result<Size, HeaderError>)] = &[
    (1000, 1023, Ok((2, 2, Chroma::Mono))),
    (1001, 1024, Err(HeaderError::NotY4m)),
];

#[test]
fn a_line_has_1024_bytes_with_its_feed(rt: HostRuntime) -> Result<(), Fail> {
    for case in LENGTHS {
        let (more, len, want) = *case;
        let line = padded(rt.alloc(), more)?;
        same(&rt, (line.len(), size_said(rt.alloc(), &line)), (len, want));
    }
    Ok(())
}

/// A header line and its size, and the line for pictures of two columns and a row of the same form.
type Resized = (&'static [u8], Size, &'static [u8]);

const RESIZED: &[Resized] = &[
    (
        b"YUV4MPEG2 W002 H1 Cmono",
        (2, 1, Chroma::Mono),
        b"YUV4MPEG2 W2 H1 Cmono",
    ),
    (
        b"YUV4MPEG2 XW=H  H2 F25:1 W4 C422",
        (4, 2, Chroma::S422),
        b"YUV4MPEG2 XW=H  H1 F25:1 W2 C422",
    ),
];

/// The header of frames of two columns and a row.
fn two_by_one(alloc: Global, header: &Header) -> Result<Header, Fail> {
    let (width, height, form) = size_of(header);
    match form {
        Chroma::Mono | Chroma::S422 if width >= 2 && height >= 1 => {
            Ok(header.resized(alloc, 2, 1)?)
        }
        _ => Err("its size doesn't fit".into()),
    }
}

#[test]
fn resized_replaces_width_and_height_in_place(rt: HostRuntime) -> Result<(), Fail> {
    for case in RESIZED {
        let (line, size, resized) = *case;
        let header = Header::parse(rt.alloc(), line)?;
        let half = two_by_one(rt.alloc(), &header)?;
        let got = (size_of(&header), size_of(&half), half.line());
        same(&rt, got, (size, (2, 1, size.2), resized));
    }
    Ok(())
}

const FRAME_LINES: &[(&str, bool)] = &[
    ("FRAME", true),
    ("FRAME Ip", true),
    ("FRAMES", false),
    ("frame", false),
    ("FRAME\n", false),
];

#[test]
fn a_frame_line_begins_with_the_word(rt: HostRuntime) {
    for case in FRAME_LINES {
        let is_line = check_frame_line(case.0.as_bytes()).is_ok();
        same(&rt, (case.0, is_line), *case);
    }
}

const NAMES: &[(HeaderError, &str)] = &[
    (HeaderError::NotY4m, "NotY4m"),
    (HeaderError::BadNumber, "BadNumber"),
    (HeaderError::RepeatedTag, "RepeatedTag"),
    (HeaderError::MissingSize, "MissingSize"),
    (HeaderError::UnknownChroma, "UnknownChroma"),
    (HeaderError::NotDivisible, "NotDivisible"),
    (HeaderError::TooLarge, "TooLarge"),
    (HeaderError::NoMemory, "NoMemory"),
    (HeaderError::NotFrame, "NotFrame"),
];

#[test]
fn an_error_is_printed_as_its_name(rt: HostRuntime) -> Result<(), Fail> {
    for case in NAMES {
        let text = format!(in rt.alloc(); "{}", case.0)?;
        same(&rt, (case.0, text.as_str()), *case);
    }
    Ok(())
}

/// A text, and whether it is a stream's name.
const STREAM_NAMES: &[(&str, bool)] = &[
    ("a", true),
    ("Z", true),
    ("0", true),
    ("_", true),
    ("-", true),
    ("camera_2-left", true),
    ("abcdefghijklmnopqrstuvwxyz_-0123", true),
    ("abcdefghijklmnopqrstuvwxyz_-01234", false),
    ("", false),
    ("é", false),
    ("a b", false),
    ("a:b", false),
    ("../a", false),
    ("a\n", false),
];

#[test]
fn a_name_has_1_to_32_letters_digits_and_dashes(rt: HostRuntime) {
    for case in STREAM_NAMES {
        let (text, want) = *case;
        same(&rt, (text, is_name(text.as_bytes())), (text, want));
    }
}
