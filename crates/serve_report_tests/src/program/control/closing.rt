//! Streams that are closed.
use super::script::{AWAITED, HELD, Turn};
use super::waiting::{ASK, Later, Slow, serves_fifos, shared_answers, talks_of, waits};
use super::{Talk, text_by};
use crate::program::serving::{A, A_INVERTED};
use std::alloc::Global;
use std::process::Abort;
use std::sync::Wait;
use std::thread::Threads;
use std::time::Clock;
use test_tools::streams::{HEADER, ONE, ONE_INVERTED};

/// A stream that is closed while a byte of its next frame is awaited, which still comes, and no other. It has
/// accepted so many frames then, of so many units together.
fn closes<'f, R: Abort + Threads + Wait + Clock + Copy + Drop + Send + Sync + 'static>(
    rt: &'f R,
    alloc: Global,
    request: &'f [u8],
    before: &'f [u8],
    written: &[u8],
    frames: u64,
    units: u64,
) {
    let turns: [Turn<'f>; 3] = [
        ("", request),
        (AWAITED, b"close b\nclose a\nclose a\n"),
        ("stop closed\n", b"close a\nend\n"),
    ];
    let mut room = [0; 256];
    let answers = text_by(
        rt,
        &mut room,
        format_args!(
            "a admitted\nline 2: NoStream 'close b'\nline 4: AlreadyClosed 'close a'\n\
             a accepted {frames} delivered {frames} charged {units} stop closed\n\
             line 5: NoStream 'close a'\nunits {units}\n"
        ),
    );
    let came = [("", before), ("AlreadyClosed", b"FRAME\n1234")];
    let talk = Talk::new(&turns, answers);
    waits(rt, alloc, "", &came, Some(written), talk);
}

#[test]
fn a_stream_is_closed_within_a_frame(rt: HostRuntime) {
    closes(&rt, rt.alloc(), ASK.1, ONE, ONE_INVERTED, 1, 1);
}

#[test]
fn a_stream_is_closed_before_its_first_frame(rt: HostRuntime) {
    closes(&rt, rt.alloc(), ASK.1, HEADER, HEADER, 0, 0);
}

/// A frame of so many rows, and of one column: bands of 16 rows are 1,024.
const ROWS: usize = 16_384;

const TALL: &[u8] = b"YUV4MPEG2 W1 H16384 Cmono\nFRAME\n";

/// A worker has its frame, at which there is much to do.
#[test]
fn a_stream_is_closed_while_a_frame_is_leased(rt: HostRuntime) {
    let mut text = [0; TALL.len() + ROWS];
    text[..TALL.len()].copy_from_slice(TALL);
    let request = b"a:a.in:a.out:1:4:blur:7+blur:7+blur:7+blur:7\n";
    closes(&rt, rt.alloc(), request, &text, &text, 1, 32_768);
}

/// How a stream is read, when it is closed, what is written of it then, and what is answered.
type Closed = (
    &'static [Turn<'static>],
    &'static str,
    Option<&'static [u8]>,
    &'static str,
);

/// Streams that are silent from somewhere on.
const SILENT: &[Closed] = &[
    // Its header hasn't come.
    (
        &[("units ", b"")],
        AWAITED,
        None,
        "a accepted 0 delivered 0 charged 0 stop closed\nunits 0\n",
    ),
    (
        &[("", b"YUV4MPEG2 W2"), ("units ", b"")],
        AWAITED,
        None,
        "a accepted 0 delivered 0 charged 0 stop closed\nunits 0\n",
    ),
    // Its first frame hasn't, or not whole.
    (
        &[("", HEADER), ("units ", b"")],
        "a admitted\n",
        Some(HEADER),
        "a admitted\na accepted 0 delivered 0 charged 0 stop closed\nunits 0\n",
    ),
    (
        &[("", b"YUV4MPEG2 W2 H2 Cmono\nFRAME\n\x10"), ("units ", b"")],
        "a admitted\n",
        Some(HEADER),
        "a admitted\na accepted 0 delivered 0 charged 0 stop closed\nunits 0\n",
    ),
];

#[test]
fn a_silent_stream_is_closed_at_once(rt: HostRuntime) {
    for (read, closed, written, answers) in SILENT {
        let turns: [Turn<'_>; 2] = [ASK, (*closed, b"close a\nend\n")];
        let slow: [Slow<'_>; 1] = [("a.in", *read)];
        serves_fifos(
            &rt,
            rt.alloc(),
            &[],
            &slow,
            *written,
            Talk::new(&turns, answers),
        );
    }
}

/// Requests of streams of which a FIFO has no other end, the input's or the output's.
const OPENING: &[(&str, &[u8])] = &[
    (HELD, b"a:a.in:a.out:1:4:invert\n"),
    ("", b"a:a.in:a.to:1:4:invert\n"),
];

/// Its opener waits for the FIFO's other end, which is held open for it then.
#[test]
fn a_stream_is_closed_that_is_being_opened(rt: HostRuntime) {
    for (awaited, request) in OPENING {
        let turns: [Turn<'_>; 3] = [
            ("", *request),
            ("", b"state\n"),
            ("streams 0\n", b"close a\nend\n"),
        ];
        let answers = "a opening\nshares 250000 of 2000000\nnow streams 0\n\
                       a accepted 0 delivered 0 charged 0 stop closed\nunits 0\n";
        let talk = Talk::new(&turns, answers);
        waits(&rt, rt.alloc(), awaited, &[("", A)], None, talk);
    }
}

/// A read of it comes back when the other stream is refused it.
#[test]
fn a_fifo_stays_in_use_while_a_read_of_it_waits(rt: HostRuntime) {
    let turns: [Turn<'_>; 3] = [
        ASK,
        (AWAITED, b"close a\n"),
        ("stop closed\n", b"b:a.in:b.out:1:4:invert\nend\n"),
    ];
    let answers = "a admitted\na accepted 0 delivered 0 charged 0 stop closed\n\
                   line 3: BadFile 'b:a.in:b.out:1:4:invert'\nunits 0\n";
    let slow: [Slow<'_>; 1] = [("a.in", &[("", HEADER), ("BadFile", b"")])];
    let talk = Talk::new(&turns, answers);
    serves_fifos(&rt, rt.alloc(), &[], &slow, Some(HEADER), talk);
}

/// Requests of streams whose openers don't come back at the first close, or wait for what wasn't there
/// before, and what is said then.
const STUBBORN: &[(&[u8], &[u8], &str)] = &[
    (b"a:later:a.out:1:4:invert\n", b"close a\nend\n", ""),
    (
        b"a:stubborn:a.out:1:4:invert\n",
        b"close a\nclose a\nend\n",
        "line 3: AlreadyClosed 'close a'\n",
    ),
];

#[test]
fn an_opener_comes_back_once_its_fifo_is_held(rt: HostRuntime) {
    for (request, closes, said) in STUBBORN {
        let turns: [Turn<'_>; 2] = [("", *request), (AWAITED, *closes)];
        let mut room = [0; 128];
        let end = "a accepted 0 delivered 0 charged 0 stop closed\nunits 0\n";
        let wanted = text_by(&rt, &mut room, format_args!("{said}{end}"));
        let answers = shared_answers(&rt, rt.alloc(), usize::MAX);
        let talk = Talk {
            is_ordered: false,
            ..Talk::new(&turns, wanted)
        };
        talks_of(&rt, rt.alloc(), &answers, &[], &[], HELD, &[], talk);
    }
}

/// One gives no frame. Others come and go beside it, whose shares are free 16 moments later, and it is told
/// how all stand.
#[test]
fn a_silent_stream_holds_up_no_other(rt: HostRuntime) {
    let turns: [Turn<'_>; 6] = [
        ("", b"c:c.in:b.out:1:4:invert\n"),
        ("c admitted\n", ASK.1),
        ("a accepted 3", b"state\n"),
        ("streams 1\n", b"d:b.in:d.out:1:4:invert\n"),
        ("d accepted 0", b"close c\n"),
        ("stop closed\n", b"end\n"),
    ];
    let answers = "c admitted\na admitted\na accepted 3 delivered 3 charged 3 stop whole\n\
                   c accepted 0 finished 0 collected 0 charged 0 budget 1 deadline 0\n\
                   shares 250000 of 2000000\nnow streams 1\nd accepted 0 delivered 0 charged 0 stop create\n\
                   c accepted 0 delivered 0 charged 0 stop closed\nunits 3\n";
    let later: [Later<'_>; 2] = [("a.in", "", &[("", A)]), ("b.in", "", &[("", A)])];
    let slow: [Slow<'_>; 1] = [("c.in", &[("", HEADER), ("units ", b"")])];
    let talk = Talk {
        line: "serve --moment 1 --control -",
        ..Talk::new(&turns, answers)
    };
    serves_fifos(&rt, rt.alloc(), &later, &slow, Some(A_INVERTED), talk);
}
