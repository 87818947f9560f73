//! Scripts of whole sessions.
use crate::accounts::{Case, expect_each, expect_lines};
use crate::compare::{same, same_at};
use serve_script::{ReplayFault, replay};
use std::alloc::{AllocError, Global};
use std::process::Abort;
use std::str;
use std::test::Fail;
use y4m_stream::{OverRead, OverWrite};

/// A stream from its first frame until it is drained.
const DRAINED: Case<'_> = (
    "stream a 1 4 1 4 invert YUV4MPEG2 W1 H1 Cmono\n\
     start\n\
     arrive a 00\n\
     arrive a 01\n\
     close a\n\
     arrive a 01\n\
     close a\n\
     lease 0\n\
     collect a\n\
     band 0\n\
     settle 0\n\
     collect a\n\
     collect a\n",
    "stream 0\n\
     started\n\
     accepted 0\n\
     refused 5 Full\n\
     closing\n\
     refused 2 Closed\n\
     refused 14 AlreadyClosed\n\
     leased a 0 grant 1\n\
     refused 15 Empty\n\
     stepped\n\
     finished 0\n\
     image FF\n\
     refused 16 Drained\n",
    true,
);

const SCRIPTS: &[Case<'_>] = &[
    // An arrival behind another leaves the account.
    (
        "stream a 2 10 4 4 invert YUV4MPEG2 W1 H1 Cmono\n\
         start\n\
         arrive a 00\n\
         tick 7\n\
         arrive a 01\n\
         state a\n",
        "stream 0\n\
         started\n\
         accepted 0\n\
         ticked\n\
         accepted 1\n\
         budget 2 deadline 10 accepted 2 finished 0 collected 0 charged 0\n",
        true,
    ),
    // The earliest deadline is leased.
    (
        "workers 2\n\
         stream a 2 10 4 4 invert YUV4MPEG2 W1 H1 Cmono\n\
         stream b 1 4 4 4 invert YUV4MPEG2 W1 H1 Cmono\n\
         start\n\
         arrive a 00\n\
         arrive b 00\n\
         lease 0\n\
         lease 1\n\
         lease 0\n\
         lease 2\n\
         band 1\n\
         band 1\n\
         settle 1\n\
         settle 1\n\
         state a\n",
        "ok\n\
         stream 0\n\
         stream 1\n\
         started\n\
         accepted 0\n\
         accepted 0\n\
         leased b 0 grant 1\n\
         leased a 0 grant 1\n\
         refused 8 Busy\n\
         refused 7 NoWorker\n\
         stepped\n\
         refused 11 GrantSpent\n\
         finished 0\n\
         refused 10 NoLease\n\
         budget 1 deadline 10 accepted 1 finished 1 collected 0 charged 1\n",
        true,
    ),
    // Equal deadlines are leased by number.
    (
        "workers 3\n\
         stream a 1 4 4 4 invert YUV4MPEG2 W1 H1 Cmono\n\
         stream b 1 4 4 4 invert YUV4MPEG2 W1 H1 Cmono\n\
         start\n\
         arrive a 00\n\
         arrive b 00\n\
         lease 0\n\
         lease 1\n\
         lease 2\n",
        "ok\n\
         stream 0\n\
         stream 1\n\
         started\n\
         accepted 0\n\
         accepted 0\n\
         leased a 0 grant 1\n\
         leased b 0 grant 1\n\
         refused 9 NoneReady\n",
        true,
    ),
    // A full outbox keeps a stream from leases.
    (
        "stream a 2 10 4 1 invert YUV4MPEG2 W1 H1 Cmono\n\
         start\n\
         arrive a 00\n\
         arrive a 01\n\
         lease 0\n\
         band 0\n\
         settle 0\n\
         lease 0\n\
         collect a\n\
         lease 0\n",
        "stream 0\n\
         started\n\
         accepted 0\n\
         accepted 1\n\
         leased a 0 grant 1\n\
         stepped\n\
         finished 0\n\
         refused 9 NoneReady\n\
         image FF\n\
         leased a 1 grant 1\n",
        true,
    ),
    // A closed stream is drained.
    DRAINED,
    // A frame is leased in parts.
    (
        "quantum 4\n\
         band 2\n\
         stream a 2 10 4 4 invert YUV4MPEG2 W1 H10 Cmono\n\
         start\n\
         arrive a 00010203040506070809\n\
         lease 0\n\
         band 0\n\
         band 0\n\
         band 0\n\
         settle 0\n\
         lease 0\n\
         state a\n\
         settle 0\n\
         lease 0\n",
        "ok\n\
         ok\n\
         stream 0\n\
         started\n\
         accepted 0\n\
         leased a 0 grant 2\n\
         stepped\n\
         stepped\n\
         refused 11 GrantSpent\n\
         returned\n\
         leased a 0 grant 2\n\
         budget 2 deadline 20 accepted 1 finished 0 collected 0 charged 2\n\
         returned\n\
         leased a 0 grant 2\n",
        true,
    ),
    // The clock has an end and never goes back.
    (
        "stream a 1 4 4 4 invert YUV4MPEG2 W1 H1 Cmono\n\
         start\n\
         tick 1152921504606846976\n\
         tick 1152921504606846977\n\
         tick 5\n",
        "stream 0\nstarted\nticked\nrefused 13 ClockEnd\nrefused 12 Past\n",
        true,
    ),
    // Frames are counted and measured.
    (
        "frames 1\n\
         stream a 1 4 4 4 invert YUV4MPEG2 W2 H1 Cmono\n\
         start\n\
         arrive a 00\n\
         arrive a 0001\n\
         arrive a 0001\n\
         arrive z 00\n",
        "ok\n\
         stream 0\n\
         started\n\
         refused 3 WrongSize\n\
         accepted 0\n\
         refused 4 TooManyFrames\n\
         refused 1 NoStream\n",
        true,
    ),
    // A band of a blur costs its radius more.
    (
        "quantum 4\n\
         band 2\n\
         stream a 3 10 4 4 blur:1 YUV4MPEG2 W1 H10 Cmono\n\
         start\n\
         arrive a 00010203040506070809\n\
         lease 0\n\
         band 0\n\
         settle 0\n\
         state a\n\
         lease 0\n\
         band 0\n\
         state a\n",
        "ok\n\
         ok\n\
         stream 0\n\
         started\n\
         accepted 0\n\
         leased a 0 grant 1\n\
         stepped\n\
         returned\n\
         budget 1 deadline 10 accepted 1 finished 0 collected 0 charged 2\n\
         leased a 0 grant 1\n\
         stepped\n\
         budget 2 deadline 20 accepted 1 finished 0 collected 0 charged 4\n",
        true,
    ),
    (
        "stream a 1 4 4 4 blur:8 YUV4MPEG2 W1 H1 Cmono\n\
         start\n\
         arrive a 5A\n\
         lease 0\n\
         band 0\n\
         state a\n\
         settle 0\n\
         collect a\n",
        "stream 0\n\
         started\n\
         accepted 0\n\
         leased a 0 grant 1\n\
         stepped\n\
         budget 1 deadline 40 accepted 1 finished 0 collected 0 charged 9\n\
         finished 0\n\
         image 5A\n",
        true,
    ),
    (
        "band 2\n\
         stream a 1 4 4 4 blur:3 YUV4MPEG2 W1 H16384 Cmono\n\
         stream b 1 4 4 4 blur:4 YUV4MPEG2 W1 H16384 Cmono\n",
        "ok\nstream 0\nline 3: TooManySteps\n",
        false,
    ),
    // Comments and empty lines print nothing.
    (
        "# account 2 10\n\
         \n\
         stream a 1 4 4 4 invert YUV4MPEG2 W1 H1 Cmono\n\
         #\n\
         start\n\
         \n\
         # a frame\n\
         arrive a 00\n\
         \n\
         state b",
        "stream 0\nstarted\naccepted 0\nrefused 1 NoStream\n",
        true,
    ),
    ("workers 1\n\n#\nstart", "ok\nline 4: BadLimits\n", false),
    // A name that no stream has is no stream.
    (
        "stream a 1 4 4 4 invert YUV4MPEG2 W1 H1 Cmono\n\
         start\n\
         state z\n\
         state A\n\
         close z\n\
         collect z\n\
         arrive z 00\n\
         state a\n",
        "stream 0\n\
         started\n\
         refused 1 NoStream\n\
         refused 1 NoStream\n\
         refused 1 NoStream\n\
         refused 1 NoStream\n\
         refused 1 NoStream\n\
         budget 1 deadline 0 accepted 0 finished 0 collected 0 charged 0\n",
        true,
    ),
    // Digits have either case.
    (
        "stream a 1 4 4 4 invert YUV4MPEG2 W2 H1 Cmono\n\
         stream B-1 1 4 4 4 hflip YUV4MPEG2 W4 H1 Cmono\n\
         start\n\
         arrive a aB0c\n\
         lease 0\n\
         band 0\n\
         settle 0\n\
         collect a\n\
         arrive B-1 DEadbeEF\n\
         lease 0\n\
         band 0\n\
         settle 0\n\
         collect B-1\n",
        "stream 0\n\
         stream 1\n\
         started\n\
         accepted 0\n\
         leased a 0 grant 1\n\
         stepped\n\
         finished 0\n\
         image 54F3\n\
         accepted 0\n\
         leased B-1 0 grant 1\n\
         stepped\n\
         finished 0\n\
         image EFBEADDE\n",
        true,
    ),
];

#[test]
fn session_scripts_print_their_lines(rt: HostRuntime) {
    expect_each(&rt, rt.alloc(), SCRIPTS);
}

/// A script of two streams, of 1 and of 32,768 samples, at which a frame of so many samples arrives.
fn arrival_of(alloc: Global, name: &str, samples: usize) -> Result<Vec<u8>, AllocError> {
    let mut script = Vec::new(alloc);
    script.extend_from_slice(b"stream a 1 4 4 4 invert YUV4MPEG2 W1 H1 Cmono\n")?;
    script.extend_from_slice(b"stream b 1 4 4 4 invert YUV4MPEG2 W16384 H2 Cmono\n")?;
    script.extend_from_slice(b"start\narrive ")?;
    script.extend_from_slice(name.as_bytes())?;
    script.push(b' ')?;
    let digits = "00".repeat(alloc, samples)?;
    script.extend_from_slice(digits.as_bytes())?;
    Ok(script)
}

/// A stream, how many samples arrive at it, what the script prints, and whether it is run to its end.
const ARRIVALS: &[(&str, usize, &str, bool)] = &[
    (
        "z",
        16_384,
        "stream 0\nstream 1\nstarted\nrefused 1 NoStream\n",
        true,
    ),
    (
        "a",
        16_384,
        "stream 0\nstream 1\nstarted\nrefused 3 WrongSize\n",
        true,
    ),
    (
        "b",
        32_768,
        "stream 0\nstream 1\nstarted\naccepted 0\n",
        true,
    ),
    ("z", 16_385, TOO_MANY, false),
    ("a", 16_385, TOO_MANY, false),
    ("b", 32_767, TOO_MANY, false),
];

const TOO_MANY: &str = "stream 0\nstream 1\nstarted\nline 4: BadLine\n";

#[test]
fn many_samples_are_a_frame_of_their_stream_alone(rt: HostRuntime) -> Result<(), AllocError> {
    for (name, samples, lines, whole) in ARRIVALS {
        let script = arrival_of(rt.alloc(), name, *samples)?;
        expect_lines(&rt, rt.alloc(), &script, lines, *whole);
    }
    Ok(())
}

/// A stream is admitted, from its first frame until it is drained.
const ADMITTED: Case<'_> = (
    "stream a 1 4 1 4 invert YUV4MPEG2 W1 H1 Cmono\n\
     start\n\
     admit b 1 4 1 4 invert+hflip YUV4MPEG2 W2 H1 Cmono\n\
     arrive b 0001\n\
     close b\n\
     lease 0\n\
     band 0\n\
     settle 0\n\
     lease 0\n\
     band 0\n\
     settle 0\n\
     collect b\n\
     collect b\n",
    "stream 0\n\
     started\n\
     admitted 1\n\
     accepted 0\n\
     closing\n\
     leased b 0 grant 1\n\
     stepped\n\
     returned\n\
     leased b 0 grant 1\n\
     stepped\n\
     finished 0\n\
     image FEFF\n\
     refused 16 Drained\n",
    true,
);

#[test]
fn a_session_that_lacks_memory_says_so(rt: HostRuntime) -> Result<(), Fail> {
    for script in [DRAINED, ADMITTED] {
        expect_said(&rt, rt.alloc(), script)?;
    }
    Ok(())
}

/// Replays a script of at most 512 bytes of lines. Where a growth is refused, the script says so.
fn expect_said(rt: &impl Abort, alloc: Global, case: Case<'_>) -> Result<(), Fail> {
    let (script, lines, _) = case;
    let mut room = [0; 512];
    let output = OverWrite::new(room.as_mut_slice());
    let (output, outcome) = replay(alloc, OverRead::new(script.as_bytes()), output);
    let left = output.into_inner().len();
    let printed = str::from_utf8(&room[..512 - left.min(512)])?;
    let is_refused = printed.contains("refused 6 NoMemory\n");
    match printed.rsplit_once("line ") {
        Some((told, fault)) => {
            same_at(rt, outcome, Err(ReplayFault::NoMemory), printed);
            same_at(rt, fault.ends_with(": NoMemory\n"), true, printed);
            same_at(rt, is_refused || lines.starts_with(told), true, printed);
        }
        None => {
            same_at(rt, outcome, Ok(true), printed);
            same_at(rt, is_refused || printed == lines, true, printed);
        }
    }
    Ok(())
}
