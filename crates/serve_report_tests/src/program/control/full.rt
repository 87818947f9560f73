//! As many streams as there may be.
use super::Talk;
use super::script::Turn;
use super::waiting::{ASK, shared_answers, talks_of, waits};
use crate::program::memory::Made;
use crate::program::serving::{A, A_INVERTED, holds};
use std::alloc::{AllocError, Global};
use std::process::Abort;
use std::sync::Wait;
use std::thread::Threads;
use std::time::Clock;
use test_tools::streams::numbered;

/// How many streams wait to be opened, but one of those that there may be.
const WAITING: u64 = 63;

/// The lines that ask for streams whose FIFOs nobody opens, and those that close them.
fn requests(alloc: Global) -> Result<(String, String), AllocError> {
    let mut asking = String::new(alloc);
    let mut closing = String::new(alloc);
    for k in 0..WAITING {
        let request = format!(in alloc; "s{k}:fifo{k}:s{k}.out:1:100:invert\n")?;
        asking.push_str(request.as_str())?;
        let close = format!(in alloc; "close s{k}\n")?;
        closing.push_str(close.as_str())?;
    }
    Ok((asking, closing))
}

/// What is answered: those that are served, the one that finds no place, and the line of each of the others.
fn answers_of(alloc: Global) -> Result<String, AllocError> {
    let mut answers = String::from_str(
        alloc,
        "a admitted\na accepted 3 delivered 3 charged 3 stop whole\n\
         b admitted\nb accepted 3 delivered 3 charged 3 stop whole\n\
         d accepted 0 delivered 0 charged 0 stop admit TooManyStreams\n\
         line 132: NoStream 'close d'\nunits 6\n",
    )?;
    answers.push_str("c accepted 0 delivered 0 charged 0 stop closed\n")?;
    for k in 0..WAITING {
        let row = format!(in alloc; "s{k} accepted 0 delivered 0 charged 0 stop closed\n")?;
        answers.push_str(row.as_str())?;
    }
    Ok(answers)
}

/// How each of the files is opened that are: the FIFOs when all streams are closed.
const LATER: &str = "NoStream";

/// Asks for those that wait and for others, closes all, and compares what is answered.
fn fills<'f, R: Abort + Threads + Wait + Clock + Copy + Drop + Send + Sync + 'static>(
    rt: &'f R,
    alloc: Global,
    asking: &'f [u8],
    closing: &'f [u8],
    wanted: &'f str,
) {
    let turns: [Turn<'f>; 7] = [
        ("", asking),
        ("", b"a:a.in:a.out:1:100:invert\n"),
        ("a accepted 3", b"b:b.in:b.out:1:100:invert\n"),
        (
            "b accepted 3",
            b"c:fifo:c.out:1:100:invert\nd:d.in:d.out:1:100:invert\n",
        ),
        ("TooManyStreams", closing),
        ("", b"close c\nclose d\n"),
        ("NoStream", b"end\n"),
    ];
    let outputs = [
        Made::new(alloc, "a.out", 4096),
        Made::new(alloc, "b.out", 4096),
    ];
    let answers = shared_answers(rt, alloc, usize::MAX);
    let talk = Talk {
        is_ordered: false,
        ..Talk::new(&turns, wanted)
    };
    talks_of(
        rt,
        alloc,
        &answers,
        &[("a.in", "", &[("", A)]), ("b.in", "", &[("", A)])],
        &[],
        LATER,
        &outputs,
        talk,
    );
    holds(rt, &outputs[0], A_INVERTED);
    holds(rt, &outputs[1], A_INVERTED);
}

/// The 64th is served beside those that wait, and so is the next one then. With one more that waits there are
/// 64, and no other finds a place. All of them are closed.
#[test]
fn sixty_four_streams_wait_to_be_opened(rt: HostRuntime) {
    let (asking, closing) = requests(rt.alloc()).expect(&rt, "the requests");
    let wanted = answers_of(rt.alloc()).expect(&rt, "the answers");
    fills(
        &rt,
        rt.alloc(),
        asking.as_bytes(),
        closing.as_bytes(),
        wanted.as_str(),
    );
}

/// Words by which the journal is full many times. One of less than 130 entries has 130.
const JOURNALS: &[&str] = &[
    "serve --journal 66 --control -",
    "serve --journal 130 --control -",
    "serve --journal 1000 --workers 16 --control -",
];

/// One stream has many frames, and the other comes meanwhile.
#[test]
fn a_stream_comes_where_journals_are_full(rt: HostRuntime) {
    let (frames, images) = numbered(rt.alloc(), 255).expect(&rt, "the frames");
    let turns: [Turn<'_>; 3] = [
        ASK,
        ("a admitted\n", b"b:b.in:b.out:1:4:invert\n"),
        ("b accepted 3", b"end\n"),
    ];
    let answers = "a admitted\na accepted 255 delivered 255 charged 255 stop whole\n\
                   b admitted\nb accepted 3 delivered 3 charged 3 stop whole\nunits 258\n";
    for line in JOURNALS {
        let talk = Talk {
            line,
            is_ordered: false,
            ..Talk::new(&turns, answers)
        };
        let came = [("", frames.as_slice())];
        waits(&rt, rt.alloc(), "", &came, Some(images.as_slice()), talk);
    }
}
