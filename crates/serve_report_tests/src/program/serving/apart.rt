//! Whether the files of a run are told apart.
use super::{A, A_INVERTED, Expected, given, holds, serves};
use crate::compare::same_at;
use crate::program::memory::{Made, Memory};
use serve_files::{FileId, Place};
use std::alloc::Global;
use std::process::Abort;
use std::sync::Wait;
use std::thread::Threads;
use std::time::Clock;

const ONE: FileId = FileId {
    device: 1,
    inode: 1,
};

const OTHER: FileId = FileId {
    device: 1,
    inode: 2,
};

/// The number of the first, on another device.
const ELSEWHERE: FileId = FileId {
    device: 2,
    inode: 1,
};

/// What stands behind some names.
type Places = &'static [(&'static str, Place)];

/// Words, what stands behind their names, the fault that is told, and the status.
const REFUSED: &[(&str, Places, &str, u8)] = &[
    // An output is an input, of its own stream or of another, before it or behind it.
    (
        "serve a:film:film:1:2:invert",
        &[("film", Place::File(ONE))],
        "repeated file film",
        2,
    ),
    (
        "serve a:film:o:1:2:invert b:other:film:1:2:invert",
        &[("film", Place::File(ONE)), ("other", Place::File(OTHER))],
        "repeated file film",
        2,
    ),
    (
        "serve a:film:o:1:2:invert b:o:p:1:2:invert",
        &[("film", Place::File(ONE)), ("o", Place::File(OTHER))],
        "repeated file o",
        2,
    ),
    // One file has two names: the second is told.
    (
        "serve a:film:link:1:2:invert",
        &[("film", Place::File(ONE)), ("link", Place::File(ONE))],
        "repeated file link",
        2,
    ),
    // Two outputs are one, which is there or isn't.
    (
        "serve a:i:o:1:2:invert b:i:./o:1:2:invert",
        &[("o", Place::File(ONE)), ("./o", Place::File(ONE))],
        "repeated file ./o",
        2,
    ),
    (
        "serve a:i:o:1:2:invert b:i:o:1:2:invert",
        &[("o", Place::Missing)],
        "repeated file o",
        2,
    ),
    // An input isn't there, and another stream would make it.
    (
        "serve a:o:p:1:2:invert b:i:o:1:2:invert",
        &[("o", Place::Missing), ("p", Place::Missing)],
        "repeated file o",
        2,
    ),
    // A FIFO is read twice, or written twice, or both.
    (
        "serve a:f:o:1:2:invert b:f:p:1:2:invert",
        &[("f", Place::Pipe(ONE))],
        "repeated file f",
        2,
    ),
    (
        "serve a:i:f:1:2:invert b:i:f:1:2:invert",
        &[("f", Place::Pipe(ONE))],
        "repeated file f",
        2,
    ),
    (
        "serve a:i:f:1:2:invert b:f:o:1:2:invert",
        &[("f", Place::Pipe(ONE))],
        "repeated file f",
        2,
    ),
    // Faults go to a file of the words.
    (
        "serve a:i:log:1:2:invert",
        &[("/dev/stderr", Place::File(ONE)), ("log", Place::File(ONE))],
        "repeated file log",
        2,
    ),
    (
        "serve a:i:o:1:2:invert b:j:/dev/stderr:1:2:invert",
        &[
            ("/dev/stdout", Place::Pipe(ONE)),
            ("/dev/stderr", Place::Pipe(OTHER)),
        ],
        "repeated file /dev/stderr",
        2,
    ),
    (
        "serve --trace log a:i:o:1:2:invert",
        &[("/dev/stderr", Place::File(ONE)), ("log", Place::File(ONE))],
        "repeated file log",
        2,
    ),
    (
        "serve --control log",
        &[("/dev/stderr", Place::File(ONE)), ("log", Place::File(ONE))],
        "repeated file log",
        2,
    ),
    // The report goes to a file of the words.
    (
        "serve a:i:report:1:2:invert",
        &[
            ("/dev/stdout", Place::File(ONE)),
            ("report", Place::File(ONE)),
        ],
        "repeated file report",
        2,
    ),
    (
        "serve a:i:/dev/stdout:1:2:invert",
        &[("/dev/stdout", Place::Pipe(ONE))],
        "repeated file /dev/stdout",
        2,
    ),
    (
        "serve a:film:o:1:2:invert",
        &[
            ("/dev/stdout", Place::File(ONE)),
            ("film", Place::File(ONE)),
        ],
        "repeated file film",
        2,
    ),
    // The first that clashes with one before it is told.
    (
        "serve a:i:o:1:2:invert b:j:p:1:2:invert c:j:p:1:2:invert d:i:o:1:2:invert",
        &[("o", Place::File(ONE)), ("p", Place::File(OTHER))],
        "repeated file p",
        2,
    ),
    // The shares are looked at before.
    (
        "serve a:film:film:5:4:invert",
        &[("film", Place::File(ONE))],
        "BadBandwidth a",
        1,
    ),
];

/// Runs the program with these words, where no file can be opened or made, and sees how many are asked for.
pub(super) fn asks_for<R: Abort + Threads + Wait + Clock + Copy + Drop + Send + Sync + 'static>(
    rt: &R,
    alloc: Global,
    line: &str,
    places: Places,
    expected: Expected<'_>,
    count: u64,
) {
    let files = Memory {
        places,
        ..Memory::new(rt, &[], &[])
    };
    serves(rt, alloc, line, &files, expected);
    let asked = *files.asked.lock(rt);
    same_at(rt, asked, count, line);
}

#[test]
fn files_that_clash_are_refused(rt: HostRuntime) {
    for (line, places, fault, status) in REFUSED {
        let errors = format!(in rt.alloc(); "y4mserve: {fault}\n").expect(&rt, line);
        let expected = Expected {
            report: "",
            errors: errors.as_str(),
            status: *status,
        };
        asks_for(&rt, rt.alloc(), line, places, expected, 0);
    }
}

/// What stands behind the names of two streams that are served.
const SERVED: &[Places] = &[
    // Report and faults go to one file.
    &[
        ("/dev/stdout", Place::File(OTHER)),
        ("/dev/stderr", Place::File(OTHER)),
        ("film", Place::File(ONE)),
    ],
    // They go to a terminal, to which a stream may go too.
    &[
        ("/dev/stderr", Place::Shared),
        ("film", Place::File(ONE)),
        ("a.out", Place::Shared),
    ],
    // One film is read twice, and the report has a file of its own.
    &[
        ("/dev/stdout", Place::File(OTHER)),
        ("film", Place::File(ONE)),
        ("a.out", Place::Missing),
        ("b.out", Place::Missing),
    ],
    // Each is what any number of streams may use.
    &[
        ("/dev/stdout", Place::Shared),
        ("film", Place::Shared),
        ("a.out", Place::Shared),
        ("b.out", Place::Shared),
    ],
    // Numbers of files repeat on other devices, and a FIFO is no file at rest.
    &[
        ("/dev/stdout", Place::Pipe(ONE)),
        ("film", Place::File(ONE)),
        ("a.out", Place::File(ELSEWHERE)),
        ("b.out", Place::Pipe(ELSEWHERE)),
    ],
];

/// Two streams of one film.
const BOTH: Expected<'_> = Expected {
    report: "a accepted 3 delivered 3 charged 3 stop whole\n\
             b accepted 3 delivered 3 charged 3 stop whole\nunits 6\n",
    errors: "",
    status: 0,
};

#[test]
fn one_film_is_read_by_two_streams(rt: HostRuntime) {
    let line = "serve a:film:a.out:1:2:invert b:film:b.out:1:2:invert";
    let inputs = [given("film", A)];
    for places in SERVED {
        let outputs = [
            Made::new(rt.alloc(), "a.out", 4096),
            Made::new(rt.alloc(), "b.out", 4096),
        ];
        let files = Memory {
            places,
            ..Memory::new(&rt, &inputs, &outputs)
        };
        serves(&rt, rt.alloc(), line, &files, BOTH);
        let asked = *files.asked.lock(&rt);
        same_at(
            &rt,
            asked,
            4,
            "two files that are opened, and two that are made",
        );
        holds(&rt, &outputs[0], A_INVERTED);
        holds(&rt, &outputs[1], A_INVERTED);
    }
}

/// Words, what stands behind their names, and the report.
const STOPPED: &[(&str, Places, &str)] = &[
    // A file that isn't there is read twice.
    (
        "serve a:film:o:1:2:invert b:film:p:1:2:invert",
        &[("film", Place::Missing)],
        "a accepted 0 delivered 0 charged 0 stop open\n\
         b accepted 0 delivered 0 charged 0 stop open\nunits 0\n",
    ),
    // One device is written twice.
    (
        "serve a:i:null:1:2:invert b:j:null:1:2:invert",
        &[("null", Place::Shared)],
        "a accepted 0 delivered 0 charged 0 stop open\n\
         b accepted 0 delivered 0 charged 0 stop open\nunits 0\n",
    ),
];

#[test]
fn files_that_do_not_clash_are_asked_for(rt: HostRuntime) {
    for (line, places, report) in STOPPED {
        let expected = Expected {
            report,
            errors: "",
            status: 1,
        };
        asks_for(&rt, rt.alloc(), line, places, expected, 2);
    }
}
