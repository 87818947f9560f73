//! Where the lines of a control come from.
use super::{Talk, talks, talks_by};
use crate::program::control::script::Answers;
use crate::program::memory::{Given, Made, Memory, NoFiles};
use crate::program::serving::{A, A_INVERTED, given, holds};

/// Runs that read no line from standard input.
fn by_file<'a>(answers: &'a str, errors: &'a str, status: u8) -> Talk<'a> {
    Talk {
        line: "serve --control lines a:a.y4m:a.out:1:2:invert",
        errors,
        status,
        ..Talk::new(&[], answers)
    }
}

#[test]
fn no_stream_is_opened_where_a_control_is_not(rt: HostRuntime) {
    let talk = by_file("", "y4mserve: control\n", 1);
    talks(
        &rt,
        rt.alloc(),
        &NoFiles,
        &Answers::new(rt.alloc(), talk.room),
        talk,
    );
}

/// A file of lines, which ends.
#[test]
fn a_control_may_be_a_file(rt: HostRuntime) {
    let inputs = [given("a.y4m", A)];
    let outputs = [Made::new(rt.alloc(), "a.out", 4096)];
    let files = Memory {
        slow: &[Given {
            name: "lines",
            text: b"# none\n\nend",
            fails: false,
        }],
        ..Memory::new(&rt, &inputs, &outputs)
    };
    let answers = "a admitted\na accepted 3 delivered 3 charged 3 stop whole\nunits 3\n";
    talks_by(&rt, rt.alloc(), &files, by_file(answers, "", 0));
    holds(&rt, &outputs[0], A_INVERTED);
}

/// It is read in more pieces than one, and has no line.
#[test]
fn a_file_may_be_long(rt: HostRuntime) {
    let inputs = [given("a.y4m", A)];
    let outputs = [Made::new(rt.alloc(), "a.out", 4096)];
    let files = Memory {
        slow: &[Given {
            name: "lines",
            text: &[b'#'; 10_000],
            fails: false,
        }],
        ..Memory::new(&rt, &inputs, &outputs)
    };
    let answers = "line 1: TooLong '############################################################'\n\
                   a admitted\na accepted 3 delivered 3 charged 3 stop whole\nunits 3\n";
    let talk = Talk {
        is_ordered: false,
        ..by_file(answers, "", 0)
    };
    talks_by(&rt, rt.alloc(), &files, talk);
}

#[test]
fn a_read_that_fails_ends_a_control(rt: HostRuntime) {
    let inputs = [given("a.y4m", A)];
    let outputs = [Made::new(rt.alloc(), "a.out", 4096)];
    let files = Memory {
        slow: &[Given {
            name: "lines",
            text: b"",
            fails: true,
        }],
        ..Memory::new(&rt, &inputs, &outputs)
    };
    let answers = "a admitted\na accepted 3 delivered 3 charged 3 stop whole\nunits 3\n";
    let said = "y4mserve: control read\n";
    talks_by(&rt, rt.alloc(), &files, by_file(answers, said, 1));
    holds(&rt, &outputs[0], A_INVERTED);
}

/// Words, what is told of them, and the status.
const WRONG: &[(&str, &str, u8)] = &[
    ("serve --band 3 --control -", "y4mserve: bad band\n", 2),
    ("serve --control - a", "y4mserve: bad stream a\n", 2),
    (
        "serve --control - a:i:o:1:4:invert a:j:p:1:4:invert",
        "y4mserve: repeated name a\n",
        2,
    ),
    (
        "serve --control - a:i:o:1:4:invert b:j:o:1:4:invert",
        "y4mserve: repeated file o\n",
        2,
    ),
    (
        "serve --control o a:i:o:1:4:invert",
        "y4mserve: repeated file o\n",
        2,
    ),
    (
        "serve --control i a:i:o:1:4:invert",
        "y4mserve: repeated file i\n",
        2,
    ),
    (
        "serve --workers 1 --control - a:i:o:1:1:invert b:j:p:1:2:invert",
        "y4mserve: Overload b\n",
        1,
    ),
];

/// The words are checked as those of a run without a control.
#[test]
fn no_line_is_read_where_words_are_wrong(rt: HostRuntime) {
    for (line, errors, status) in WRONG {
        let talk = Talk {
            line,
            errors,
            ..Talk::new(&[("", b"bad\n")], "").with_status(*status)
        };
        let answers = Answers::new(rt.alloc(), talk.room);
        talks(&rt, rt.alloc(), &NoFiles, &answers, talk);
    }
}
