//! The line on a terminal that shows how far streams are.
use crate::compare::same_at;
use serve_watch::{Board, Line, Presence};
use std::alloc::Global;
use std::process::Abort;
use std::sync::Wait;
use test_tools::Room;

/// Compares what was written since the last time, and in how many writes.
fn shows(rt: &impl Abort, screen: &mut Room, text: &str, writes: u64) {
    let shown = (str::from_utf8(&screen.taken).ok(), screen.writes);
    same_at(rt, shown, (Some(text), writes), "was memory refused?");
    screen.taken.clear();
    screen.writes = 0;
}

/// Compares how many writes were made at a moment.
fn writes_at(rt: &impl Abort, screen: &Room, writes: u64, time: u64) {
    same_at(
        rt,
        screen.writes,
        writes,
        format_args!("{time}: was memory refused?"),
    );
}

/// 50 frames of 1920x1080 4:2:0, with their lines, at 25 a second, and then twenty more.
#[test]
fn the_line_of_a_stream_alone_has_the_frames_and_two_rates(rt: HostRuntime) {
    let line = Line::new();
    let mut screen = Room::endless(rt.alloc());
    line.add_written(50, 50 * 3_110_406);
    line.draw(&mut screen, 700);
    let text = "\x1B[?7l\r50 frames, 71.4 frames/s, 222 MB/s\x1B[K\x1B[?7h";
    shows(&rt, &mut screen, text, 1);
    line.draw(&mut screen, 2_000);
    let text = "\x1B[?7l\r50 frames, 25.0 frames/s, 77 MB/s\x1B[K\x1B[?7h";
    shows(&rt, &mut screen, text, 1);
    line.add_written(20, 20 * 3_110_406);
    line.draw(&mut screen, 2_800);
    let text = "\x1B[?7l\r70 frames, 25.0 frames/s, 77 MB/s\x1B[K\x1B[?7h";
    shows(&rt, &mut screen, text, 1);
}

#[test]
fn a_line_that_was_drawn_is_ended_by_a_last_one(rt: HostRuntime) {
    let line = Line::new();
    let mut screen = Room::endless(rt.alloc());
    line.draw_last(&mut screen, Some(99));
    shows(&rt, &mut screen, "", 0);
    line.draw(&mut screen, 1_000);
    shows(&rt, &mut screen, "", 0);
    line.add_written(10, 10_000);
    line.draw(&mut screen, 1_000);
    let text = "\x1B[?7l\r10 frames, 10.0 frames/s, 0 MB/s\x1B[K\x1B[?7h";
    shows(&rt, &mut screen, text, 1);
    line.draw_last(&mut screen, None);
    shows(&rt, &mut screen, "\n", 1);
    line.draw_last(&mut screen, Some(2_000));
    let text = "\x1B[?7l\r10 frames, 5.0 frames/s, 0 MB/s\x1B[K\x1B[?7h\n";
    shows(&rt, &mut screen, text, 2);
}

#[test]
fn a_stream_alone_that_is_waited_for_is_told_once_after_a_second(rt: HostRuntime) {
    let line = Line::new();
    let mut screen = Room::endless(rt.alloc());
    line.await_stream();
    line.draw(&mut screen, 999);
    shows(&rt, &mut screen, "", 0);
    line.draw(&mut screen, 1_000);
    let text = "\x1B[?7l\rwaiting for a stream (.y4m) on standard input\x1B[K\x1B[?7h";
    shows(&rt, &mut screen, text, 1);
    line.draw(&mut screen, 2_000);
    shows(&rt, &mut screen, "", 0);
    line.begin();
    line.draw(&mut screen, 3_000);
    shows(&rt, &mut screen, "", 0);
    line.add_written(4, 4_000);
    line.draw(&mut screen, 4_000);
    let text = "\x1B[?7l\r4 frames, 1.0 frames/s, 0 MB/s\x1B[K\x1B[?7h";
    shows(&rt, &mut screen, text, 1);
}

#[test]
fn the_line_of_a_stream_that_never_came_goes(rt: HostRuntime) {
    let line = Line::new();
    let mut screen = Room::endless(rt.alloc());
    line.await_stream();
    line.draw(&mut screen, 1_000);
    screen.taken.clear();
    screen.writes = 0;
    line.draw_last(&mut screen, Some(1_050));
    shows(&rt, &mut screen, "\r\x1B[K", 1);
}

/// A moment, and how many writes of the line of a stream alone are made at it.
const LINE_DUE: &[(u64, u64)] = &[(99, 0), (130, 1), (229, 0), (20, 0), (230, 1), (329, 0)];

#[test]
fn a_line_is_due_ten_times_a_second(rt: HostRuntime) {
    let line = Line::new();
    let mut screen = Room::endless(rt.alloc());
    line.add_written(1, 10);
    for (time, writes) in LINE_DUE {
        line.draw(&mut screen, *time);
        writes_at(&rt, &screen, *writes, *time);
        screen.writes = 0;
    }
}

/// A board for streams of these names, which begin at the start and are open.
fn board_of(rt: &(impl Abort + Wait), alloc: Global, names: &[&str]) -> Board {
    let board = Board::new(alloc, names, 0).expect(rt, "no board");
    for stream in 0..names.len() {
        board.set_open(rt, stream);
    }
    board
}

#[test]
fn a_line_has_a_stream_s_name_and_both_counts(rt: HostRuntime) {
    let board = board_of(&rt, rt.alloc(), &["0123456789abcdefghijklmnopqrstuv"]);
    let mut screen = Room::endless(rt.alloc());
    board.add_read(&rt, 0, 16_777_216);
    board.add_written(&rt, 0, 16_777_216);
    board.draw(&rt, &mut screen, 200);
    let line = "0123456789abcdefghijklmnopqrstuv frames in 16777216 out 16777216";
    same_at(&rt, line.len(), 64, "the longest line");
    let drawn = format!(in rt.alloc(); "\x1B[?7l{line}\x1B[K\n\x1B[J\x1B[?7h").expect(
        &rt, "no text",
    );
    shows(&rt, &mut screen, &drawn, 1);
}

/// A moment, and how many writes are made at it.
const DUE: &[(u64, u64)] = &[
    (0, 0),
    (199, 0),
    (230, 1),
    (429, 0),
    (20, 0),
    (430, 1),
    (629, 0),
];

#[test]
fn lines_are_due_five_times_a_second(rt: HostRuntime) {
    let board = board_of(&rt, rt.alloc(), &["soft"]);
    let mut screen = Room::endless(rt.alloc());
    for (time, writes) in DUE {
        board.add_read(&rt, 0, 1);
        board.draw(&rt, &mut screen, *time);
        writes_at(&rt, &screen, *writes, *time);
        screen.writes = 0;
    }
}

#[test]
fn lines_are_drawn_over_those_before(rt: HostRuntime) {
    let board = board_of(&rt, rt.alloc(), &["a", "back"]);
    let mut screen = Room::endless(rt.alloc());
    board.add_read(&rt, 0, 3);
    board.draw(&rt, &mut screen, 199);
    shows(&rt, &mut screen, "", 0);
    board.draw(&rt, &mut screen, 200);
    let first = "\x1B[?7la frames in 3 out 0\x1B[K\nback frames in 0 out 0\x1B[K\n\x1B[J\x1B[?7h";
    shows(&rt, &mut screen, first, 1);
    board.add_written(&rt, 0, 2);
    board.add_read(&rt, 1, 1);
    board.draw(&rt, &mut screen, 399);
    shows(&rt, &mut screen, "", 0);
    board.draw(&rt, &mut screen, 400);
    let second =
        "\x1B[?7l\x1B[2Aa frames in 3 out 2\x1B[K\nback frames in 1 out 0\x1B[K\n\x1B[J\x1B[?7h";
    shows(&rt, &mut screen, second, 1);
    board.draw(&rt, &mut screen, 600);
    shows(&rt, &mut screen, "", 0);
    board.add_written(&rt, 0, 1);
    board.add_written(&rt, 1, 1);
    board.draw_last(&rt, &mut screen, 610);
    let last =
        "\x1B[?7l\x1B[2Aa frames in 3 out 3\x1B[K\nback frames in 1 out 1\x1B[K\n\x1B[J\x1B[?7h";
    shows(&rt, &mut screen, last, 1);
}

#[test]
fn a_stream_that_is_not_open_is_waited_for_after_a_second(rt: HostRuntime) {
    let board = Board::new(rt.alloc(), &["cam1", "cam2"], 20).expect(&rt, "no board");
    let mut screen = Room::endless(rt.alloc());
    board.set_open(&rt, 1);
    board.set_open(&rt, 2);
    board.draw(&rt, &mut screen, 1_019);
    let text = "\x1B[?7lcam1 frames in 0 out 0\x1B[K\ncam2 frames in 0 out 0\x1B[K\n\x1B[J\x1B[?7h";
    shows(&rt, &mut screen, text, 1);
    board.draw(&rt, &mut screen, 1_219);
    let text =
        "\x1B[?7l\x1B[2Awaiting for cam1\x1B[K\ncam2 frames in 0 out 0\x1B[K\n\x1B[J\x1B[?7h";
    shows(&rt, &mut screen, text, 1);
}

#[test]
fn the_line_of_a_stream_that_is_over_goes(rt: HostRuntime) {
    let board = Board::new(rt.alloc(), &[], 0).expect(&rt, "no board");
    let mut screen = Room::endless(rt.alloc());
    board.draw(&rt, &mut screen, 300);
    shows(&rt, &mut screen, "", 0);
    for (stream, name) in ["a", "b"].iter().enumerate() {
        let presence = Presence::new(rt.alloc()).expect(&rt, "no presence");
        let other = presence.for_another().expect(&rt, "no other");
        board
            .add(&rt, stream + 7, name, other, 400)
            .expect(&rt, "no row");
        board.set_open(&rt, stream + 7);
        if stream == 0 {
            board.draw(&rt, &mut screen, 500);
            let text = "\x1B[?7la frames in 0 out 0\x1B[K\n\x1B[J\x1B[?7h";
            shows(&rt, &mut screen, text, 1);
            presence.end();
        }
    }
    board.add_read(&rt, 7, 1);
    board.add_read(&rt, 8, 2);
    board.draw(&rt, &mut screen, 700);
    let text = "\x1B[?7l\x1B[1Ab frames in 2 out 0\x1B[K\n\x1B[J\x1B[?7h";
    shows(&rt, &mut screen, text, 1);
}

#[test]
fn what_else_is_written_stands_where_lines_were_cleared(rt: HostRuntime) {
    let board = board_of(&rt, rt.alloc(), &["a", "b"]);
    let mut screen = Room::endless(rt.alloc());
    board.clear(&mut screen);
    shows(&rt, &mut screen, "", 0);
    let text = "\x1B[?7la frames in 0 out 0\x1B[K\nb frames in 0 out 0\x1B[K\n\x1B[J\x1B[?7h";
    board.draw(&rt, &mut screen, 200);
    shows(&rt, &mut screen, text, 1);
    board.clear(&mut screen);
    shows(&rt, &mut screen, "\x1B[2A\x1B[J", 1);
    board.clear(&mut screen);
    shows(&rt, &mut screen, "", 0);
    board.draw(&rt, &mut screen, 400);
    shows(&rt, &mut screen, text, 1);
}

#[test]
fn lines_are_drawn_below_what_else_was_written(rt: HostRuntime) {
    let board = board_of(&rt, rt.alloc(), &["a"]);
    let mut screen = Room::endless(rt.alloc());
    let text = "\x1B[?7la frames in 0 out 0\x1B[K\n\x1B[J\x1B[?7h";
    board.draw(&rt, &mut screen, 200);
    shows(&rt, &mut screen, text, 1);
    board.leave();
    board.clear(&mut screen);
    shows(&rt, &mut screen, "", 0);
    board.draw(&rt, &mut screen, 400);
    shows(&rt, &mut screen, text, 1);
}

#[test]
fn a_short_run_draws_nothing(rt: HostRuntime) {
    let board = board_of(&rt, rt.alloc(), &["a"]);
    let mut screen = Room::endless(rt.alloc());
    board.add_read(&rt, 0, 1);
    board.add_read(&rt, 1, 1);
    board.draw(&rt, &mut screen, 20);
    board.draw_last(&rt, &mut screen, 30);
    shows(&rt, &mut screen, "", 0);
}
