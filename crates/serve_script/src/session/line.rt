//! The lines that a session script's events print.
ghost use Rattle.std.specs.Prelude.{◌≡◌, ◌++◌, OnErr, OnOk, decimal, take, vec_len};
ghost use Rattle.serve_core.specs.Seen.{heard};
ghost use Rattle.serve_script.specs.ScriptReport.{line_text};
ghost use Rattle.serve_script.specs.SessionLine.{counts_text, image_line, leased_line, refused_line};
ghost use Rattle.serve_script.specs.SessionLine.{reply_line, state_line};
ghost use Rattle.serve_script.specs.SessionSetup.{stream_line};

use super::pieces::{push_line, push_pieces};
use crate::print::push_balance;
use itoa::Buffer;
use serve_core::{Counts, Refusal, Reply};
use std::alloc::{AllocError, Global};

/// Appends the line of a reply, or nothing. `name` is that of the leased stream, and isn't read at other
/// replies.
pub fn push_reply(
    alloc: Global,
    printed: &mut Vec<u8>,
    name: &[u8],
    reply: &Reply,
) -> Result<(), AllocError>
    ensures ok { OnOk result
        (printed.new.items ≡ printed.old.items ++ line_text (reply_line name.now (heard reply.now))) }
    ensures err { OnErr result (printed.new.items ≡ printed.old.items) }
{
    match reply {
        Reply::Accepted(number) => push_numbered(printed, b"accepted ".as_slice(), *number),
        Reply::Leased(_, number, grant) => push_lease(printed, name, *number, *grant),
        Reply::Stepped => push_line(printed, b"stepped".as_slice()),
        Reply::Returned => push_line(printed, b"returned".as_slice()),
        Reply::Finished(number) => push_numbered(printed, b"finished ".as_slice(), *number),
        Reply::Ticked => push_line(printed, b"ticked".as_slice()),
        Reply::Closing => push_line(printed, b"closing".as_slice()),
        Reply::Image(image) => push_image(alloc, printed, image.data()),
        Reply::Admitted(s) => push_numbered(printed, b"admitted ".as_slice(), *s as u64),
        Reply::Refused(refusal) => push_refusal(printed, *refusal),
        Reply::GivenBack(refusal, _) => push_refusal(printed, *refusal),
        Reply::SpecBack(refusal, _) => push_refusal(printed, *refusal),
    }
}

/// Appends the line of a stream's number, or nothing.
pub fn push_stream(printed: &mut Vec<u8>, number: u64) -> Result<(), AllocError>
    ensures ok { OnOk result (printed.new.items ≡ printed.old.items ++ line_text (stream_line number)) }
    ensures err { OnErr result (printed.new.items ≡ printed.old.items) }
{
    push_numbered(printed, b"stream ".as_slice(), number)
}

/// Appends a line of a word and a number, or nothing.
fn push_numbered(printed: &mut Vec<u8>, word: &[u8], number: u64) -> Result<(), AllocError>
    ensures ok { OnOk result
        (printed.new.items ≡ printed.old.items ++ line_text (word.now ++ decimal number)) }
    ensures err { OnErr result (printed.new.items ≡ printed.old.items) }
{
    let mut digits = Buffer::new();
    let pieces = [word, digits.format(number).as_bytes(), b"\n".as_slice()];
    push_pieces(printed, &pieces)
}

/// Appends the line of a lease, or nothing.
fn push_lease(printed: &mut Vec<u8>, name: &[u8], number: u64, grant: u32) -> Result<(), AllocError>
    ensures ok { OnOk result
        (printed.new.items ≡ printed.old.items ++ line_text (leased_line name.now number grant)) }
    ensures err { OnErr result (printed.new.items ≡ printed.old.items) }
{
    let mut number_digits = Buffer::new();
    let mut grant_digits = Buffer::new();
    let pieces = [
        b"leased ".as_slice(),
        name,
        b" ".as_slice(),
        number_digits.format(number).as_bytes(),
        b" grant ".as_slice(),
        grant_digits.format(grant).as_bytes(),
        b"\n".as_slice(),
    ];
    push_pieces(printed, &pieces)
}

/// Appends the line of an image, or nothing.
fn push_image(alloc: Global, printed: &mut Vec<u8>, samples: &[u8]) -> Result<(), AllocError>
    ensures ok { OnOk result (printed.new.items ≡ printed.old.items ++ line_text (image_line samples.now)) }
    ensures err { OnErr result (printed.new.items ≡ printed.old.items) }
{
    let digits = hex::encode_upper(alloc, samples)?;
    let pieces = [b"image ".as_slice(), digits.as_bytes(), b"\n".as_slice()];
    push_pieces(printed, &pieces)
}

/// Appends the line of a refusal, or nothing.
pub fn push_refusal(printed: &mut Vec<u8>, refusal: Refusal) -> Result<(), AllocError>
    ensures ok { OnOk result (printed.new.items ≡ printed.old.items ++ line_text (refused_line refusal)) }
    ensures err { OnErr result (printed.new.items ≡ printed.old.items) }
{
    let mut digits = Buffer::new();
    let pieces = [
        b"refused ".as_slice(),
        digits.format(refusal.code()).as_bytes(),
        b" ".as_slice(),
        refusal.word().as_bytes(),
        b"\n".as_slice(),
    ];
    push_pieces(printed, &pieces)
}

/// Appends the line of a stream's state, or nothing: its budget and deadline, and what is counted of it.
pub fn push_state(
    printed: &mut Vec<u8>,
    account: (u64, u64),
    counts: Counts,
) -> Result<(), AllocError>
    ensures ok { OnOk result
        (printed.new.items ≡ printed.old.items ++ line_text (state_line account counts)) }
    ensures err { OnErr result (printed.new.items ≡ printed.old.items) }
{
    let kept = printed.len();
    let pushed = push_state_parts(printed, account, counts);
    if pushed.is_err() {
        printed.truncate(kept);
    }
    pushed
}

/// Appends the parts of a state's line. Where a growth is refused, the balance may be left.
fn push_state_parts(
    printed: &mut Vec<u8>,
    account: (u64, u64),
    counts: Counts,
) -> Result<(), AllocError>
    ensures ok { OnOk result
        (printed.new.items ≡ printed.old.items ++ line_text (state_line account counts)) }
    ensures err { OnErr result (take (vec_len printed.old) printed.new.items ≡ printed.old.items) }
{
    push_balance(printed, account, b"".as_slice())?;
    push_counts(printed, counts)
}

/// Appends counts as a state has them, and the line's end, or nothing.
fn push_counts(printed: &mut Vec<u8>, counts: Counts) -> Result<(), AllocError>
    ensures ok { OnOk result (printed.new.items ≡ printed.old.items ++ line_text (counts_text counts)) }
    ensures err { OnErr result (printed.new.items ≡ printed.old.items) }
{
    let mut accepted = Buffer::new();
    let mut finished = Buffer::new();
    let mut collected = Buffer::new();
    let mut charged = Buffer::new();
    let pieces = [
        b" accepted ".as_slice(),
        accepted.format(counts.accepted).as_bytes(),
        b" finished ".as_slice(),
        finished.format(counts.finished).as_bytes(),
        b" collected ".as_slice(),
        collected.format(counts.collected).as_bytes(),
        b" charged ".as_slice(),
        charged.format(counts.charged).as_bytes(),
        b"\n".as_slice(),
    ];
    push_pieces(printed, &pieces)
}
