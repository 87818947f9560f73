//! A writer whose writes can be waited for a while.
use crate::compare::same_at;
use serve_files::{Carrier, Relay};
use std::alloc::Global;
use std::io::{self, ErrorKind, Write};
use std::process::Abort;
use std::sync::{Arc, Condvar, Mutex, Wait};
use std::thread::Threads;

/// More milliseconds than anything here takes.
const PATIENCE: u64 = 600_000;

/// What is written: nine bytes.
const TEXT: &[u8] = b"YUV4MPEG2";

/// Whether the writes of a writer go on, what they took, and how many bytes more they take.
#[derive(Drop)]
struct Bank {
    is_open: bool,
    taken: Vec<u8>,
    left: usize,
}

#[derive(Drop)]
struct Door {
    bank: Mutex<Bank>,
    changed: Condvar,
}

/// A writer whose writes wait until its door is open. It takes at most so many bytes at a time, and in all.
#[derive(Drop)]
struct Behind<T: Wait + Drop> {
    rt: T,
    door: Arc<Door>,
    step: usize,
}

impl<T: Wait + Drop> Write for Behind<T> {
    fn write(&mut self, buf: &[u8]) -> io::Result<usize> {
        let bank = self.door.bank.lock(&self.rt);
        let mut bank = self
            .door
            .changed
            .wait_while(&self.rt, bank, |bank| !bank.is_open);
        let n = buf.len().min(self.step).min(bank.left);
        if n == 0 && !buf.is_empty() {
            return Err(io::Error::from(ErrorKind::Other));
        }
        bank.left = bank.left.saturating_sub(n);
        bank.taken.write(&buf[..n])
    }

    fn flush(&mut self) -> io::Result<()> {
        Ok(())
    }
}

/// A door, and a writer behind it.
fn shut_off<T: Abort + Wait + Copy + Drop>(
    rt: &T,
    alloc: Global,
    step: usize,
    left: usize,
    is_open: bool,
) -> (Arc<Door>, Behind<T>) {
    let bank = Bank {
        is_open,
        taken: Vec::new(alloc),
        left,
    };
    let door = Door {
        bank: Mutex::new(bank),
        changed: Condvar::new(),
    };
    let door = Arc::new(alloc, door).expect(rt, "no door");
    let theirs = Arc::try_clone(&door).expect(rt, "no door");
    let writer = Behind {
        rt: *rt,
        door: theirs,
        step,
    };
    (door, writer)
}

fn open<T: Wait>(rt: &T, door: &Door) {
    door.bank.lock(rt).is_open = true;
    door.changed.notify_all();
}

/// What was taken by now.
fn same_taken<T: Abort + Wait>(rt: &T, door: &Door, want: &[u8], when: &str) {
    let bank = door.bank.lock(rt);
    same_at(rt, bank.taken.as_slice(), want, when);
}

/// A write's answer, without its error.
fn told(answer: io::Result<Option<usize>>) -> Result<Option<usize>, ErrorKind> {
    match answer {
        Ok(n) => Ok(n),
        Err(error) => Err(error.kind()),
    }
}

/// Where no thread can be had there is nothing to try.
fn relay_of<W, T>(rt: &T, alloc: Global, writer: W) -> Option<Relay<W, T>>
where
    W: Write + Drop + Send + 'static,
    T: Threads + Wait + Copy + Drop + Send + 'static,
{
    let carrier = Carrier::start(rt, alloc)?;
    Some(carrier.carry(writer))
}

/// While the door is shut nothing is known, and once it is open the same bytes are told of.
#[test]
fn bytes_on_their_way_are_told_of_later(rt: HostRuntime) {
    let (door, writer) = shut_off(&rt, rt.alloc(), 5, 99, false);
    let Some(mut relay) = relay_of(&rt, rt.alloc(), writer) else {
        return;
    };
    for _ in 0..10 {
        same_at(&rt, told(relay.try_write(TEXT, 1)), Ok(None), "a shut door");
    }
    same_taken(&rt, &door, b"", "a shut door");
    open(&rt, &door);
    let answer = told(relay.try_write(TEXT, PATIENCE));
    same_at(&rt, answer, Ok(Some(5)), "an open door");
    let answer = told(relay.try_write(&TEXT[5..], PATIENCE));
    same_at(&rt, answer, Ok(Some(4)), "the rest");
    same_taken(&rt, &door, TEXT, "at the end");
}

/// Who waits to the end is told of what went out before, and no byte goes out twice.
#[test]
fn a_write_goes_on_with_what_was_tried(rt: HostRuntime) {
    let (door, writer) = shut_off(&rt, rt.alloc(), 5, 99, false);
    let Some(mut relay) = relay_of(&rt, rt.alloc(), writer) else {
        return;
    };
    same_at(&rt, told(relay.try_write(TEXT, 1)), Ok(None), "a shut door");
    open(&rt, &door);
    same_at(&rt, relay.write(TEXT).ok(), Some(5), "an open door");
    same_at(&rt, relay.write(&TEXT[5..]).ok(), Some(4), "the rest");
    same_taken(&rt, &door, TEXT, "at the end");
    same_at(&rt, relay.flush().is_ok(), true, "a flush");
}

/// A writer that takes one byte at a time gets each byte once.
#[test]
fn bytes_go_out_one_by_one(rt: HostRuntime) {
    let (door, writer) = shut_off(&rt, rt.alloc(), 1, 99, true);
    let Some(mut relay) = relay_of(&rt, rt.alloc(), writer) else {
        return;
    };
    for from in 0..TEXT.len() {
        let answer = told(relay.try_write(&TEXT[from..], PATIENCE));
        same_at(&rt, answer, Ok(Some(1)), "a byte");
    }
    same_at(
        &rt,
        told(relay.try_write(b"", PATIENCE)),
        Ok(Some(0)),
        "none",
    );
    same_taken(&rt, &door, TEXT, "at the end");
}

/// At most 1 MiB is handed over at once.
#[test]
fn a_part_is_handed_over_of_what_is_long(rt: HostRuntime) {
    const MOST: usize = 1 << 20;
    let (door, writer) = shut_off(&rt, rt.alloc(), MOST + 9, MOST + 9, true);
    let Some(mut relay) = relay_of(&rt, rt.alloc(), writer) else {
        return;
    };
    let Ok(mut long) = vec![in rt.alloc(); 7u8; MOST] else {
        return;
    };
    long.extend_from_slice(TEXT).expect(&rt, "no memory");
    let answer = told(relay.try_write(&long, PATIENCE));
    same_at(&rt, answer, Ok(Some(MOST)), "a part");
    let answer = told(relay.try_write(&long[MOST..], PATIENCE));
    same_at(&rt, answer, Ok(Some(9)), "the rest");
    let bank = door.bank.lock(&rt);
    same_at(&rt, bank.taken == long, true, "at the end");
}

/// Whoever lets it go waits for what was handed over.
#[test]
fn what_was_handed_over_is_written(rt: HostRuntime) {
    let (door, writer) = shut_off(&rt, rt.alloc(), 99, 99, true);
    let Some(mut relay) = relay_of(&rt, rt.alloc(), writer) else {
        return;
    };
    let answer = told(relay.try_write(TEXT, 0));
    let is_known = answer == Ok(None) || answer == Ok(Some(9));
    same_at(&rt, is_known, true, "at once");
    drop(relay);
    same_taken(&rt, &door, TEXT, "behind the relay");
}

/// A fault is told once, of the bytes that were handed over.
#[test]
fn a_fault_is_told_once(rt: HostRuntime) {
    let (door, writer) = shut_off(&rt, rt.alloc(), 4, 4, true);
    let Some(mut relay) = relay_of(&rt, rt.alloc(), writer) else {
        return;
    };
    let other = Err(ErrorKind::Other);
    let answer = told(relay.try_write(TEXT, PATIENCE));
    same_at(&rt, answer, Ok(Some(4)), "a part");
    let answer = told(relay.try_write(&TEXT[4..], PATIENCE));
    same_at(&rt, answer, other, "the rest");
    same_at(&rt, relay.flush().is_ok(), true, "a flush");
    same_at(
        &rt,
        told(relay.try_write(b"", PATIENCE)),
        Ok(Some(0)),
        "none",
    );
    same_taken(&rt, &door, b"YUV4", "at the end");
}

/// A fault that came while nobody asked is told by the next write.
#[test]
fn a_late_fault_is_told(rt: HostRuntime) {
    let (door, writer) = shut_off(&rt, rt.alloc(), 4, 0, false);
    let Some(mut relay) = relay_of(&rt, rt.alloc(), writer) else {
        return;
    };
    same_at(&rt, told(relay.try_write(TEXT, 1)), Ok(None), "a shut door");
    open(&rt, &door);
    same_at(&rt, relay.flush().is_ok(), true, "a flush");
    let answer = told(relay.try_write(TEXT, PATIENCE));
    same_at(&rt, answer, Err(ErrorKind::Other), "the fault");
    same_taken(&rt, &door, b"", "at the end");
}

/// Who comes with fewer bytes than went out isn't told that they did.
#[test]
fn fewer_bytes_are_refused(rt: HostRuntime) {
    let (door, writer) = shut_off(&rt, rt.alloc(), 99, 99, false);
    let Some(mut relay) = relay_of(&rt, rt.alloc(), writer) else {
        return;
    };
    same_at(&rt, told(relay.try_write(TEXT, 1)), Ok(None), "a shut door");
    open(&rt, &door);
    let answer = told(relay.try_write(&TEXT[..8], PATIENCE));
    same_at(&rt, answer, Err(ErrorKind::Other), "fewer");
    same_taken(&rt, &door, TEXT, "at the end");
}
