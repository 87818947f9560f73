//! Devices whose calls are tried again where they would wait.
ghost use Rattle.std.specs.Prelude.{◌≡◌, ◌≢◌, ◌≤◌, IfErr};
ghost use Rattle.std.specs.Io.{ReadsAtMost, WritesAtMost};
ghost use Rattle.std.specs.Io.KnownBytes.{ReadConsumes, WriteAppends};
ghost use Rattle.std.specs.IoError.{error_kind};

use std::io::{self, ErrorKind, Read, Write};
use std::thread;
use std::time::{Clock, Duration};

/// For how many milliseconds it is waited before a call is tried again, at first.
const SHORTEST: u64 = 1;

/// The most.
const LONGEST: u64 = 20;

/// A device of which a call that would wait is tried again, until it is answered. The caller may have left a
/// descriptor so that its calls don't wait (`O_NONBLOCK`).
#[derive(Drop)]
pub struct Patient<D, K> {
    device: D,
    clock: K,
}

impl<D, K> Patient<D, K> {
    /// A device, and the clock by which it is waited between two tries.
    pub fn new(device: D, clock: K) -> Patient<D, K>
        ensures { result.device ≡ device }
    {
        Patient { device, clock }
    }
}

impl<D: Read, K: Clock> Read for Patient<D, K> {
    ghost remaining = { λ patient. D.remaining patient.device };

    fn read(&mut self, buf: &mut [u8]) -> io::Result<usize>
        ensures bound { ReadsAtMost result buf.new }
        ensures bytes { ReadConsumes (D.remaining self.old.device) (D.remaining self.new.device) result
            buf.new }
        ensures answered { IfErr result (λ error. error_kind error ≢ ErrorKind.WouldBlock) }
    {
        read_patiently(&mut self.device, &self.clock, buf)
    }
}

impl<D: Write, K: Clock> Write for Patient<D, K> {
    ghost contents = { λ patient. D.contents patient.device };

    fn write(&mut self, buf: &[u8]) -> io::Result<usize>
        ensures bound { WritesAtMost result buf.now }
        ensures bytes { WriteAppends (D.contents self.old.device) (D.contents self.new.device) result buf.now }
        ensures answered { IfErr result (λ error. error_kind error ≢ ErrorKind.WouldBlock) }
    {
        write_patiently(&mut self.device, &self.clock, buf)
    }

    fn flush(&mut self) -> io::Result<()> {
        self.device.flush()
    }
}

/// Reads once, until that is answered.
fn read_patiently<R: Read, K: Clock>(reader: &mut R, clock: &K, buf: &mut [u8]) -> io::Result<usize>
    ensures bound { ReadsAtMost result buf.new }
    ensures bytes { ReadConsumes (R.remaining reader.old) (R.remaining reader.new) result buf.new }
    ensures answered { IfErr result (λ error. error_kind error ≢ ErrorKind.WouldBlock) }
{
    let mut pause = SHORTEST;
    for _ in 0..u64::MAX {
        match reader.read(buf) {
            Ok(count) => return Ok(count),
            Err(error) => {
                if error.kind() != ErrorKind::WouldBlock {
                    return Err(error);
                }
            }
        }
        pause = wait(clock, pause);
    }
    Err(io::Error::from(ErrorKind::TimedOut))
}

/// Writes once, until that is answered.
fn write_patiently<W: Write, K: Clock>(writer: &mut W, clock: &K, buf: &[u8]) -> io::Result<usize>
    ensures bound { WritesAtMost result buf.now }
    ensures bytes { WriteAppends (W.contents writer.old) (W.contents writer.new) result buf.now }
    ensures answered { IfErr result (λ error. error_kind error ≢ ErrorKind.WouldBlock) }
{
    let mut pause = SHORTEST;
    for _ in 0..u64::MAX {
        match writer.write(buf) {
            Ok(count) => return Ok(count),
            Err(error) => {
                if error.kind() != ErrorKind::WouldBlock {
                    return Err(error);
                }
            }
        }
        pause = wait(clock, pause);
    }
    Err(io::Error::from(ErrorKind::TimedOut))
}

/// Waits for so many milliseconds, and answers for how many the next time.
fn wait<K: Clock>(clock: &K, pause: u64) -> u64
    ensures { result ≤ LONGEST }
{
    thread::sleep(clock, Duration::from_millis(pause));
    pause.saturating_mul(2).min(LONGEST)
}
