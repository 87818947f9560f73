//! Filters YUV4MPEG2 streams, one in a pipe or many from file to file, and runs scripts.
#![tactic(auto)]

mod host_files;
mod scribe;
mod terminals;
mod told;

ghost use Rattle.std.specs.Prelude.{◌≡◌, ◌≤◌};
ghost use Rattle.std.specs.Thread.{IsSync};

use host_files::HostFiles;
use serve_files::Patient;
use serve_report::Host;
use std::alloc::AllocError;
use std::io::{ErrorKind, Lock, Write};
use std::process::ExitCode;
use std::sync::Wait;
use std::thread::{self, Builder, Threads};
use std::time::Clock;
use terminals::Terminals;
use told::{Answers, Errors};

/// The bytes of the stack of the thread that does the work, four times what its deepest calls take. It is
/// reserved whole when the thread is made. The first thread's own grows by pages, and one that is refused
/// would end the program by a signal.
const WORK_STACK: usize = 1 << 20;

/// The words behind the program's name; none where one of them is no text.
fn own_words(rt: &HostRuntime) -> Result<Vec<String>, AllocError> {
    let words = match std::env::args(rt) {
        Ok(words) => words,
        Err(error) if error.kind() == ErrorKind::OutOfMemory => return Err(AllocError),
        Err(_) => return Ok(Vec::new(rt.alloc())),
    };
    words.skip(1).collect(rt.alloc())
}

/// Does what the words ask for by the streams, files and terminals of the system, and answers the program's
/// status.
fn run<T: Threads + Wait + Clock + Copy + Drop + Send + Sync + 'static>(
    rt: &T,
    system: &HostRuntime,
) -> u8
    ensures { result ≤ 2 }
{
    // `lock` of a standard stream holds no lock here, so that others may call it while this one lives.
    let input = Patient::new(system.stdin().lock(), *system);
    let output = Patient::new(system.stdout().lock(), *system);
    let mut errors = Patient::new(system.stderr().lock(), *system);
    let Ok(words) = own_words(system) else {
        return refuse(&mut errors);
    };
    let files = HostFiles::new(system);
    let terminals = Terminals::new(rt, system);
    let mut output = Answers::new(&terminals, output);
    let mut errors = Errors::new(&terminals, errors);
    let host = Host {
        rt,
        alloc: system.alloc(),
        files: &files,
        watch: Some(&terminals),
    };
    run_beside(
        rt,
        &terminals,
        || -> u8
            ensures { result ≤ 2 }
        { host.run(&words, input, &mut output, &mut errors) },
    )
}

/// Does the work while a thread of its own writes on the error stream, where that is a terminal, and answers
/// what the work does.
fn run_beside<T: Threads + Wait + Clock + Sync, R: FnOnce() -> u8>(
    rt: &T,
    terminals: &Terminals<'_, '_, T>,
    work: R,
) -> u8
    requires { R.pre work }
    ensures { R.post work result }
{
    thread::scope(
        thread::scope_env(),
        rt,
        |scope| -> u8
            requires { IsSync T.row × R.pre work }
            ensures { R.post work result }
        {
            if terminals.want_scribe() {
                let writing = scope.spawn(move || terminals.write_on());
                let _ = writing.is_ok();
            }
            let status = work();
            terminals.end_writing();
            status
        },
    )
}

/// Tells that there was no memory to begin with, and answers the program's status.
fn refuse<E: Write>(errors: &mut E) -> u8
    ensures { result ≡ 1 }
{
    let _ = errors.write_all(b"y4mserve: NoMemory\n");
    1
}

fn main(rt: HostRuntime) -> ExitCode {
    let work = Builder::new()
        .stack_size(WORK_STACK)
        .spawn(&rt, move || run(&rt, &rt));
    let status = match work {
        Ok(work) => work.join(&rt),
        Err(_) => refuse(&mut rt.stderr().lock()),
    };
    ExitCode::from(status)
}
