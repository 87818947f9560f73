//! What is said on the error stream.
use std::fmt::Display;
use std::io::Write;

/// The longest line that is said in one write, with its line feed.
const LONGEST: usize = 128;

/// Says one line, behind the program's name.
pub fn tell<E: Write, D: Display>(errors: &mut E, line: &D) {
    let mut room = [0; LONGEST];
    let mut rest = room.as_mut_slice();
    if writeln!(rest, "y4mserve: {line}").is_err() {
        let _ = writeln!(errors, "y4mserve: {line}");
        return;
    }
    let left = rest.len().min(LONGEST);
    let _ = errors.write_all(&room[..LONGEST - left]);
}
