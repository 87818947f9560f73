//! The lines of a script.
ghost use Rattle.std.specs.Prelude.{◌≡◌, ◌<◌, ◌∷◌, length};
ghost use Rattle.serve_script.specs.ScriptText.{is_silent, script_lines};

use y4m_header::text::cut;

/// The first line of a text that is left, without its line feed, and what follows it.
pub fn first_line(text: &[u8]) -> (&[u8], &[u8])
    requires { 0 < length text.now }
    ensures lines { script_lines text.now ≡ result.0.now ∷ script_lines result.1.now }
    ensures shorter { length result.1.now < length text.now }
{
    let (line, rest) = cut(b'\n', text);
    match rest {
        Some(rest) => (line, rest),
        None => (line, &text[text.len()..]),
    }
}

/// Whether a line does nothing: it is empty, or begins with `#`.
pub fn is_silent(line: &[u8]) -> bool
    ensures { result ≡ is_silent line.now }
{
    match line.first() {
        Some(first) => *first == b'#',
        None => true,
    }
}
