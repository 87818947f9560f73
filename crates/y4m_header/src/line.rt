//! A line, and its first word.
ghost use Rattle.std.specs.Prelude.{◌≡◌, ◌↔◌, IsTrue};
ghost use Rattle.y4m_header.specs.Line.{IsLine, word};

use crate::limits::LONGEST_LINE;
use crate::text::cut;

/// Whether the bytes are a line.
pub fn is_line(line: &[u8]) -> bool
    ensures { IsTrue result ↔ IsLine line.now }
{
    line.len() <= LONGEST_LINE && line.iter().all(|b| *b != b'\n')
}

/// The first piece of a line.
pub fn word(line: &[u8]) -> &[u8]
    ensures { result.now ≡ word line.now }
{
    cut(b' ', line).0
}
