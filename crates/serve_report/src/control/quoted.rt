//! A line as an answer repeats it.
ghost use Rattle.std.specs.Fmt.{digit_glyph};
ghost use Rattle.std.specs.Prelude.{◌≡◌, ◌<◌, take, true};
ghost use Rattle.serve_report.specs.Quoted.{is_plain};
ghost use Rattle.serve_report.specs.declared.control.quoted.TheConstants.{MOST_TOLD};

use std::fmt;

/// How many bytes of a line are repeated at most.
pub const MOST_TOLD: usize = 60;

/// The first bytes of a line, between quotation marks.
#[derive(Clone, Copy)]
pub struct Quoted<'a>(pub &'a [u8]);

impl fmt::Display for Quoted<'_> {
    ghost use Rattle.std.specs.Prelude.{Some};
    ghost use Rattle.serve_report.specs.Quoted.{quoted_text};

    ghost output = { λ quoted. Some (quoted_text quoted.0.now) };

    fn fmt<W: fmt::Write>(&self, f: &mut fmt::Formatter<W>) -> fmt::Result {
        let line = front_of(self.0);
        f.write_str("'")?;
        for byte in line {
            write!(f, "{}", Told(*byte))?;
        }
        f.write_str("'")
    }
}

/// The first bytes of a line.
fn front_of(line: &[u8]) -> &[u8]
    ensures { result.now ≡ take MOST_TOLD line.now }
{
    if line.len() > MOST_TOLD {
        &line[..MOST_TOLD]
    } else {
        line
    }
}

/// A byte of a line: printable ASCII as it is, others than that, `'` and `\` by their number.
#[derive(Clone, Copy)]
struct Told(u8);

impl fmt::Display for Told {
    ghost use Rattle.std.specs.Prelude.{Some};
    ghost use Rattle.serve_report.specs.Quoted.{byte_told};

    ghost output = { λ told. Some (byte_told told.0) };

    fn fmt<W: fmt::Write>(&self, f: &mut fmt::Formatter<W>) -> fmt::Result {
        let byte = self.0;
        if is_plain(byte) {
            write!(f, "{}", char::from(byte))
        } else {
            let (high, low) = (digit(byte / 16), digit(byte % 16));
            write!(f, "\\x{high}{low}")
        }
    }
}

/// Whether a byte is repeated as it is.
fn is_plain(byte: u8) -> bool
    ensures { result ≡ is_plain byte }
{
    b' ' <= byte && byte <= b'~' && byte != b'\'' && byte != b'\\'
}

/// The hexadecimal digit of a number.
fn digit(number: u8) -> char
    requires { number < 16 }
    ensures digit { result ≡ digit_glyph true number }
    ensures ascii { result < 128 }
{
    if number < 10 {
        char::from(b'0' + number)
    } else {
        char::from(b'A' - 10 + number)
    }
}
