//! The commands of an account script.
ghost use Rattle.std.specs.Prelude.{◌≡◌, IfSome};
ghost use Rattle.serve_script.specs.ScriptCommand.{IsOnClock, command_of, command_of_one, command_of_two};
ghost use Rattle.serve_script.specs.ScriptCommand.{idle_at, word_number};

use cbs_account::limits::LAST_MOMENT;
use y4m_header::text::{MOST_DIGITS, cut, decimal_number};

/// A command of an account script.
#[derive(Clone, Copy)]
pub enum AccountCommand {
    /// `account Q T`: a new account of maximum budget `q` and period `t` takes the place of the one before.
    Open { q: u64, t: u64 },
    /// `idle R`: a job arrives at the moment and finds the server idle.
    ArriveIdle { moment: u64 },
    /// `charge K`: so many units of work were done.
    Charge { units: u64 },
}

/// The command that a line writes: words between single spaces, numbers of 1 to 19 digits.
pub fn parse_command(line: &[u8]) -> Option<AccountCommand>
    ensures command { result ≡ command_of line.now }
    ensures on_clock { IfSome result IsOnClock }
{
    let (name, rest) = cut(b' ', line);
    let (first, rest) = cut(b' ', rest?);
    let Some(rest) = rest else {
        return parse_one(name, first);
    };
    let (second, rest) = cut(b' ', rest);
    match rest {
        None => parse_two(name, first, second),
        Some(_) => None,
    }
}

/// A command with one number.
fn parse_one(name: &[u8], value: &[u8]) -> Option<AccountCommand>
    ensures command { result ≡ command_of_one name.now value.now }
    ensures on_clock { IfSome result IsOnClock }
{
    if name == b"idle".as_slice() {
        idle_at(parse_number(value)?)
    } else if name == b"charge".as_slice() {
        Some(AccountCommand::Charge {
            units: parse_number(value)?,
        })
    } else {
        None
    }
}

fn idle_at(moment: u64) -> Option<AccountCommand>
    ensures command { result ≡ idle_at moment }
    ensures on_clock { IfSome result IsOnClock }
{
    if moment <= LAST_MOMENT {
        Some(AccountCommand::ArriveIdle { moment })
    } else {
        None
    }
}

/// A command with two numbers.
fn parse_two(name: &[u8], q: &[u8], t: &[u8]) -> Option<AccountCommand>
    ensures command { result ≡ command_of_two name.now q.now t.now }
    ensures on_clock { IfSome result IsOnClock }
{
    if name == b"account".as_slice() {
        Some(AccountCommand::Open {
            q: parse_number(q)?,
            t: parse_number(t)?,
        })
    } else {
        None
    }
}

/// The number that a word writes: 1 to 19 digits, leading zeros among them.
pub fn parse_number(word: &[u8]) -> Option<u64>
    ensures { result ≡ word_number word.now }
{
    decimal_number(MOST_DIGITS, word)
}
