//! The balance that a script prints.
ghost use Rattle.std.specs.Prelude.{◌≡◌, ◌++◌, OnErr, OnOk};
ghost use Rattle.serve_script.specs.AccountScript.{balance_text};

use super::session::pieces::push_pieces;
use itoa::Buffer;
use std::alloc::AllocError;

/// Appends a budget and a deadline, and what stands behind them, or nothing.
pub fn push_balance(
    printed: &mut Vec<u8>,
    balance: (u64, u64),
    behind: &[u8],
) -> Result<(), AllocError>
    ensures ok { OnOk result (printed.new.items
        ≡ printed.old.items ++ (balance_text balance ++ behind.now)) }
    ensures err { OnErr result (printed.new.items ≡ printed.old.items) }
{
    let mut budget = Buffer::new();
    let mut deadline = Buffer::new();
    let pieces = [
        b"budget ".as_slice(),
        budget.format(balance.0).as_bytes(),
        b" deadline ".as_slice(),
        deadline.format(balance.1).as_bytes(),
        behind,
    ];
    push_pieces(printed, &pieces)
}
