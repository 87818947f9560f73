//! The text of operations.
ghost use Rattle.std.specs.Prelude.{◌≡◌, ◌≤◌, ◌<◌, ◌↔◌, ◌⊎◌, length, Some, None};
ghost use Rattle.std.specs.Prelude.{IfOk, IfErr, IsErrOf, IsSomeAnd};
ghost use Rattle.std.specs.Option.{option_map, ok_or};
ghost use Rattle.filters.specs.OpsText.{ops_of};

use crate::error::FilterError;
use crate::limits::MOST_OPS;
use crate::op::Op;
use crate::part::op_of_part;
use std::alloc::Global;
use y4m_header::text::cut;

/// The operations that a text says.
///
/// A text is 1 to 8 parts joined by `+`. A part is `invert`, `hflip`, `vflip`, `thresh:t`, `clamp:low,high`,
/// `crop:x,y,width,height` or `blur:radius`; a number is 1 to 9 decimal digits, leading zeros included.
/// Samples are 0 to 255, `low` is at most `high`, and a radius is 1 to 8; whether a rectangle lies in a
/// frame is seen when the chain is made. `NoMemory` is answered where the text says at most 8 operations
/// and the memory of their list is refused; no other answer needs memory. A part that says none is told of
/// before there are too many.
pub fn parse_ops(alloc: Global, text: &[u8]) -> Result<Vec<Op>, FilterError>
    ensures ops { IfOk result (λ ops. ops_of text.now ≡ Some ops.items) }
    ensures few_ops { IfOk result (λ ops. length ops.items ≤ MOST_OPS) }
    ensures bad { IsErrOf result FilterError.BadOp ↔ (ops_of text.now ≡ None) }
    ensures many { IsErrOf result FilterError.TooManyOps
        ↔ IsSomeAnd (ops_of text.now) (λ ops. MOST_OPS < length ops) }
    ensures no_other { IfErr result (λ e.
        (e ≡ FilterError.BadOp) ⊎ (e ≡ FilterError.TooManyOps) ⊎ (e ≡ FilterError.NoMemory)) }
{
    let count = count_ops(text)?;
    if count > MOST_OPS {
        return Err(FilterError::TooManyOps);
    }
    collect_ops(alloc, text, count)
}

/// How many operations a text says.
fn count_ops(text: &[u8]) -> Result<usize, FilterError>
    ensures { result ≡ ok_or (option_map length (ops_of text.now)) FilterError.BadOp }
{
    let mut count = 0;
    let mut rest = Some(text);
    while let Some(text) = rest {
        let (part, more) = cut(b'+', text);
        op_of_part(part).ok_or(FilterError::BadOp)?;
        count += 1;
        rest = more;
    }
    Ok(count)
}

/// The operations that a text says, which are this many.
fn collect_ops(alloc: Global, text: &[u8], count: usize) -> Result<Vec<Op>, FilterError>
    requires { option_map length (ops_of text.now) ≡ Some count }
    ensures ops { IfOk result (λ ops. ops_of text.now ≡ Some ops.items) }
    ensures memory { IfErr result (λ e. e ≡ FilterError.NoMemory) }
{
    let mut ops = Vec::with_capacity(alloc, count)?;
    let mut rest = Some(text);
    while let Some(text) = rest {
        let (part, more) = cut(b'+', text);
        if let Some(op) = op_of_part(part) {
            ops.push(op)?;
        }
        rest = more;
    }
    Ok(ops)
}
