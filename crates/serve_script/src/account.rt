//! An account script: its commands are run in order on one account.
ghost use Rattle.std.specs.Prelude.{◌≡◌, Some, IfErr, IfOk, OnErr, OnOk};
ghost use Rattle.serve_script.specs.AccountScript.{AccountGives, CanDo, fault_of};
ghost use Rattle.serve_script.specs.ScriptCommand.{IsOnClock};
ghost use Rattle.serve_script.specs.ScriptFault.{fault_told};
ghost use Rattle.serve_script.specs.LineEnds.{EndsFrom, IsPastOf};
ghost use Rattle.serve_script.specs.ScriptInside.{server_by};

use super::command::{AccountCommand, parse_command};
use super::fault::ScriptFault;
use super::print::push_balance;
use super::run::Script;
use cbs_account::Account;

/// Runs the command of a line and appends its answer.
pub fn run_account_line<'a>(
    account: Option<Account>,
    line: &'a [u8],
    printed: &mut Vec<u8>,
) -> Result<Script<'a>, ScriptFault<'a>>
    ensures { EndsFrom (IsPastOf account) (AccountGives line.now) result
        printed.old.items printed.new.items }
{
    let command = parse_command(line).ok_or(ScriptFault::BadLine)?;
    let next = run_command(account, command)?;
    let balance = (next.budget(), next.deadline());
    push_balance(printed, balance, b"\n".as_slice())?;
    Ok(Script::Account(next))
}

/// The account after one command.
fn run_command<'a>(
    account: Option<Account>,
    command: AccountCommand,
) -> Result<Account, ScriptFault<'a>>
    requires { IsOnClock command }
    ensures can { OnOk result (CanDo account command) }
    ensures next { IfOk result (λ next. server_by account command ≡ Some next) }
    ensures cannot { OnErr result (¬ CanDo account command) }
    ensures fault { IfErr result (λ fault. fault_told fault ≡ fault_of account command) }
{
    match (command, account) {
        (AccountCommand::Open { q, t }, _) => Ok(Account::new(q, t)?),
        (_, None) => Err(ScriptFault::BadLine),
        (AccountCommand::ArriveIdle { moment }, Some(mut account)) => {
            account.arrive_idle(moment);
            Ok(account)
        }
        (AccountCommand::Charge { units }, Some(mut account)) => {
            if !account.can_charge(units) {
                return Err(ScriptFault::Range);
            }
            account.charge(units);
            Ok(account)
        }
    }
}
