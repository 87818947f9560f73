//! The account that a program keeps of one server: its budget and its deadline.
ghost use Rattle.std.specs.Prelude.{◌≡◌, ◌≤◌, ◌<◌, ◌^◌, ◌↔◌, IsTrue, IsOk, IfOk};
ghost use Rattle.cbs_account.specs.Balance.{IsBandwidth, opened};
ghost use Rattle.cbs_account.specs.Rules.{CanCharge, after_idle, after_unit, after_units};

use crate::limits::{DEADLINE_END, LAST_MOMENT, LONGEST_PERIOD, MOST_UNITS};
use std::marker::Model;
use thiserror::Error;

/// A maximum budget and a period that no server may have: not `1 <= Q <= T <= 1048576`.
#[derive(Clone, Copy, Debug, PartialEq, Eq, Error)]
#[error("BadBandwidth")]
pub struct BadBandwidth;

/// Whether a server may have the maximum budget `q` and the period `t`.
pub(crate) fn is_bandwidth(q: u64, t: u64) -> bool
    ensures { IsTrue result ↔ IsBandwidth q t }
{
    1 <= q && q <= t && t <= LONGEST_PERIOD
}

/// A server's account. Contracts see it as a `Balance`: the maximum budget `Q`, the period `T`, the budget
/// `c` that is left, which is 1 to `Q` between calls, and the deadline `d`.
///
/// The unit of time is the caller's choice; one unit of work costs one unit of budget. No call takes memory.
#[derive(Debug, Drop)]
pub struct Account {
    maximum: u64,
    period: u64,
    budget: u64,
    deadline: u64,
}

impl Model for Account {
    ghost use Rattle.cbs_account.specs.Balance.{Balance, IsInLimits, balance};

    ghost Value = { Balance };

    ghost view = { λ a. balance a.maximum a.period a.budget a.deadline };

    ghost invariant = { λ a. IsInLimits (balance a.maximum a.period a.budget a.deadline) };
}

impl Account {
    /// A new server of maximum budget `q` and period `t`: its whole budget, and the deadline 0.
    pub fn new(q: u64, t: u64) -> Result<Account, BadBandwidth>
        ensures accepted { IsOk result ↔ IsBandwidth q t }
        ensures account { IfOk result (λ a. a ≡ opened q t) }
    {
        if !is_bandwidth(q, t) {
            return Err(BadBandwidth);
        }
        Ok(Account {
            maximum: q,
            period: t,
            budget: q,
            deadline: 0,
        })
    }

    /// The units that are left before the next recharge.
    pub fn budget(&self) -> u64
        ensures value { result ≡ self.now.budget }
        ensures positive { 1 ≤ result }
        ensures within { result ≤ self.now.maximum }
    {
        self.budget
    }

    /// The deadline, by which the earliest of several servers is chosen.
    pub fn deadline(&self) -> u64
        ensures value { result ≡ self.now.deadline }
        ensures fits { result < DEADLINE_END }
    {
        self.deadline
    }

    /// A job arrives at the moment `now` and finds the server idle. Where the budget that is left is too much
    /// for the time up to the deadline, equality included, the server is recharged and its deadline is one
    /// period from `now`; otherwise budget and deadline are kept.
    pub fn arrive_idle(&mut self, now: u64)
        requires { now ≤ LAST_MOMENT }
        ensures { self.new ≡ after_idle now self.old }
    {
        let owed = self.deadline as u128 * self.maximum as u128;
        let covered = self.budget as u128 * self.period as u128
            + now as u128 * self.maximum as u128;
        if owed <= covered {
            self.budget = self.maximum;
            self.deadline = now + self.period;
        }
    }

    /// Whether `k` units can be charged: at most 2^40 of them, and a deadline below 2^62 afterwards.
    pub fn can_charge(&self, k: u64) -> bool
        ensures { IsTrue result ↔ CanCharge k self.now }
    {
        if k > MOST_UNITS {
            return false;
        }
        if k < self.budget {
            return true;
        }
        let recharges = 1 + (k - self.budget) / self.maximum;
        self.deadline + self.period * recharges < DEADLINE_END
    }

    /// Charges `k` units of work that were done, in one step: the budget is recharged as often as it ends on
    /// the way, and each time the deadline is put off by one period.
    pub fn charge(&mut self, k: u64)
        requires { CanCharge k self.old }
        ensures { self.new ≡ after_units k self.old }
    {
        if k < self.budget {
            self.budget -= k;
            return;
        }
        let over = k - self.budget;
        self.deadline += self.period * (1 + over / self.maximum);
        self.budget = self.maximum - over % self.maximum;
    }

    /// Charges `k` units one at a time: the plain program of which [`Account::charge`] is the short form.
    pub fn charge_unit_by_unit(&mut self, k: u64)
        requires { CanCharge k self.old }
        ensures { self.new ≡ after_units k self.old }
    {
        for _unit in 0..k {
            self.charge_unit();
        }
    }

    /// Charges one unit. A budget that ends is recharged at once.
    fn charge_unit(&mut self)
        requires { (after_unit self.old).deadline < DEADLINE_END }
        ensures { self.new ≡ after_unit self.old }
    {
        self.budget -= 1;
        if self.budget == 0 {
            self.budget = self.maximum;
            self.deadline += self.period;
        }
    }
}
