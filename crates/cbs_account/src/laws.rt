//! What the rules of a constant bandwidth server promise of every past, whatever program keeps them.
ghost use Rattle.cbs_account.specs.Laws.{Bandwidth, ClosedForm, TotalBandwidth};
ghost use Rattle.cbs_account.specs.Laws.{ChargeLimit, DeadlineBound, DeadlineLimit};

/// The rule by which budget and deadline go on while a server stays busy: a budget that is used up is
/// recharged at once to its maximum, and the deadline is put off by one period each time.
///
/// So where the last arrival that recharged came at `r`, and `n` units were done since, the budget is
/// `Q - n mod Q` and the deadline `r + T * (1 + n div Q)`. Idle arrivals since then that didn't recharge may
/// stand anywhere among the units, and anything may stand before `r`.
pub fn closed_form()
    ensures { ClosedForm }
{}

/// The demand of a server: from any idle arrival on, what it has asked for never exceeds its bandwidth
/// `Q / T` times the time up to its deadline.
///
/// For `n` units since an idle arrival at `r`, with `c` and `d` the budget and the deadline now,
/// `(n + c) * T <= (d - r) * Q`: not even if the budget that is left is used too. Further idle arrivals since
/// `r` may have recharged or not.
pub fn bandwidth()
    ensures { Bandwidth }
{}

/// How far a deadline can be put off: `n` units after the last arrival that recharged, at `r`, it is at most
/// `r + T * (1 + n)`.
///
/// Each unit costs at most one recharge, and so one period.
pub fn deadline_bound()
    ensures { DeadlineBound }
{}

/// How late a deadline can be at all: where no idle arrival came after the moment `m`, and `n` units were
/// done since the server was new, it is at most `m + T * (1 + n)`.
///
/// A caller whose clock and whose work are limited learns from this that its charges stay within the numbers.
pub fn deadline_limit()
    ensures { DeadlineLimit }
{}

/// What a server can be charged at any time: `k` units, where no idle arrival came after the moment `m`,
/// which is at most 2^60, and all its units, these `k` among them, are at most 2^39.
///
/// It is said of a balance `b` that such arrivals and `n` units have left, and of what follows it. A new
/// server is such a balance, with `n` of 0; and where nothing follows, the balance alone decides.
pub fn charge_limit()
    ensures { ChargeLimit }
{}

/// What the shares are for: servers that fit on the workers ask for no more time than these have.
///
/// In a time `m` that each period divides, a server's share is `Q * (m / T)` units. The sum is at most `m`
/// for each worker.
pub fn total_bandwidth()
    ensures { TotalBandwidth }
{}
