//! Accounts, as lists of what happens and the budget and deadline that come of it.
use super::prints;
use crate::tests::{same, same_at};
use cbs_account::{Account, BadBandwidth};
use std::alloc::AllocError;

/// What happens to an account.
enum Happens {
    Opens,
    /// A job arrives at this moment and finds the server idle.
    Idle(u64),
    /// So many units are charged.
    Charge(u64),
    /// Whether so many units could be charged.
    Can(u64, bool),
}

use Happens::{Can, Charge, Idle, Opens};

/// A maximum budget and a period, and what happens, with the budget and the deadline behind it.
struct Life<'a> {
    name: &'a str,
    server: (u64, u64),
    happens: &'a [(Happens, (u64, u64))],
}

const LIVES: &[Life<'_>] = &[
    Life {
        name: "a budget that ends is recharged at once",
        server: (2, 10),
        happens: &[
            (Opens, (2, 0)),
            (Idle(0), (2, 10)),
            (Charge(1), (1, 10)),
            (Charge(1), (2, 20)),
            (Idle(30), (2, 40)),
        ],
    },
    Life {
        name: "idle arrival before equality keeps",
        server: (2, 10),
        happens: &[(Idle(0), (2, 10)), (Charge(1), (1, 10)), (Idle(4), (1, 10))],
    },
    Life {
        name: "idle arrival recharges at equality",
        server: (2, 10),
        happens: &[(Idle(0), (2, 10)), (Charge(1), (1, 10)), (Idle(5), (2, 15))],
    },
    Life {
        name: "one charge recharges several times",
        server: (3, 10),
        happens: &[
            (Opens, (3, 0)),
            (Idle(0), (3, 10)),
            (Charge(7), (2, 30)),
            (Charge(0), (2, 30)),
        ],
    },
    // Each of the first three charges puts the deadline off by 2^60.
    Life {
        name: "a charge has limits",
        server: (1, 1_048_576),
        happens: &[
            (Can(1_099_511_627_776, true), (1, 0)),
            (Can(1_099_511_627_777, false), (1, 0)),
            (Charge(1_099_511_627_776), (1, 1_152_921_504_606_846_976)),
            (Charge(1_099_511_627_776), (1, 2_305_843_009_213_693_952)),
            (Charge(1_099_511_627_776), (1, 3_458_764_513_820_540_928)),
            (
                Can(1_099_511_627_776, false),
                (1, 3_458_764_513_820_540_928),
            ),
            (Charge(1_099_511_627_775), (1, 4_611_686_018_426_339_328)),
            (Can(0, true), (1, 4_611_686_018_426_339_328)),
            (Can(1, false), (1, 4_611_686_018_426_339_328)),
        ],
    },
];

/// Lets something happen to an account, and answers whether it might.
fn lets(account: &mut Account, happens: &Happens) -> bool {
    match happens {
        Opens => true,
        Idle(moment) if *moment <= 1 << 60 => {
            account.arrive_idle(*moment);
            true
        }
        Idle(_) => false,
        Charge(k) => charges(account, *k),
        Can(k, can) => account.can_charge(*k) == *can,
    }
}

fn charges(account: &mut Account, k: u64) -> bool {
    let can = account.can_charge(k);
    if can {
        account.charge(k);
    }
    can
}

fn stands(account: &Account) -> (u64, u64) {
    (account.budget(), account.deadline())
}

#[test]
fn accounts_go_by_what_happens(rt: HostRuntime) -> Result<(), BadBandwidth> {
    for life in LIVES {
        let (q, t) = life.server;
        let mut account = Account::new(q, t)?;
        for (happens, wanted) in life.happens {
            let got = (lets(&mut account, happens), stands(&account));
            same_at(&rt, got, (true, *wanted), life.name);
        }
    }
    Ok(())
}

const BANDWIDTHS: &[(u64, u64, bool)] = &[
    (5, 4, false),
    (0, 1, false),
    (0, 0, false),
    (1, 1_048_577, false),
    (1, 1, true),
    (4, 4, true),
    (1, 1_048_576, true),
];

#[test]
fn bandwidths_have_limits(rt: HostRuntime) -> Result<(), AllocError> {
    for case in BANDWIDTHS {
        let (q, t, _) = *case;
        same(&rt, (q, t, Account::new(q, t).is_ok()), *case);
    }
    prints(&rt, rt.alloc(), &BadBandwidth, "BadBandwidth")
}

/// A new account of a server that a job found idle at 100, and that has used so much.
fn used_up_to(q: u64, t: u64, used: u64) -> Option<Account> {
    let mut account = Account::new(q, t).ok()?;
    account.arrive_idle(100);
    charges(&mut account, used).then_some(account)
}

/// Whether one charge leaves what as many single units leave.
fn is_so_many_units(q: u64, t: u64, used: u64, k: u64) -> bool {
    let (Some(mut whole), Some(mut single)) = (used_up_to(q, t, used), used_up_to(q, t, used))
    else {
        return false;
    };
    if !single.can_charge(k) {
        return false;
    }
    single.charge_unit_by_unit(k);
    charges(&mut whole, k) && stands(&whole) == stands(&single)
}

const SERVERS: &[(u64, u64)] = &[(1, 1), (1, 7), (2, 10), (3, 10), (5, 5), (8, 1000)];

#[test]
fn a_charge_is_so_many_single_units(rt: HostRuntime) {
    for (q, t) in SERVERS {
        for used in 0..*q {
            for k in 0..40 {
                let is_so = is_so_many_units(*q, *t, used, k);
                same(&rt, (*q, *t, used, k, is_so), (*q, *t, used, k, true));
            }
        }
    }
}
