//! Lists of few values, which are made and taken apart without a branch.
ghost use Rattle.std.specs.Prelude.{◌≡◌, [], ◌∷◌, ◌++◌};

use std::alloc::Global;
use std::process::Abort;

/// One value more.
pub(super) fn put<T: Drop>(rt: &impl Abort, all: &mut Vec<T>, one: T)
    ensures { all.new.items ≡ all.old.items ++ one ∷ [] }
{
    all.push(one).ok().expect(rt, "was memory refused?");
}

/// This one alone.
pub(super) fn one_of<T: Drop>(rt: &impl Abort, alloc: Global, only: T) -> Vec<T>
    ensures { result.items ≡ only ∷ [] }
{
    let mut all = Vec::new(alloc);
    put(rt, &mut all, only);
    all
}

/// These two.
pub(super) fn two_of<T: Drop>(rt: &impl Abort, alloc: Global, first: T, second: T) -> Vec<T>
    ensures { result.items ≡ first ∷ second ∷ [] }
{
    let mut all = Vec::new(alloc);
    put(rt, &mut all, first);
    put(rt, &mut all, second);
    all
}

/// The last value, or the only one.
pub(super) fn sole<T: Drop>(rt: &impl Abort, all: Vec<T>) -> T
    ensures { (one : T) → all.items ≡ one ∷ [] → result ≡ one }
{
    let mut all = all;
    all.pop().expect(rt, "one is missing")
}

/// The last two, or both.
pub(super) fn both<T: Drop>(rt: &impl Abort, all: Vec<T>) -> (T, T)
    ensures { (one other : T) → all.items ≡ one ∷ other ∷ []
        → (result.0 ≡ one) × (result.1 ≡ other) }
{
    let mut all = all;
    let other = all.pop().expect(rt, "the second is missing");
    let one = all.pop().expect(rt, "the first is missing");
    (one, other)
}
