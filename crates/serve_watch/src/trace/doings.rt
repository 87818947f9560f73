//! What a client does, one thing after the other.
ghost use Rattle.std.specs.Prelude.{◌≡◌, ◌≤◌, IfNone, IfSome, max};
ghost use Rattle.serve_watch.specs.declared.trace.record.Doing.TheVariants.{Waiting};

use super::record::Doing;

/// What a client did from one time to another.
#[derive(Clone, Copy)]
pub struct Stretch {
    pub doing: Doing,
    pub begin: u64,
    pub end: u64,
    ghost order: { begin ≤ end },
}

/// What a client does, since when, and up to when that is known. Times don't go back here.
#[derive(Clone, Copy)]
pub struct Doings {
    doing: Doing,
    since: u64,
    until: u64,
    ghost order: { since ≤ until },
}

impl Doings {
    /// It waits, since this time.
    pub fn new(now: u64) -> Doings
        ensures doing { result.doing ≡ Waiting }
        ensures since { result.since ≡ now }
    {
        Doings {
            doing: Doing::Waiting,
            since: now,
            until: now,
        }
    }

    /// What it does.
    pub fn doing(&self) -> Doing
        ensures { result ≡ self.now.doing }
    {
        self.doing
    }

    /// It begins something now. Where that is something else, this is what it did until then: what it did
    /// before, and then it waited. What is begun again goes on.
    pub fn begin(&mut self, doing: Doing, now: u64) -> Option<(Stretch, Stretch)>
        ensures doing { self.new.doing ≡ doing }
        ensures goes_on { IfNone result ((self.old.doing ≡ doing) × (self.new.since ≡ self.old.since)) }
        ensures before { IfSome result (λ parts.
            (parts.0.doing ≡ self.old.doing) × (parts.0.begin ≡ self.old.since)) }
        ensures between { IfSome result (λ parts.
            (parts.1.doing ≡ Waiting) × (parts.1.begin ≡ parts.0.end) × (parts.1.end ≡ self.new.since)) }
        ensures now { IfSome result (λ _. self.new.since ≡ max self.old.until now) }
    {
        let now = now.max(self.until);
        if self.doing == doing {
            self.until = now;
            return None;
        }
        let (before, since) = (self.doing, self.since);
        let end = if before == Doing::Waiting {
            now
        } else {
            self.until
        };
        *self = Doings {
            doing,
            since: now,
            until: now,
        };
        let before = Stretch {
            doing: before,
            begin: since,
            end,
        };
        let between = Stretch {
            doing: Doing::Waiting,
            begin: end,
            end: now,
        };
        Some((before, between))
    }

    /// It has come back from what it began.
    pub fn come_back(&mut self, now: u64)
        ensures same { (self.new.doing ≡ self.old.doing) × (self.new.since ≡ self.old.since) }
        ensures until { self.new.until ≡ max self.old.until now }
    {
        self.until = self.until.max(now);
    }

    /// What it began is done, and from now on it waits. This is what it did.
    pub fn end(&mut self, now: u64) -> Stretch
        ensures done { (result.doing ≡ self.old.doing) × (result.begin ≡ self.old.since) }
        ensures now { (result.end ≡ max self.old.until now) × (self.new.since ≡ result.end) }
        ensures waits { self.new.doing ≡ Waiting }
    {
        let now = now.max(self.until);
        let done = Stretch {
            doing: self.doing,
            begin: self.since,
            end: now,
        };
        *self = Doings::new(now);
        done
    }
}
