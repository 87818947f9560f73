//! Rows of samples, each through a function of one sample.
ghost use Rattle.std.specs.Prelude.{◌≡◌, ◌-◌, ℕ, length, map, nat_le, min, max, if◌then◌else◌};

/// What samples become, each for itself. A table that is new is one more of these: the loops over rows are
/// proved for all of them.
pub trait Mapping: Copy {
    ghost entry: { Self → ℕ → ℕ };

    /// What `v` becomes.
    fn of(self, v: u8) -> u8
        ensures { result ≡ entry self v };
}

/// 255 less the sample.
#[derive(Clone, Copy)]
pub struct Inverted;

impl Mapping for Inverted {
    ghost entry = { λ m v. 255 - v };

    fn of(self, v: u8) -> u8 {
        255 - v
    }
}

/// 255 from this sample on, and 0 below it.
#[derive(Clone, Copy)]
pub struct AtLeast(pub u8);

impl Mapping for AtLeast {
    ghost entry = { λ m v. if nat_le m.0 v then 255 else 0 };

    fn of(self, v: u8) -> u8 {
        if v >= self.0 { 255 } else { 0 }
    }
}

/// At least `low`, and then at most `high`.
#[derive(Clone, Copy)]
pub struct Within {
    pub low: u8,
    pub high: u8,
}

impl Mapping for Within {
    ghost entry = { λ m v. min (max v m.low) m.high };

    fn of(self, v: u8) -> u8 {
        v.max(self.low).min(self.high)
    }
}

/// Writes what the samples of a row become into another row.
pub fn map_row<M: Mapping>(mapping: M, source: &[u8], target: &mut [u8])
    requires { length source.now ≡ length target.old }
    ensures { target.new ≡ map (M.entry mapping) source.now }
{
    for i in 0..source.len() {
        target[i] = mapping.of(source[i]);
    }
}

/// Puts what the samples become in their places.
pub fn map_in_place<M: Mapping>(mapping: M, samples: &mut [u8])
    ensures { samples.new ≡ map (M.entry mapping) samples.old }
{
    for i in 0..samples.len() {
        samples[i] = mapping.of(samples[i]);
    }
}
