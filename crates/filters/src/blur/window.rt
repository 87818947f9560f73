//! The means of the squares that begin at each column, from the sums of the columns.
//!
//! A sum of up to 15 columns fits 16 bits, and loops over 16 bits are compiled to vectors of eight: so no
//! sum slides, and each square is summed afresh, from groups of four columns where it is wide.

ghost use Rattle.std.specs.Prelude.{◌≡◌, ◌+◌, ◌-◌, ◌*◌, ◌/◌, ◌≤◌, ◌<◌, ℕ, length, slice_index};
ghost use Rattle.filters.specs.Blur.{side, sum_below};
ghost use Rattle.filters.specs.BlurInside.{AreFours, AreMeans, AreSquares};

use crate::limits::MOST_RADIUS;

/// The rounded mean of a square of up to 15 columns, from its sum. The compiler knows `SIDE`, so that it need
/// not divide.
fn mean<const SIDE: usize>(sum: u16) -> u8
    requires positive_side { 0 < SIDE }
    requires small_side { SIDE ≤ 15 }
    requires bytes { sum ≤ 255 * (SIDE * SIDE) }
    ensures { result ≡ (sum + SIDE * SIDE / 2) / (SIDE * SIDE) }
{
    match SIDE {
        5 => mean_of_25(sum),
        7 => mean_of_49(sum),
        _ => {
            let count = (SIDE * SIDE) as u16;
            ((sum + count / 2) / count) as u8
        }
    }
}

/// The upper half of a product.
fn upper_product(a: u16, b: u16) -> u16
    ensures { result ≡ a * b / 65536 }
{
    (a as u32 * b as u32 / 65536) as u16
}

/// The rounded mean of 25 samples, as `mean` has it: the compiler takes twice the steps for this division.
fn mean_of_25(sum: u16) -> u8
    requires { sum ≤ 6375 }
    ensures { result ≡ (sum + 12) / 25 }
{
    ((upper_product(sum, 41944) + 8) / 16) as u8
}

/// The rounded mean of 49 samples.
fn mean_of_49(sum: u16) -> u8
    requires { sum ≤ 12495 }
    ensures { result ≡ (sum + 24) / 49 }
{
    ((upper_product(sum, 42800) + 16) / 32) as u8
}

/// A 289th of a sum of two parts. The sum may exceed 16 bits; what is above 57,800, which 289 divides, is
/// divided apart.
fn quotient_of_parts(one: u16, other: u16) -> u8
    requires fits { one + other < 256 * 289 }
    requires most { other ≤ 57800 }
    ensures { result ≡ (one + other) / 289 }
{
    let part = one.saturating_add(other).min(57800);
    let rest = one - (part - other);
    (part / 289 + rest / 289) as u8
}

/// The sum of `COUNT` columns from `x` on.
#[tactic(auto, using(crate::proofs::BlurSums::sum_below_more))]
fn columns_sum<const COUNT: usize>(columns: &[u16], x: usize) -> u16
    requires few_columns { COUNT ≤ 15 }
    requires inside { x + COUNT ≤ length columns.now }
    requires small { (k : ℕ) → k < length columns.now → slice_index columns.now k ≤ 4335 }
    ensures { result ≡ sum_below (λ j. slice_index columns.now (x + j)) COUNT }
{
    let mut sum = 0;
    for j in 0..COUNT {
        sum += columns[x + j];
    }
    sum
}

/// The sum of `COUNT` groups of four columns, from `x` on.
#[tactic(auto, using(crate::proofs::BlurSums::sum_below_more))]
fn fours_sum<const COUNT: usize>(fours: &[u16], x: usize) -> u16
    requires few_fours { COUNT ≤ 3 }
    requires inside { x + 4 * COUNT ≤ length fours.now + 3 }
    requires small { (k : ℕ) → k < length fours.now → slice_index fours.now k ≤ 17340 }
    ensures { result ≡ sum_below (λ g. slice_index fours.now (x + 4 * g)) COUNT }
{
    let mut sum = 0;
    for g in 0..COUNT {
        sum += fours[x + 4 * g];
    }
    sum
}

/// Sets each of `fours` to the sum of the four columns from its place on.
fn add_fours(columns: &[u16], fours: &mut [u16])
    requires sized { length fours.old + 3 ≡ length columns.now }
    requires small { (k : ℕ) → k < length columns.now → slice_index columns.now k ≤ 4335 }
    ensures { AreFours columns.now fours.new }
{
    for x in 0..fours.len() {
        fours[x] = columns_sum::<4>(columns, x);
    }
}

/// The rounded means of the squares of `SIDE` columns that begin at each place.
fn narrow_means<const SIDE: usize>(columns: &[u16], target: &mut [u8])
    requires positive_side { 0 < SIDE }
    requires small_side { SIDE ≤ 15 }
    requires squares { AreSquares SIDE (length target.old) columns.now }
    ensures { AreMeans SIDE columns.now target.new }
{
    for x in 0..target.len() {
        target[x] = mean::<SIDE>(columns_sum::<SIDE>(columns, x));
    }
}

/// As `narrow_means`, where `SIDE` is `4 * FOURS + REST`, from the sums of four columns.
fn wide_means<const SIDE: usize, const FOURS: usize, const REST: usize>(
    columns: &[u16],
    fours: &[u16],
    target: &mut [u8],
)
    requires parts { SIDE ≡ 4 * FOURS + REST }
    requires positive_rest { 0 < REST }
    requires small_side { SIDE ≤ 15 }
    requires squares { AreSquares SIDE (length target.old) columns.now }
    requires fours { AreFours columns.now fours.now }
    ensures { AreMeans SIDE columns.now target.new }
{
    for x in 0..target.len() {
        let sum = fours_sum::<FOURS>(fours, x) + columns_sum::<REST>(columns, x + 4 * FOURS);
        target[x] = mean::<SIDE>(sum);
    }
}

/// As `wide_means`, for the widest square, of 17 columns, whose sum may exceed 16 bits.
fn widest_means(columns: &[u16], fours: &[u16], target: &mut [u8])
    requires squares { AreSquares 17 (length target.old) columns.now }
    requires fours { AreFours columns.now fours.now }
    ensures { AreMeans 17 columns.now target.new }
{
    for x in 0..target.len() {
        let one = fours_sum::<2>(fours, x);
        let other = fours_sum::<2>(fours, x + 8) + columns[x + 16] + 144;
        target[x] = quotient_of_parts(one, other);
    }
}

/// The rounded means of the squares of columns that begin at each place, by their radius. `fours` is written
/// over.
pub fn mean_squares(columns: &[u16], radius: usize, fours: &mut [u16], target: &mut [u8])
    requires reach { 1 ≤ radius }
    requires small { radius ≤ MOST_RADIUS }
    requires squares { AreSquares (side radius) (length target.old) columns.now }
    requires fours { length fours.old ≡ length columns.now }
    ensures { AreMeans (side radius) columns.now target.new }
{
    match radius {
        1 => return narrow_means::<3>(columns, target),
        2 => return narrow_means::<5>(columns, target),
        3 => return narrow_means::<7>(columns, target),
        _ => {}
    }
    let fours = &mut fours[..columns.len() - 3];
    add_fours(columns, fours);
    match radius {
        4 => wide_means::<9, 2, 1>(columns, fours, target),
        5 => wide_means::<11, 2, 3>(columns, fours, target),
        6 => wide_means::<13, 3, 1>(columns, fours, target),
        7 => wide_means::<15, 3, 3>(columns, fours, target),
        _ => widest_means(columns, fours, target),
    }
}
