//! The least mean of values over the rows within intervals around a row. The row that has it puts weights at the high ends of their
//! intervals up to a level, which is a value, and at the low ends above it.
ghost use Rattle.std.specs.Prelude.{◌≡◌, ◌*ℤ◌, ◌-◌, ◌+◌, ◌*◌, ◌^◌, ◌<◌, ◌≤◌, ◌⊎◌, ℕ, ℤ, pos, neg_ℤ, ◌≤ℤ◌, ◌<ℤ◌, length, unsigned_abs, ◌-ℤ◌, IfSome, IfNone, IsTrue, IsFalse, Some, None};
ghost use Rattle.polcert_cells.specs.Meaning.{sum_below};
ghost use Rattle.polcert_robust.specs.Intervals.{low_of, high_of, spread_of};
ghost use Rattle.polcert_robust.specs.Worst.{mean};
ghost use Rattle.polcert_robust.specs.Steps.Rows.{AreLevels, IsLevelMean, end_until, ends_until, listed_value, listed_weight};

use crate::distance::Spread;

/// Weights above 0 of a row, what a step to each is worth, and how far the row may lie from these weights.
#[derive(Drop)]
pub(crate) struct WorthRow<'a> {
    pub weights: &'a [u64],
    pub values: &'a [i128],
    pub count: usize,
    pub by: Spread,
    pub scale: u64,
    /// No value is larger in size.
    pub bound: u128,
    ghost room_for_weights: { count ≤ length weights.now },
    ghost room_for_values: { count ≤ length values.now },
    ghost few: { count ≤ 10_000 },
    ghost near: { by.parts ≤ 10_000_000_000 },
    ghost near_percent: { by.percent ≤ 100_000_000 },
    ghost sums: { sum_below (listed_weight weights.now) count ≡ scale },
    ghost small_scale: { scale ≤ 10_000_000_000 },
    ghost small: { (i : ℕ) → i < count → unsigned_abs (listed_value values.now i) ≤ bound },
    ghost small_bound: { bound < 2 ^ 126 },
    ghost fits: { scale * bound < 2 ^ 127 },
}

/// This many weights are few: rounds are cheap, and any value serves.
const FEW_WEIGHTS: usize = 8;

/// Two levels around the one that is sought. At the end of the search no value of the row lies between them.
#[derive(Clone, Copy)]
pub(crate) struct Levels {
    pub low: i128,
    pub high: i128,
}

/// Returns how far the weight in a row near by may lie from this one.
fn spread_of(weight: u64, by: Spread) -> u64
    requires weight { weight ≤ 10_000_000_000 }
    requires parts { by.parts ≤ 10_000_000_000 }
    requires percent { by.percent ≤ 100_000_000 }
    ensures is { result ≡ spread_of by weight }
    ensures small { result ≤ 20_000_000_000 }
{
    if by.percent == 0 {
        return by.parts;
    }
    by.parts + (weight * by.percent + 99_999_999) / 100_000_000
}

/// Returns the low end of the interval around a weight: the least that a row near by may have.
fn low_end(weight: u64, by: Spread) -> u64
    requires weight { weight ≤ 10_000_000_000 }
    requires parts { by.parts ≤ 10_000_000_000 }
    requires percent { by.percent ≤ 100_000_000 }
    ensures { result ≡ low_of by weight }
{
    weight.saturating_sub(spread_of(weight, by))
}

/// Returns the high end of the interval around a weight: the most that a row near by may have.
fn high_end(weight: u64, by: Spread) -> u64
    requires weight { weight ≤ 10_000_000_000 }
    requires parts { by.parts ≤ 10_000_000_000 }
    requires percent { by.percent ≤ 100_000_000 }
    ensures is { result ≡ high_of by weight }
    ensures small { result ≤ 30_000_000_000 }
{
    if weight == 0 {
        0
    } else {
        weight + spread_of(weight, by)
    }
}

/// Returns the high end if the value is at most the level, else the low end.
fn end_until(weight: u64, value: i128, by: Spread, level: i128) -> u64
    requires weight { weight ≤ 10_000_000_000 }
    requires parts { by.parts ≤ 10_000_000_000 }
    requires percent { by.percent ≤ 100_000_000 }
    ensures is { result ≡ end_until by level weight value }
    ensures small { result ≤ 30_000_000_000 }
{
    if value <= level {
        high_end(weight, by)
    } else {
        low_end(weight, by)
    }
}

/// Returns the sum of the row whose weights are at their high ends up to this level, and at their low ends above it.
fn sum_until(row: &WorthRow<'_>, level: i128) -> u64
    ensures { result ≡ sum_below (ends_until row.now.by level (listed_weight row.now.weights.now)
        (listed_value row.now.values.now)) row.now.count }
{
    let mut sum: u64 = 0;
    for i in 0..row.count {
        sum += end_until(row.weights[i], row.values[i], row.by, level);
    }
    sum
}

/// Returns whether a value lies between two levels.
fn is_between(value: i128, low: i128, high: i128) -> bool
    ensures between { IsTrue result → (low <ℤ value) × (value <ℤ high) }
    ensures outside { IsFalse result → (value ≤ℤ low) ⊎ (high ≤ℤ value) }
{
    low < value && value < high
}

/// Returns the value that a search for a value should keep: this one if none was found or if it is wanted, else the one that was found.
fn better_found(found: Option<i128>, value: i128, is_wanted: bool) -> Option<i128>
    ensures { (result ≡ Some value) ⊎ ((result ≡ found) × (found ≡ None → ⊥)) }
{
    match found {
        None => Some(value),
        Some(_) => if is_wanted { Some(value) } else { found },
    }
}

/// Returns a value between two levels, if there is one.
///
/// Of many such values it is one of the second half, so that few rounds remain even if the values are in order.
fn value_between(row: &WorthRow<'_>, low: i128, high: i128) -> Option<i128>
    ensures some { IfSome result (λ value. (low <ℤ value) × (value <ℤ high)) }
    ensures none { IfNone result ((i : ℕ) → i < row.now.count →
        (listed_value row.now.values.now i ≤ℤ low) ⊎ (high ≤ℤ listed_value row.now.values.now i)) }
{
    let mut found: Option<i128> = None;
    let mut seen: usize = 0;
    for i in 0..row.count {
        if is_between(row.values[i], low, high) {
            if row.count <= FEW_WEIGHTS {
                return Some(row.values[i]);
            }
            seen += 1;
            found = better_found(found, row.values[i], seen.count_ones() == 1);
        }
    }
    found
}

/// Returns a level below all values, and one that none is above.
fn outer_levels(row: &WorthRow<'_>) -> Levels
    ensures low { result.low ≡ neg_ℤ (pos row.now.bound) -ℤ pos 1 }
    ensures high { result.high ≡ pos row.now.bound }
{
    let high = row.bound as i128;
    Levels {
        low: -high - 1,
        high,
    }
}

/// Returns two levels between whose sums the scale lies, with no value of the row between them.
fn levels_of(row: &WorthRow<'_>) -> Levels
    ensures levels { AreLevels row.now.by row.now.scale row.now.count (listed_weight row.now.weights.now)
        (listed_value row.now.values.now) result.low result.high }
    ensures small { unsigned_abs result.high ≤ row.now.bound }
{
    let outer = outer_levels(row);
    let mut low = outer.low;
    let mut high = outer.high;
    while let Some(value) = value_between(row, low, high) {
        if sum_until(row, value) < row.scale {
            low = value;
        } else {
            high = value;
        }
    }
    Levels { low, high }
}

/// Returns a weight times a number.
pub(crate) fn weigh_number(weight: u64, number: i128) -> i128
    requires weight { weight < 2 ^ 63 }
    requires product { weight * unsigned_abs number < 2 ^ 127 }
    ensures { result ≡ pos weight *ℤ number }
{
    (weight as i64 as i128) * number
}

/// Returns a value of the row times the weight that `sum_until` adds for it.
fn term_until(row: &WorthRow<'_>, i: usize, level: i128) -> i128
    requires place { i < row.now.count }
    requires room { sum_below (ends_until row.now.by level (listed_weight row.now.weights.now)
        (listed_value row.now.values.now)) row.now.count ≤ row.now.scale }
    ensures { result ≡ pos (ends_until row.now.by level (listed_weight row.now.weights.now)
        (listed_value row.now.values.now) i) *ℤ listed_value row.now.values.now i }
{
    let end = end_until(row.weights[i], row.values[i], row.by, level);
    weigh_number(end, row.values[i])
}

/// Returns the mean of the values under the row that `sum_until` sums, times that sum.
fn mean_until(row: &WorthRow<'_>, level: i128) -> i128
    requires room { sum_below (ends_until row.now.by level (listed_weight row.now.weights.now)
        (listed_value row.now.values.now)) row.now.count ≤ row.now.scale }
    ensures is { result ≡ mean (ends_until row.now.by level (listed_weight row.now.weights.now)
        (listed_value row.now.values.now)) (listed_value row.now.values.now) row.now.count }
    ensures small { unsigned_abs result ≤ sum_below (ends_until row.now.by level
        (listed_weight row.now.weights.now) (listed_value row.now.values.now)) row.now.count * row.now.bound }
{
    let mut sum: i128 = 0;
    for i in 0..row.count {
        sum += term_until(row, i, level);
    }
    sum
}

/// Returns the least mean of the values over the rows near this one, times the scale.
pub(crate) fn least_mean(row: &WorthRow<'_>) -> i128
    ensures is { IsLevelMean row.now.by row.now.scale row.now.count (listed_weight row.now.weights.now)
        (listed_value row.now.values.now) result }
    ensures small { unsigned_abs result ≤ row.now.scale * row.now.bound }
{
    let levels = levels_of(row);
    let left = row.scale - sum_until(row, levels.low);
    mean_until(row, levels.low) + weigh_number(left, levels.high)
}
