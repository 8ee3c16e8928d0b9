//! Sums over a row that has the same weight in all columns but for exceptions: all numbers are weighed at once, and then the exceptions.
ghost use Rattle.std.specs.Prelude.{◌≡◌, ◌*◌, ◌^◌, ◌<◌, ◌≤◌, ◌+◌, ℕ, ℤ, pos, ◌*ℤ◌, ◌-ℤ◌, unsigned_abs, length, slice_index_or};
ghost use Rattle.polcert_cells.specs.Elements.{most_elements};
ghost use Rattle.polcert_text.specs.Numbers.{largest};
ghost use Rattle.polcert_check.specs.Horizon.{total_below};
ghost use Rattle.polcert_check.specs.Steps.Products.{IsEvenSum};

use crate::expected_reward::weigh;
use polcert_cells::Cell;

/// Returns the number in 128 bits.
#[inline(always)]
pub(crate) fn wide(number: i64) -> i128
    ensures same { result ≡ number }
    ensures small { unsigned_abs result ≤ 2 ^ 63 }
{
    number as i128
}

/// Returns the sum of the first numbers.
pub(crate) fn total_of(numbers: &[i64], count: usize) -> i64
    requires few { count ≤ most_elements }
    requires room { count ≤ length numbers.now }
    requires limited { (z : ℕ) → z < count → unsigned_abs (slice_index_or numbers.now z (pos 0)) ≤ largest }
    ensures sum { result ≡ total_below (λ c. slice_index_or numbers.now c (pos 0)) count }
    ensures small { unsigned_abs result ≤ count * largest }
{
    let mut sum: i64 = 0;
    for i in 0..count {
        sum += numbers[i];
    }
    sum
}

/// Returns by how much a number has more weight than if it had the common one.
#[inline(always)]
fn gain(weight: u64, common: u64, number: i64) -> i128
    requires weight { weight ≤ 2 ^ 34 }
    requires common { common ≤ 2 ^ 34 }
    ensures value { result ≡ pos weight *ℤ number -ℤ pos common *ℤ number }
    ensures small { unsigned_abs result ≤ 2 ^ 98 }
{
    weigh(weight, wide(number)) - weigh(common, wide(number))
}

/// Returns the sum of the weights of a row, each times the number of its column. All numbers sum to `total`.
pub(crate) fn sum_of_even(weight: u64, exceptions: &[Cell], numbers: &[i64], total: i128) -> i128
    requires { (f : ℕ → ℕ) × (count : ℕ) × IsEvenSum f count weight exceptions.now numbers.now total }
    ensures { (f : ℕ → ℕ) (count : ℕ) → IsEvenSum f count weight exceptions.now numbers.now total →
        result ≡ total_below (λ c. pos (f c) *ℤ slice_index_or numbers.now c (pos 0)) count }
{
    let mut sum = weigh(weight, total);
    for i in 0..exceptions.len() {
        let cell = exceptions[i];
        sum += gain(cell.weight, weight, numbers[cell.column]);
    }
    sum
}
