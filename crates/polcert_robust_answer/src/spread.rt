//! The distances that were typed, on the scales of a model.
ghost use Rattle.std.specs.Prelude.{◌≡◌, ◌≤◌};
ghost use Rattle.polcert_cells.specs.Meaning.{observations_of, states_of};
ghost use Rattle.polcert_model.specs.Contents.{meaning};
ghost use Rattle.polcert_robust_answer.specs.Distances.{parts_at, parts_of_row};
ghost use Rattle.polcert_robust_answer.specs.Lines.{start_by};
ghost use Rattle.polcert_robust_answer.specs.Near.{spread_within};

use crate::within::Within;
use polcert_model::Model;
use polcert_robust::{Distance, Spread, scaled_start_total};

/// Returns how far the weights of rows with this many columns may lie from their own.
fn spread_in(within: &Within<'_>, columns: usize) -> Spread
    requires columns { columns ≤ 10_000 }
    ensures is { result ≡ spread_within within.now columns }
    ensures small { result.parts ≤ 10_000_000_000 }
{
    Spread {
        parts: parts_of_row(within.by, columns),
        percent: within.percent,
    }
}

/// Returns a distance in whole parts of the scale of a row with this many columns, rounded up.
fn parts_of_row(by: u64, columns: usize) -> u64
    requires by { by ≤ 1_000_000_000_000 }
    requires columns { columns ≤ 10_000 }
    ensures is { result ≡ parts_of_row by columns }
    ensures small { result ≤ 10_000_000_000 }
{
    (by * columns as u64 + 999_999) / 1_000_000
}

/// Returns how far models may lie from the text's, in parts of the scales of its rows, rounded up.
pub(crate) fn distance_in(model: &Model, within: &Within<'_>) -> Distance
    ensures t_by { result.t_by ≡ spread_within within.now (states_of (meaning model.now)) }
    ensures o_by { result.o_by ≡ spread_within within.now (observations_of (meaning model.now)) }
    ensures r_by { result.r_by ≡ within.now.rewards_by }
{
    Distance {
        t_by: spread_in(within, model.states()),
        o_by: spread_in(within, model.observations()),
        r_by: within.rewards_by,
    }
}

/// Returns a distance in whole parts of a scale, rounded up.
fn parts_at(by: u64, scale: u64) -> u64
    requires by { by ≤ 1_000_000_000_000 }
    requires scale { scale ≤ 10_000_000_000 }
    ensures is { result ≡ parts_at by scale }
    ensures small { result ≤ 10_000_000_000 }
{
    ((by as u128 * scale as u128 + 999_999_999_999) / 1_000_000_000_000) as u64
}

/// Returns how far the shares of starts may lie from the model's, in parts of its scaled total.
pub(crate) fn start_distance_in(model: &Model, within: &Within<'_>) -> Spread
    ensures is { result ≡ start_by within.now (meaning model.now) }
    ensures small { result.parts ≤ 10_000_000_000 }
    ensures percent { result.percent ≤ 100_000_000 }
{
    Spread {
        parts: parts_at(within.by, scaled_start_total(model)),
        percent: within.percent,
    }
}
