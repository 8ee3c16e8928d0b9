//! What a controller is worth from the worst of the starts near a model's.
ghost use Rattle.std.specs.Prelude.{◌≡◌, ◌*◌, ◌<◌, ◌≤◌, ◌^◌, ℕ, ℤ, pos, ◌*ℤ◌, length, unsigned_abs};
ghost use Rattle.polcert_text.specs.Numbers.{largest};
ghost use Rattle.polcert_cells.specs.Meaning.{start_total, states_of};
ghost use Rattle.polcert_cells.specs.Tables.{CellTable, table_of};
ghost use Rattle.polcert_cells.specs.declared.elements.TheConstants.{MOST_STATES};
ghost use Rattle.polcert_model.specs.Contents.{meaning};
ghost use Rattle.polcert_policy.specs.Graphs.{nodes};
ghost use Rattle.polcert_policy.specs.Vectors.{value_of};
ghost use Rattle.polcert_check.specs.Above.{MeetsEveryHorizonAbove};
ghost use Rattle.polcert_check.specs.Horizon.{Fits, MeetsEveryHorizon, controller_of};
ghost use Rattle.polcert_check.specs.StartWorth.{IsCeilQuotient, IsFloorQuotient};
ghost use Rattle.polcert_robust.specs.Start.{IsAtMostFrom, IsBestNodeNear, IsStartMostNear, IsStartNear, IsStartWorthNear, IsWorthFrom, scaled_start_total, scaled_start_weight, start_multiple};
ghost use Rattle.polcert_robust.specs.Worst.{within_model};
ghost use Rattle.polcert_robust.specs.Steps.Holding.{HoldsRow};
ghost use Rattle.polcert_robust.specs.Steps.Sides.{turned};
ghost use Rattle.polcert_robust.specs.Steps.Starts.{IsMeanFromStart, start_of, states_in, total_in, vectors_in};

use crate::distance::Spread;
use crate::level::{WorthRow, least_mean};
use crate::side::Side;
use crate::start_input::StartInput;
use polcert_cells::MOST_STATES;
use polcert_model::Model;
use polcert_policy::{Graph, Vectors};

/// Returns the factor that scales a model's shares up: how often their total goes into 10,000,000,000.
fn start_multiple(model: &Model) -> u64
    ensures is { result ≡ start_multiple (meaning model.now) }
    ensures some { 0 < result }
    ensures small { start_total (meaning model.now) * result ≤ 10_000_000_000 }
{
    10_000_000_000 / model.start_total()
}

/// Returns the total of a model's start after its shares are scaled up, at most 10,000,000,000: distances of starts are told in parts of
/// it.
pub fn scaled_start_total(model: &Model) -> u64
    ensures is { result ≡ scaled_start_total (meaning model.now) }
    ensures some { 0 < result }
    ensures small { result ≤ 10_000_000_000 }
{
    model.start_total() * start_multiple(model)
}

/// Gathers the weight of each state in the start, and the value of node `n` there, turned to one side.
fn gather_start(input: &StartInput<'_>, n: usize, weights: &mut [u64], values: &mut [i128])
    requires node { n < (vectors_in input.now).nodes }
    requires weights { states_in input.now ≤ length weights.old }
    requires values { states_in input.now ≤ length values.old }
    ensures { HoldsRow (λ s v. v ≡ turned input.now.side (value_of (vectors_in input.now) n s))
        (scaled_start_weight (start_of input.now)) (states_in input.now) largest
        weights.new values.new (states_in input.now) }
{
    let multiple = start_multiple(input.model);
    for s in 0..input.model.states() {
        weights[s] = input.model.start_weight(s) * multiple;
        values[s] = input.side.turned(input.vectors.at(n, s)) as i128;
    }
}

/// Returns the least mean of node `n`'s values over the starts near the model's, from above the greatest, times the total of the weights.
fn mean_from_start(
    input: &StartInput<'_>,
    n: usize,
    weights: &mut [u64],
    values: &mut [i128],
) -> i128
    requires node { n < (vectors_in input.now).nodes }
    requires weights { states_in input.now ≤ length weights.old }
    requires values { states_in input.now ≤ length values.old }
    ensures is { IsMeanFromStart input.now.side (start_of input.now) input.now.by
        (value_of (vectors_in input.now) n) result }
    ensures small { unsigned_abs result ≤ total_in input.now * largest }
{
    gather_start(input, n, weights, values);
    let row = WorthRow {
        weights,
        values,
        count: input.model.states(),
        by: input.by,
        scale: scaled_start_total(input.model),
        bound: 10_000_000_000_000,
    };
    input.side.turned_mean(least_mean(&row))
}

/// Returns the first node whose mean is greatest, and that mean.
// (Not inlined, so that its rows and the buffers of a check are never on the stack at the same time.)
#[inline(never)]
fn best_node_near(input: &StartInput<'_>) -> (usize, i128)
    ensures best { IsBestNodeNear (IsMeanFromStart input.now.side (start_of input.now) input.now.by)
        (vectors_in input.now) (vectors_in input.now).nodes result.0 result.1 }
    ensures small { unsigned_abs result.1 ≤ total_in input.now * largest }
{
    let mut weights = [0; MOST_STATES];
    let mut values = [0; MOST_STATES];
    let nodes = input.vectors.nodes();
    let mut best = 0;
    let mut greatest = mean_from_start(input, 0, &mut weights, &mut values);
    for n in 1..nodes {
        let mean = mean_from_start(input, n, &mut weights, &mut values);
        if mean > greatest {
            best = n;
            greatest = mean;
        }
    }
    (best, greatest)
}

/// Returns a mean over the total of the weights, rounded down.
fn mean_rounded_down(mean: i128, total: u64) -> i64
    requires some { 0 < total }
    requires few { total ≤ 10_000_000_000 }
    requires small { unsigned_abs mean ≤ total * largest }
    ensures floor { IsFloorQuotient mean total result }
    ensures small { unsigned_abs result ≤ largest }
{
    mean.div_euclid(total as i128) as i64
}

/// Returns a mean over the total of the weights, rounded up.
fn mean_rounded_up(mean: i128, total: u64) -> i64
    requires some { 0 < total }
    requires few { total ≤ 10_000_000_000 }
    requires small { unsigned_abs mean ≤ total * largest }
    ensures { IsCeilQuotient mean total result }
{
    -mean_rounded_down(-mean, total)
}

/// Returns the node that is worth most from its worst start near the model's, and its worth there, in millionths, rounded down.
///
/// A start is near if each share above 0 is within `by`, on the scale of `scaled_start_total`; a share of 0 stays 0. A node is worth the
/// mean of its values. If nodes are worth exactly the same it is the first of them. It takes no memory.
pub fn start_worth_near(model: &Model, graph: &Graph, vectors: &Vectors, by: Spread) -> (usize, i64)
    requires fits { Fits (table_of (meaning model.now)) graph.now vectors.now }
    requires near { by.parts ≤ 10_000_000_000 }
    requires percent { by.percent ≤ 100_000_000 }

    // The first node whose mean under a worst start is greatest, and that mean, rounded down.
    ensures worth { IsStartWorthNear (meaning model.now) by vectors.now result.0 result.1 }

    // In each model that meets the promise no less is expected of the node, from each start near, for every
    // number of steps.
    ensures promise { (parts : ℕ) (m : CellTable) → m.states ≡ states_of (meaning model.now) →
        MeetsEveryHorizon (within_model
        (controller_of (table_of (meaning model.now)) graph.now vectors.now) parts m) →
        (shares : ℕ → ℕ) (total : ℕ) → IsStartNear (meaning model.now) by shares total →
        (k : ℕ) → IsWorthFrom (within_model
        (controller_of (table_of (meaning model.now)) graph.now vectors.now) parts m)
        shares total k result.0 (pos parts *ℤ result.1) }
{
    let node_count = graph.nodes();
    let vector_count = vectors.nodes();
    prove!(node_count == vector_count);
    let input = StartInput {
        model,
        vectors,
        by,
        side: Side::Below,
    };
    let (node, mean) = best_node_near(&input);
    (node, mean_rounded_down(mean, scaled_start_total(model)))
}

/// Returns what no node is worth more than from any start near the model's, in millionths, rounded up.
///
/// What `start_worth_near` says of starts near and of worth holds here too. It takes no memory.
pub fn start_most_near(model: &Model, graph: &Graph, vectors: &Vectors, by: Spread) -> i64
    requires fits { Fits (table_of (meaning model.now)) graph.now vectors.now }
    requires near { by.parts ≤ 10_000_000_000 }
    requires percent { by.percent ≤ 100_000_000 }

    // The greatest of all nodes' means under any start near, rounded up.
    ensures most { IsStartMostNear (meaning model.now) by vectors.now result }

    // In each model that meets the promise from above no more is expected of any node, from each start near,
    // for every number of steps.
    ensures promise { (parts : ℕ) (m : CellTable) → m.states ≡ states_of (meaning model.now) →
        MeetsEveryHorizonAbove (within_model
        (controller_of (table_of (meaning model.now)) graph.now vectors.now) parts m) →
        (shares : ℕ → ℕ) (total : ℕ) → IsStartNear (meaning model.now) by shares total →
        (k n : ℕ) → n < nodes graph.now → IsAtMostFrom (within_model
        (controller_of (table_of (meaning model.now)) graph.now vectors.now) parts m)
        shares total k n (pos parts *ℤ result) }
{
    let node_count = graph.nodes();
    let vector_count = vectors.nodes();
    prove!(node_count == vector_count);
    let input = StartInput {
        model,
        vectors,
        by,
        side: Side::Above,
    };
    let (_, mean) = best_node_near(&input);
    mean_rounded_up(mean, scaled_start_total(model))
}
