//! What policies that see the start state earn at most from a model's start.
ghost use Rattle.std.specs.Prelude.{◌≡◌, ◌*◌, ◌<◌, ◌≤◌, unsigned_abs};
ghost use Rattle.polcert_text.specs.Numbers.{largest};
ghost use Rattle.polcert_model.specs.Contents.{meaning};
ghost use Rattle.polcert_cells.specs.Meaning.{states_of, start_total};
ghost use Rattle.polcert_policy.specs.Vectors.{AreProperVectors, value_of};
ghost use Rattle.polcert_optimum.specs.Informed.{greatest_below};
ghost use Rattle.polcert_optimum.specs.Seen as seen;
ghost use Rattle.polcert_optimum.specs.Seen.{IsBoundStartMost, IsSeenStartMost};

use polcert_check::from_start::{ceil_mean, start_term};
use polcert_check::most_from_start;
use polcert_model::Model;
use polcert_policy::Vectors;

/// Returns the greatest of the vectors' values at state `s`.
fn greatest_at(vectors: &Vectors, s: usize) -> i64
    requires { s < vectors.now.states }
    ensures is { result ≡ greatest_below (λ n. value_of vectors.now n s) vectors.now.nodes }
    ensures small { unsigned_abs result ≤ largest }
{
    let nodes = vectors.nodes();
    let mut greatest = vectors.at(0, s);
    for n in 1..nodes {
        greatest = greatest.max(vectors.at(n, s));
    }
    greatest
}

/// Returns the sum over the states of their weight in the start times the greatest of the vectors' values there.
fn seen_sum(model: &Model, vectors: &Vectors) -> i128
    requires { vectors.now.states ≡ states_of (meaning model.now) }
    ensures is { result ≡ seen.seen_sum (meaning model.now) vectors.now }
    ensures small { unsigned_abs result ≤ start_total (meaning model.now) * largest }
{
    let _vectors = vectors.nodes();
    let mut sum: i128 = 0;
    for s in 0..model.states() {
        sum += start_term(model.start_weight(s), greatest_at(vectors, s));
    }
    sum
}

/// Returns the mean over the model's start of the greatest of the vectors' values at each state, in millionths, rounded up: what no policy
/// that sees the start state earns more than, where the vectors are informed. It takes no memory.
pub fn seen_most_from_start(model: &Model, vectors: &Vectors) -> i64
    requires { vectors.now.states ≡ states_of (meaning model.now) }

    // That mean, rounded up.
    ensures { IsSeenStartMost (meaning model.now) vectors.now result }
{
    ceil_mean(seen_sum(model, vectors), model.start_total())
}

/// Returns what the line of a yes names: what no policy of the model earns more than from its start, in millionths, rounded up.
///
/// In an MDP the start state is seen, and it is the mean over the start of the greatest of the vectors' values at each state; else it is
/// what none of the vectors is worth more than from the start. It takes no memory.
pub fn bound_most_from_start(model: &Model, vectors: &Vectors) -> i64
    requires { vectors.now.states ≡ states_of (meaning model.now) }
    ensures { IsBoundStartMost (meaning model.now) vectors.now result }
{
    if model.is_mdp() {
        seen_most_from_start(model, vectors)
    } else {
        most_from_start(model, vectors)
    }
}
