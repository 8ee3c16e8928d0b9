//! Bounds of either side in every model near the text's, as a run takes them.
ghost use Rattle.std.specs.Prelude.{◌≡◌, ◌*◌, ◌<ℤ◌, pos};
ghost use Rattle.polcert_model.specs.Contents.{meaning};
ghost use Rattle.polcert_check.specs.Horizon.{one, step_scale};
ghost use Rattle.polcert_check.specs.StartWorth.{IsCeilQuotient};
ghost use Rattle.polcert_robust_answer.specs.Lines.{line_text};
ghost use Rattle.polcert_robust_answer.specs.Near.{NearSide, near_above, near_below};
ghost use Rattle.polcert_robust_answer.specs.Steps.Nearby.{FitNear, IsNearAmount, NearLaws, controller_near, near_given};

use crate::inputs::NearInputs;
use crate::lines::NearLine;
use crate::spread::{distance_in, start_distance_in};
use crate::within::Within;
use polcert_check::{AboveVerdict, Progress, Verdict, millionths_short};
use polcert_robust::{
    check_robust_above_watched, check_robust_watched, start_most_near, start_worth_near,
};
use polcert_text::Rounding;

/// Checks vectors that are to bound from one side what a graph earns in every model near the text's.
pub trait NearBound {
    /// What a check finds.
    type Verdict: Copy;

    // What is said from this side.
    ghost side: { NearSide Self.Verdict };

    /// Returns how the vectors' values are rounded when they are read: down for lower bounds, up for upper ones.
    fn rounding() -> Rounding
        ensures { result ≡ side.rounding };

    /// Returns the verdict on the vectors as bounds from this side, in every model near the text's.
    fn check<O: Progress>(
        given: &NearInputs,
        within: &Within<'_>,
        progress: &mut O,
    ) -> Self::Verdict
        requires { FitNear given.now }
        ensures verdict { side.Is (near_given within.now given.now) (controller_near given.now) result }
        ensures horizon { side.Meets (near_given within.now given.now) (controller_near given.now) result };

    /// Returns what the line of a verdict says: for a yes what nodes are worth from the start, for a no the pair and by how much it fails.
    fn line(given: &NearInputs, within: &Within<'_>, verdict: Self::Verdict) -> NearLine
        requires fits { FitNear given.now }
        requires verdict { side.Is (near_given within.now given.now) (controller_near given.now) verdict }
        ensures { side.IsLine within.now (meaning given.now.model) (controller_near given.now)
            given.now.vectors verdict (line_text within.now result) };

    /// Does nothing. The runs call it so that their proofs know its contract, the laws of the side.
    fn laws()
        ensures { NearLaws side };
}

/// Lower bounds, checked from below.
pub struct NearLower;

/// Upper bounds, checked from above.
pub struct NearUpper;

/// Returns in millionths, rounded up, by how much a pair fails in the worst case.
fn millionths_near(given: &NearInputs, within: &Within<'_>, amount: i128) -> i64
    requires fits { FitNear given.now }
    requires some { pos 0 <ℤ amount }
    requires is { IsNearAmount within.now given.now amount }
    ensures { IsCeilQuotient amount (step_scale (controller_near given.now) * one) result }
{
    let nodes = given.graph.nodes();
    let vector_count = given.vectors.nodes();
    prove!(nodes == vector_count);
    millionths_short(&given.model, amount)
}

impl NearBound for NearLower {
    type Verdict = Verdict;

    ghost side = { near_below };

    fn rounding() -> Rounding {
        Rounding::Down
    }

    fn check<O: Progress>(given: &NearInputs, within: &Within<'_>, progress: &mut O) -> Verdict {
        let distance = distance_in(&given.model, within);
        check_robust_watched(
            &given.model,
            &given.graph,
            &given.vectors,
            distance,
            progress,
        )
    }

    fn line(given: &NearInputs, within: &Within<'_>, verdict: Verdict) -> NearLine {
        match verdict {
            Verdict::Yes => {
                let by = start_distance_in(&given.model, within);
                let (node, worth) = start_worth_near(
                    &given.model,
                    &given.graph,
                    &given.vectors,
                    by,
                );
                NearLine::AtLeast { node, worth }
            }
            Verdict::Short {
                node,
                state,
                amount,
            } => {
                let by = millionths_near(given, within, amount);
                NearLine::Short { node, state, by }
            }
            Verdict::NoSuccessor {
                node,
                state,
                observation,
            } => NearLine::NoSuccessor {
                node,
                state,
                observation,
            },
        }
    }

    fn laws() {}
}

impl NearBound for NearUpper {
    type Verdict = AboveVerdict;

    ghost side = { near_above };

    fn rounding() -> Rounding {
        Rounding::Up
    }

    fn check<O: Progress>(
        given: &NearInputs,
        within: &Within<'_>,
        progress: &mut O,
    ) -> AboveVerdict {
        let distance = distance_in(&given.model, within);
        check_robust_above_watched(
            &given.model,
            &given.graph,
            &given.vectors,
            distance,
            progress,
        )
    }

    fn line(given: &NearInputs, within: &Within<'_>, verdict: AboveVerdict) -> NearLine {
        match verdict {
            AboveVerdict::Yes => {
                let by = start_distance_in(&given.model, within);
                let most = start_most_near(&given.model, &given.graph, &given.vectors, by);
                NearLine::AtMost { most }
            }
            AboveVerdict::Long {
                node,
                state,
                amount,
            } => {
                let by = millionths_near(given, within, amount);
                NearLine::Long { node, state, by }
            }
            AboveVerdict::NoSuccessor {
                node,
                state,
                observation,
            } => NearLine::NoSuccessor {
                node,
                state,
                observation,
            },
        }
    }

    fn laws() {}
}
