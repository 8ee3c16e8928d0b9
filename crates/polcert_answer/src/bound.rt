//! The two kinds of bounds, lower and upper ones, as a run takes them.
ghost use Rattle.std.specs.Prelude.{◌≡◌, ℤ, IfOk, IfErr};
ghost use Rattle.polcert_model.specs.Contents.{meaning};
ghost use Rattle.polcert_check.specs.Horizon.{Controller};
ghost use Rattle.polcert_check.specs.Verdict.{NamesSmallAmount};
ghost use Rattle.polcert_check.specs.Above.{NamesSmallAmountAbove};
ghost use Rattle.polcert_answer.specs.Lines.{line_text};
ghost use Rattle.polcert_answer.specs.Side.{Side, below, above};
ghost use Rattle.polcert_answer.specs.Steps.Reading.{AreMoved, FitGiven, controller_given};
ghost use Rattle.polcert_answer.specs.Steps.Laws.{SideLaws};

use crate::fault::RunFault;
use crate::lines::VerdictLine;
use crate::runs::Inputs;
use polcert_check::{
    AboveVerdict, LowerFault, Progress, RaiseFault, Verdict, check_above_watched, check_watched,
    lowered_watched, millionths_short, raised_watched, start_most, start_worth,
};
use polcert_policy::Vectors;
use polcert_text::Rounding;
use std::alloc::Global;

/// Checks and moves vectors that are to bound what a graph earns from one side.
pub trait Bound {
    /// What a check finds.
    type Verdict: Copy;

    /// Why vectors can't be moved so that they pass.
    type Fault: Copy;

    // What is said from this side.
    ghost side: { Side Self.Verdict Self.Fault };

    // How large an amount a verdict names.
    ghost is_small: { Controller → Self.Verdict → Type 0 };

    /// Returns how the vectors' values are rounded when they are read: down for lower bounds, up for upper ones.
    fn rounding() -> Rounding
        ensures { result ≡ side.rounding };

    /// Returns the verdict on the vectors as bounds from this side.
    fn check<O: Progress>(given: &Inputs, progress: &mut O) -> Self::Verdict
        requires { FitGiven given.now }
        ensures verdict { side.Is (controller_given given.now) result }
        ensures small { is_small (controller_given given.now) result };

    /// Returns what the line of a verdict says: for a yes what nodes are worth from the start, for a no the pair and by how much it fails.
    fn line(given: &Inputs, verdict: Self::Verdict) -> VerdictLine
        requires fits { FitGiven given.now }
        requires verdict { side.Is (controller_given given.now) verdict }
        requires small { is_small (controller_given given.now) verdict }
        ensures { side.IsLine (meaning given.now.model) (controller_given given.now)
            given.now.vectors verdict (line_text result) };

    /// Returns the least constant, in millionths, by which the vectors can be moved so that they pass, and the moved vectors.
    fn moved<O: Progress>(
        alloc: Global,
        given: &Inputs,
        progress: &mut O,
    ) -> Result<(i64, Vectors), Self::Fault>
        requires { FitGiven given.now }
        ensures moved { IfOk result
            (AreMoved side (meaning given.now.model) given.now.graph given.now.vectors) }
        ensures not_moved { IfErr result (side.IsReason (controller_given given.now) given.now.vectors) };

    /// Returns the fault with which a run ends if the vectors can't be moved.
    fn run_fault(fault: Self::Fault) -> RunFault
        ensures { result ≡ side.run_fault fault };

    /// Does nothing. The runs call it so that their proofs know its contract, the laws of the side.
    fn laws()
        ensures { SideLaws side };
}

/// Lower bounds: checked from below, and lowered so that they pass.
pub struct Lower;

/// Upper bounds: checked from above, and raised so that they pass.
pub struct Upper;

impl Bound for Lower {
    type Verdict = Verdict;

    type Fault = LowerFault;

    ghost side = { below };

    ghost is_small = { NamesSmallAmount };

    fn rounding() -> Rounding {
        Rounding::Down
    }

    fn check<O: Progress>(given: &Inputs, progress: &mut O) -> Verdict {
        check_watched(&given.model, &given.graph, &given.vectors, progress)
    }

    fn line(given: &Inputs, verdict: Verdict) -> VerdictLine {
        match verdict {
            Verdict::Yes => {
                let (node, worth) = start_worth(&given.model, &given.graph, &given.vectors);
                VerdictLine::AtLeast { node, worth }
            }
            Verdict::Short {
                node,
                state,
                amount,
            } => {
                let by = millionths_short(&given.model, amount);
                VerdictLine::Short { node, state, by }
            }
            Verdict::NoSuccessor {
                node,
                state,
                observation,
            } => VerdictLine::NoSuccessor {
                node,
                state,
                observation,
            },
        }
    }

    fn moved<O: Progress>(
        alloc: Global,
        given: &Inputs,
        progress: &mut O,
    ) -> Result<(i64, Vectors), LowerFault> {
        lowered_watched(alloc, &given.model, &given.graph, &given.vectors, progress)
    }

    fn run_fault(fault: LowerFault) -> RunFault {
        RunFault::Lower(fault)
    }

    fn laws() {}
}

impl Bound for Upper {
    type Verdict = AboveVerdict;

    type Fault = RaiseFault;

    ghost side = { above };

    ghost is_small = { NamesSmallAmountAbove };

    fn rounding() -> Rounding {
        Rounding::Up
    }

    fn check<O: Progress>(given: &Inputs, progress: &mut O) -> AboveVerdict {
        check_above_watched(&given.model, &given.graph, &given.vectors, progress)
    }

    fn line(given: &Inputs, verdict: AboveVerdict) -> VerdictLine {
        match verdict {
            AboveVerdict::Yes => {
                let most = start_most(&given.model, &given.graph, &given.vectors);
                VerdictLine::AtMost { most }
            }
            AboveVerdict::Long {
                node,
                state,
                amount,
            } => {
                let by = millionths_short(&given.model, amount);
                VerdictLine::Long { node, state, by }
            }
            AboveVerdict::NoSuccessor {
                node,
                state,
                observation,
            } => VerdictLine::NoSuccessor {
                node,
                state,
                observation,
            },
        }
    }

    fn moved<O: Progress>(
        alloc: Global,
        given: &Inputs,
        progress: &mut O,
    ) -> Result<(i64, Vectors), RaiseFault> {
        raised_watched(alloc, &given.model, &given.graph, &given.vectors, progress)
    }

    fn run_fault(fault: RaiseFault) -> RunFault {
        RunFault::Raise(fault)
    }

    fn laws() {}
}
