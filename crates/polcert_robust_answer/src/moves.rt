//! Vectors that are moved so that they pass in every model near the text's, as a run takes them.
ghost use Rattle.std.specs.Prelude.{◌≡◌, IfErr, IfOk};
ghost use Rattle.polcert_model.specs.Contents.{meaning};
ghost use Rattle.polcert_robust_answer.specs.Moves.{NearMove, near_lowering, near_raising};
ghost use Rattle.polcert_robust_answer.specs.Steps.Moving.{AreMovedNear, IsReasonNear, NearMoveLaws};
ghost use Rattle.polcert_robust_answer.specs.Steps.Nearby.{FitNear};

use crate::inputs::NearInputs;
use crate::spread::distance_in;
use crate::within::Within;
use polcert_answer::RunFault;
use polcert_check::{LowerFault, Progress, RaiseFault};
use polcert_policy::Vectors;
use polcert_robust::{lowered_robustly, raised_robustly};
use polcert_text::Rounding;
use std::alloc::Global;

/// Moves vectors so that they bound from one side what a graph earns in every model near the text's.
pub trait NearMover {
    /// Why vectors can't be moved so that they pass.
    type Fault: Copy;

    // What is said of the move.
    ghost move_near: { NearMove Self.Fault };

    /// Returns how the vectors' values are rounded when they are read: down for lower bounds, up for upper ones.
    fn rounding() -> Rounding
        ensures { result ≡ move_near.rounding };

    /// Returns the least constant, in millionths, by which the vectors can be moved so that they pass, and the moved vectors.
    fn moved<O: Progress>(
        alloc: Global,
        given: &NearInputs,
        within: &Within<'_>,
        progress: &mut O,
    ) -> Result<(i64, Vectors), Self::Fault>
        requires { FitNear given.now }
        ensures moved { IfOk result
            (AreMovedNear move_near within.now (meaning given.now.model) given.now.graph given.now.vectors) }
        ensures not_moved { IfErr result
            (IsReasonNear move_near within.now (meaning given.now.model) given.now.graph given.now.vectors) };

    /// Returns the fault with which a run ends if the vectors can't be moved.
    fn run_fault(fault: Self::Fault) -> RunFault
        ensures { result ≡ move_near.run_fault fault };

    /// Does nothing. The runs call it so that their proofs know its contract, the laws of the move.
    fn laws()
        ensures { NearMoveLaws move_near };
}

/// Lowers lower bounds so that they pass from below.
pub struct NearLowering;

/// Raises upper bounds so that they pass from above.
pub struct NearRaising;

impl NearMover for NearLowering {
    type Fault = LowerFault;

    ghost move_near = { near_lowering };

    fn rounding() -> Rounding {
        Rounding::Down
    }

    fn moved<O: Progress>(
        alloc: Global,
        given: &NearInputs,
        within: &Within<'_>,
        progress: &mut O,
    ) -> Result<(i64, Vectors), LowerFault> {
        let distance = distance_in(&given.model, within);
        lowered_robustly(
            alloc,
            &given.model,
            &given.graph,
            &given.vectors,
            distance,
            progress,
        )
    }

    fn run_fault(fault: LowerFault) -> RunFault {
        RunFault::Lower(fault)
    }

    fn laws() {}
}

impl NearMover for NearRaising {
    type Fault = RaiseFault;

    ghost move_near = { near_raising };

    fn rounding() -> Rounding {
        Rounding::Up
    }

    fn moved<O: Progress>(
        alloc: Global,
        given: &NearInputs,
        within: &Within<'_>,
        progress: &mut O,
    ) -> Result<(i64, Vectors), RaiseFault> {
        let distance = distance_in(&given.model, within);
        raised_robustly(
            alloc,
            &given.model,
            &given.graph,
            &given.vectors,
            distance,
            progress,
        )
    }

    fn run_fault(fault: RaiseFault) -> RunFault {
        RunFault::Raise(fault)
    }

    fn laws() {}
}
