//! The verdict on vectors and points.
ghost use Rattle.std.specs.Prelude.{◌≡◌, ◌*◌, IfOk};
ghost use Rattle.polcert_text.specs.Numbers.{largest};
ghost use Rattle.polcert_cells.specs.Tables.{table_of};
ghost use Rattle.polcert_model.specs.Contents.{meaning};
ghost use Rattle.polcert_policy.specs.Vectors.{value_of};
ghost use Rattle.polcert_optimum.specs.InformedCheck.{FitActions, IsInformedVerdict};
ghost use Rattle.polcert_optimum.specs.declared.verdict.InformedVerdict.TheVariants as informed;
ghost use Rattle.polcert_points.specs.PointTable.{table_of_set};
ghost use Rattle.polcert_points_answer.specs.Answer.{IsPointBoundVerdict};
ghost use Rattle.polcert_points_answer.specs.Lines.{point_verdict_status};

/// The verdict on vectors, one for each action of a model, and on belief points.
#[derive(Clone, Copy, Debug, PartialEq, Eq)]
pub enum PointBoundVerdict {
    /// Vectors and points bound what every policy earns.
    Yes,
    /// The informed backup of this action is above its vector at this state, by this amount: in millionths, on the scale of the weights of
    /// one step times 1,000,000.
    VectorExceeded {
        action: usize,
        state: usize,
        amount: i128,
    },
    /// The backup of this action is above its value at this point, by this amount: in millionths, on the scale of the weights of one step
    /// times the sum of the point's weights, rounded up.
    PointExceeded {
        point: usize,
        action: usize,
        amount: i128,
    },
}

/// Returns the exit status for a verdict: 0 for a yes, and 1 for a no.
pub fn status_of_point_verdict(verdict: PointBoundVerdict) -> u8
    ensures { result ≡ point_verdict_status verdict }
{
    match verdict {
        PointBoundVerdict::Yes => 0,
        PointBoundVerdict::VectorExceeded { .. } | PointBoundVerdict::PointExceeded { .. } => 1,
    }
}
