//! Laws of the definitions, each the contract of a function with nothing to do. Nothing calls them: they are for readers, and for proofs to
//! cite.
ghost use Rattle.std.specs.Prelude.{◌≡◌, ◌≢◌, ◌<◌, ◌-ℤ◌, ℕ, ℤ, List, Err, Ok};
ghost use Rattle.polcert_check.specs.declared.survey.Verdict.TheVariants.{Yes};
ghost use Rattle.polcert_check.specs.Horizon.{one};
ghost use Rattle.polcert_policy.specs.Graphs.{nodes};
ghost use Rattle.polcert_policy.specs.declared.fault.PointFault.{PointFault};
ghost use Rattle.polcert_policy.specs.declared.fault.PointFault.TheVariants as faults;
ghost use Rattle.polcert_check.specs.StartWorth.{IsBestStart, IsStartWorth};
ghost use Rattle.polcert_optimum.specs.Earnings.{IsOptimalTo, policy_from};
ghost use Rattle.polcert_optimum.specs.Optimum.{EarnsAtMost, EncloseOptimum};
ghost use Rattle.polcert_optimum.specs.Policy.{ObservationPolicy, IsPolicyOf, as_policy};
ghost use Rattle.polcert_cells.specs.Tables.{table_of};
ghost use Rattle.polcert_points.specs.PointTable.{table_of_set};
ghost use Rattle.polcert_answer.specs.declared.fault.Fault.{Fault};
ghost use Rattle.polcert_answer.specs.Answer.{IsAnswer, IsOutOfMemory};
ghost use Rattle.polcert_answer.specs.Headline.{Certificate};
ghost use Rattle.polcert_points_answer.specs.Answer.{IsPointBoundAnswer};
ghost use Rattle.polcert_points_answer.specs.Headline.{IsPointBoundMost, PointCertificate};

use crate::verdict::PointBoundVerdict;
use polcert_answer::Fault;

/// Three texts have one answer, unless memory ran out: one verdict, or a refusal of one of them.
pub fn one_point_answer()
    ensures verdict { (model vectors points : List ℕ) (x y : PointBoundVerdict) →
        IsPointBoundAnswer model vectors points (Ok x) → IsPointBoundAnswer model vectors points (Ok y) →
        x ≡ y }
    ensures no_refusal { (model vectors points : List ℕ) (x : PointBoundVerdict) (fault : Fault) →
        IsPointBoundAnswer model vectors points (Ok x) → IsPointBoundAnswer model vectors points (Err fault) →
        IsOutOfMemory fault }

    // The points are refused for one reason, at one place.
    ensures refusal { (model vectors points : List ℕ) (f g : PointFault) →
        f ≢ faults.Memory → g ≢ faults.Memory →
        IsPointBoundAnswer model vectors points (Err (Fault.Points f)) →
        IsPointBoundAnswer model vectors points (Err (Fault.Points g)) → f ≡ g }
{}

/// The interval that holds the optimum. If the discount is below 1, a yes to the vectors of any graph and a yes to vectors and points of
/// the same model: the best policy that sees the observations alone is worth at least the number of the one line and at most that of the
/// other.
pub fn texts_with_points_enclose_the_optimum()
    ensures optimum { (model graph low high points : List ℕ) → IsAnswer model graph low (Ok Yes) →
        IsPointBoundAnswer model high points (Ok PointBoundVerdict.Yes) →
        (c : Certificate model graph low) (d : PointCertificate model high points) →
        c.meaning.preamble.discount < one → (n : ℕ) (worth most : ℤ) → IsBestStart c.meaning c.values n →
        IsStartWorth c.meaning c.values n worth →
        IsPointBoundMost d.meaning d.values (table_of_set d.set) most → EncloseOptimum c.meaning worth most }

    // No policy that sees the observations alone earns more in the long run.
    ensures upper { (model high points : List ℕ) →
        IsPointBoundAnswer model high points (Ok PointBoundVerdict.Yes) →
        (d : PointCertificate model high points) → d.meaning.preamble.discount < one → (most : ℤ) →
        IsPointBoundMost d.meaning d.values (table_of_set d.set) most →
        (policy : ObservationPolicy) → IsPolicyOf (table_of d.meaning) (as_policy policy) →
        EarnsAtMost d.meaning (as_policy policy) most }

    // How far at most the graph's own policy is from the best.
    ensures optimal_to { (model graph low high points : List ℕ) → IsAnswer model graph low (Ok Yes) →
        IsPointBoundAnswer model high points (Ok PointBoundVerdict.Yes) →
        (c : Certificate model graph low) (d : PointCertificate model high points) →
        c.meaning.preamble.discount < one → (n : ℕ) (worth most : ℤ) → n < nodes c.policy →
        IsStartWorth c.meaning c.values n worth →
        IsPointBoundMost d.meaning d.values (table_of_set d.set) most →
        IsOptimalTo c.meaning (policy_from c.policy n) (most -ℤ worth) }
{}
