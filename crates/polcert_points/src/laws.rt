//! Laws of the bound by belief points, each the contract of a function with nothing to do. Nothing calls them: they are for readers, and
//! for proofs to cite.
ghost use Rattle.std.specs.Prelude.{◌≡◌, ◌<◌, ◌≤◌, ◌-ℤ◌, ◌≤ℤ◌, ℕ, ℤ, Option, pos};
ghost use Rattle.polcert_policy.specs.Graphs.{PolicyGraph, IsProperGraph, nodes};
ghost use Rattle.polcert_policy.specs.Vectors.{PolicyVectors};
ghost use Rattle.polcert_policy.specs.Points.{AreProperPoints, PointValues};
ghost use Rattle.polcert_check.specs.Horizon.{Fits, controller_of};
ghost use Rattle.polcert_check.specs.Shortfall.{Passes};
ghost use Rattle.polcert_check.specs.StartWorth.{IsStartWorth};
ghost use Rattle.polcert_points.specs.PointRaise.{point_excess, raised_points, raised_table, taken_by_raise};
ghost use Rattle.polcert_points.specs.PointCheck.{AreCoversBy, IsCoverBy, IsKnown, IsRoundedUp, Next};
ghost use Rattle.polcert_cells.specs.Meaning.{Meaning, HasLimitedNumbers};
ghost use Rattle.polcert_cells.specs.Tables.{CellTable, IsProper, table_of};
ghost use Rattle.polcert_check.specs.Horizon.{one};
ghost use Rattle.polcert_optimum.specs.Policy.{IsPolicyOf, ObservationPolicy, as_policy};
ghost use Rattle.polcert_optimum.specs.Informed.{AreInformed};
ghost use Rattle.polcert_optimum.specs.Optimum.{EarnsAtMost, EncloseOptimum};
ghost use Rattle.polcert_points.specs.Belief.{Belief, updated_belief};
ghost use Rattle.polcert_points.specs.Points.{AreBacked, AreCharges, BoundsEveryObservationPolicyAt, Cover, Covers, IsAtMostAt, IsCover, Points, PointsBoundEveryObservationPolicy};
ghost use Rattle.polcert_points.specs.PointTable.{PointTable, AreLeastCharges, FitPoints, table_of_set};
ghost use Rattle.polcert_points_form.specs.RaisedSet.{CanRaisePoints, HasAllValues, raised_set};
ghost use Rattle.polcert_points.specs.RaisedPoints.{PassRaised};
ghost use Rattle.polcert_points.specs.PointStart.{IsPointCertificate, PointsBoundFromStart, PointsBoundMixturesFromStart};
ghost use Rattle.polcert_points.specs.PointStartMost.{IsPointStartMost};
ghost use Rattle.polcert_points.specs.PointVerdict.{IsPointVerdict};
ghost use Rattle.polcert_points.specs.declared.point_verdict.PointVerdict.{PointVerdict};
ghost use Rattle.polcert_points.specs.declared.point_verdict.PointVerdict.TheVariants.{Yes};

/// Points that are backed bound every policy that sees the observations alone, for every number of steps: at each point, and at each
/// belief with a cover.
pub fn points_bound_every_policy()
    ensures points { (t : CellTable) (vectors charges : ℕ → ℕ → ℤ) (points : Points) (covers : Covers) →
        IsProper t → 0 < t.states → AreInformed t vectors → AreCharges t vectors points charges →
        AreBacked t charges points covers → PointsBoundEveryObservationPolicy t vectors points }
    ensures beliefs { (t : CellTable) (vectors charges : ℕ → ℕ → ℤ) (points : Points) (covers : Covers) →
        IsProper t → 0 < t.states → AreInformed t vectors → AreCharges t vectors points charges →
        AreBacked t charges points covers → (b : Belief) (times : ℕ) (cover : Cover) (most : ℤ) →
        IsAtMostAt t charges points b times cover most →
        BoundsEveryObservationPolicyAt t vectors points b most }
{}

/// A certificate bounds every policy that sees the observations alone, and every mixture of such, from the start of a model.
pub fn points_bound_from_the_start()
    ensures policies { (m : Meaning) (vectors charges : ℕ → ℕ → ℤ) (points : Points) (covers : Covers)
        (times : ℕ) (cover : Cover) (most : ℤ) → HasLimitedNumbers m → IsProper (table_of m) →
        IsPointCertificate m vectors charges points covers times cover most →
        PointsBoundFromStart m vectors points most }
    ensures mixtures { (m : Meaning) (vectors charges : ℕ → ℕ → ℤ) (points : Points) (covers : Covers)
        (times : ℕ) (cover : Cover) (most : ℤ) → HasLimitedNumbers m → IsProper (table_of m) →
        IsPointCertificate m vectors charges points covers times cover most →
        PointsBoundMixturesFromStart m vectors points most }
{}

/// If the discount is below 1, no policy that sees the observations alone earns more than `most` in the long run. So with any policy
/// that earns at least `low`, a certificate encloses the optimum.
pub fn points_enclose_the_optimum()
    ensures upper { (m : Meaning) (vectors charges : ℕ → ℕ → ℤ) (points : Points) (covers : Covers)
        (times : ℕ) (cover : Cover) (most : ℤ) → HasLimitedNumbers m → IsProper (table_of m) →
        IsPointCertificate m vectors charges points covers times cover most → m.preamble.discount < one →
        (policy : ObservationPolicy) → IsPolicyOf (table_of m) (as_policy policy) →
        EarnsAtMost m (as_policy policy) most }

    // With a yes from below of any graph, a certificate encloses the optimum.
    ensures both { (m : Meaning) (graph : PolicyGraph) (low : PolicyVectors) (vectors charges : ℕ → ℕ → ℤ)
        (points : Points) (covers : Covers) (times : ℕ) (cover : Cover) → HasLimitedNumbers m →
        IsProper (table_of m) → IsProperGraph graph → Fits (table_of m) graph low →
        Passes (controller_of (table_of m) graph low) → m.preamble.discount < one →
        (n : ℕ) (worth most : ℤ) → n < nodes graph → IsStartWorth m low n worth →
        IsPointCertificate m vectors charges points covers times cover most → EncloseOptimum m worth most }
{}

/// Raising every value by one constant takes the same part of every excess away, so that there is a least constant; and the covers stay.
pub fn raising_points()
    ensures { (t : CellTable) → IsProper t → t.discount ≤ one → (charges : ℕ → ℕ → ℤ) (points : Points)
        (covers : Covers) (by i a : ℕ) → a < t.actions →
        ((z : ℕ) → z < t.observations →
        IsCover t points (updated_belief t (points.belief i) a z) (covers i a z)) →
        point_excess t (raised_table charges by) (raised_points points by) covers i a ≡
        point_excess t charges points covers i a -ℤ pos (taken_by_raise t points i by) }
{}

/// Points that pass raised by a constant pass raised by more, if every value stays in range. So a least constant is found by trying.
pub fn raising_keeps_a_yes()
    ensures { (t : CellTable) → IsProper t → t.discount ≤ one → (vectors : ℕ → ℕ → ℤ) (p : PointValues) →
        FitPoints t (table_of_set p) → AreProperPoints p → HasAllValues p → (by more : ℕ) → by ≤ more →
        CanRaisePoints p more → PassRaised t vectors p by → (verdict : PointVerdict) →
        IsPointVerdict t vectors (table_of_set (raised_set p more)) verdict → verdict ≡ Yes }
{}

/// The covers that a file means by the points that it names are covers, and there is one alone.
pub fn named_points_cover()
    ensures covers { (t : CellTable) (points : Points) (next : Next) (covers : Covers) →
        IsKnown t points next → AreCoversBy t points next covers → (i a z : ℕ) → i < points.count →
        a < t.actions → z < t.observations →
        IsCover t points (updated_belief t (points.belief i) a z) (covers i a z) }
    ensures one { (t : CellTable) (points : Points) (b : Belief) (next : Option ℕ) (x y : Cover) →
        IsCoverBy t points b next x → IsCoverBy t points b next y → x ≡ y }
{}

/// There are no two tables of least charges, so that the verdict and its amount are determined.
pub fn least_charges_are_determined()
    ensures { (p : PointTable) (vectors x y : ℕ → ℕ → ℤ) → AreLeastCharges p vectors x →
        AreLeastCharges p vectors y → (a s : ℕ) → a < p.actions → s < p.states → x a s ≡ y a s }
{}

/// A check of points has one verdict, with one amount, and a start one number, whatever charges and covers they were found with.
pub fn points_have_one_verdict()
    ensures verdict { (t : CellTable) (vectors : ℕ → ℕ → ℤ) (p : PointTable) → FitPoints t p →
        (x y : PointVerdict) → IsPointVerdict t vectors p x → IsPointVerdict t vectors p y → x ≡ y }
    ensures most { (m : Meaning) (vectors : ℕ → ℕ → ℤ) (p : PointTable) → FitPoints (table_of m) p →
        (x y : ℤ) → IsPointStartMost m vectors p x → IsPointStartMost m vectors p y → x ≡ y }
{}

/// The excess that the check computes, in whole parts and rounded up, is above 0 exactly if the inequality fails.
pub fn rounding_keeps_the_sign()
    ensures at_most { (y x : ℤ) → IsRoundedUp y x → x ≤ℤ pos 0 → y ≤ℤ pos 0 }
    ensures only_then { (y x : ℤ) → IsRoundedUp y x → y ≤ℤ pos 0 → x ≤ℤ pos 0 }
{}
