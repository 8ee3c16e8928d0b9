//! Laws of the definitions from above, each the contract of a function with nothing to do. Nothing calls them: they are for readers, and
//! for proofs to cite.
ghost use Rattle.std.specs.Prelude.{◌≡◌, ◌<◌, ℕ, ℤ};
ghost use Rattle.polcert_cells.specs.Meaning.{Meaning, IsSame};
ghost use Rattle.polcert_cells.specs.SameCells.{HasSameCells};
ghost use Rattle.polcert_cells.specs.Tables.{CellTable, IsProper, IsWithinLimits, table_of};
ghost use Rattle.polcert_policy.specs.Graphs.{PolicyGraph, IsProperGraph, nodes};
ghost use Rattle.polcert_policy.specs.Vectors.{PolicyVectors};
ghost use Rattle.polcert_check.specs.declared.above.AboveVerdict.{AboveVerdict};
ghost use Rattle.polcert_check.specs.declared.fault.RaiseFault.{RaiseFault};
ghost use Rattle.polcert_check.specs.Above.{BoundEveryLowerVector, IsAboveVerdict, MeetsEveryHorizonAbove, MeetsHorizonAbove, PairPassesAbove, PassesAbove, PromiseAbove, RewardPromiseAbove};
ghost use Rattle.polcert_check.specs.Horizon.{Controller, Fits, controller_of};
ghost use Rattle.polcert_check.specs.Raise.{IsLeastRaise, IsNotRaised};
ghost use Rattle.polcert_check.specs.StartMost.{IsStartMost, StartPromiseAbove};

/// If every pair passes from above, the promise from above holds for every number of steps, with the vectors at the end and
/// without; and if that of one step holds at a pair, the pair passes.
pub fn promise_above_for_every_horizon()
    ensures promised { (x : CellTable) (graph : PolicyGraph) (vectors : PolicyVectors) → IsProper x →
        IsProperGraph graph →
        Fits x graph vectors → PassesAbove (controller_of x graph vectors)
        → MeetsEveryHorizonAbove (controller_of x graph vectors) }
    ensures only_then { (c : Controller) (n s : ℕ) → PromiseAbove c 1 n s → PairPassesAbove c n s }
{}

/// If the discount is below 1, vectors that pass from below are nowhere above vectors that pass from above: the two bound what
/// the graph earns from both sides.
pub fn bounds_are_an_interval()
    ensures { (x : CellTable) (graph : PolicyGraph) (vectors : PolicyVectors) → IsProper x →
        IsWithinLimits x → IsProperGraph graph → Fits x graph vectors →
        PassesAbove (controller_of x graph vectors) → BoundEveryLowerVector x graph vectors }
{}

/// What a check from above says over one table it says over every table with the same counts and the same cells in range.
pub fn same_cells_same_answers_above()
    ensures verdict { (x y : CellTable) (graph : PolicyGraph) (vectors : PolicyVectors) → HasSameCells x y →
        IsProperGraph graph → Fits x graph vectors → (answer : AboveVerdict) →
        IsAboveVerdict (controller_of x graph vectors) answer
        → IsAboveVerdict (controller_of y graph vectors) answer }
    ensures promise { (x y : CellTable) (graph : PolicyGraph) (vectors : PolicyVectors) → HasSameCells x y →
        IsProperGraph graph → Fits x graph vectors → (k n s : ℕ) → n < nodes graph → s < x.states →
        PromiseAbove (controller_of x graph vectors) k n s
        → PromiseAbove (controller_of y graph vectors) k n s }
    ensures rewards { (x y : CellTable) (graph : PolicyGraph) (vectors : PolicyVectors) → HasSameCells x y →
        IsProperGraph graph → Fits x graph vectors → (k n s : ℕ) → n < nodes graph → s < x.states →
        RewardPromiseAbove (controller_of x graph vectors) k n s
        → RewardPromiseAbove (controller_of y graph vectors) k n s }
    ensures horizon { (x y : CellTable) (graph : PolicyGraph) (vectors : PolicyVectors) → HasSameCells x y →
        IsProperGraph graph → Fits x graph vectors → (answer : AboveVerdict) →
        IsAboveVerdict (controller_of x graph vectors) answer →
        MeetsHorizonAbove (controller_of x graph vectors) answer
        → MeetsHorizonAbove (controller_of y graph vectors) answer }
    ensures passes { (x y : CellTable) (graph : PolicyGraph) (vectors : PolicyVectors) → HasSameCells x y →
        IsProperGraph graph → Fits x graph vectors →
        PassesAbove (controller_of x graph vectors) → PassesAbove (controller_of y graph vectors) }
    ensures least_raise { (x y : CellTable) (graph : PolicyGraph) (vectors : PolicyVectors) →
        HasSameCells x y → IsProperGraph graph → Fits x graph vectors → (constant : ℤ) →
        IsLeastRaise (controller_of x graph vectors) vectors constant →
        IsLeastRaise (controller_of y graph vectors) vectors constant }
    ensures refused { (x y : CellTable) (graph : PolicyGraph) (vectors : PolicyVectors) → HasSameCells x y →
        IsProperGraph graph → Fits x graph vectors → (fault : RaiseFault) →
        IsNotRaised (controller_of x graph vectors) vectors fault →
        IsNotRaised (controller_of y graph vectors) vectors fault }
{}

/// What no node is worth more than from the start of one model, it is not worth more than from the start of each model that is the
/// same in range.
pub fn same_models_same_answers_above()
    ensures start_most { (m n : Meaning) → IsSame m n → (vectors : PolicyVectors) (most : ℤ) →
        IsStartMost m vectors most → IsStartMost n vectors most }
    ensures start_promise { (m n : Meaning) → IsSame m n → (graph : PolicyGraph) (vectors : PolicyVectors) →
        IsProperGraph graph → Fits (table_of m) graph vectors → (k node : ℕ) (most : ℤ) → node < nodes graph →
        StartPromiseAbove m (controller_of (table_of m) graph vectors) k node most →
        StartPromiseAbove n (controller_of (table_of n) graph vectors) k node most }
{}

/// A check from above has one verdict.
pub fn one_above_verdict()
    ensures { (c : Controller) (x y : AboveVerdict) → IsAboveVerdict c x → IsAboveVerdict c y → x ≡ y }
{}

/// Vectors have one least constant by which they are raised, or else one reason why they are not.
pub fn one_raising()
    ensures constant { (c : Controller) (vectors : PolicyVectors) (x y : ℤ) →
        IsLeastRaise c vectors x → IsLeastRaise c vectors y → x ≡ y }
    ensures reason { (c : Controller) (vectors : PolicyVectors) (f g : RaiseFault) →
        IsNotRaised c vectors f → IsNotRaised c vectors g → f ≡ g }
    ensures not_both { (c : Controller) (vectors : PolicyVectors) (x : ℤ) (f : RaiseFault) →
        IsLeastRaise c vectors x → IsNotRaised c vectors f → ⊥ }
{}

/// A start has one number that no node is worth more than, rounded up.
pub fn one_start_most()
    ensures { (m : Meaning) (vectors : PolicyVectors) (x y : ℤ) → IsStartMost m vectors x
        → IsStartMost m vectors y → x ≡ y }
{}
