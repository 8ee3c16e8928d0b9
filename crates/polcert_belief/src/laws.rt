//! Laws of the definitions, each the contract of a function with nothing to do. Nothing calls them: they are for readers, and for proofs to
//! cite.
ghost use Rattle.std.specs.Prelude.{◌≡◌, ◌<◌, ◌*◌, ℕ, ℤ, List};
ghost use Rattle.std.specs.List.{AllByRecursion};
ghost use Rattle.polcert_cells.specs.Meaning.{Meaning, HasLimitedNumbers, start_weight};
ghost use Rattle.polcert_cells.specs.Tables.{CellTable, IsProper, table_of};
ghost use Rattle.polcert_policy.specs.Graphs.{PolicyGraph, IsProperGraph, nodes};
ghost use Rattle.polcert_policy.specs.Vectors.{PolicyVectors};
ghost use Rattle.polcert_check.specs.Horizon.{Controller, Fits, controller_of, one};
ghost use Rattle.polcert_check.specs.Shortfall.{Passes};
ghost use Rattle.polcert_check.specs.StartWorth.{IsStartWorth};
ghost use Rattle.polcert_optimum.specs.Policy.{ObservationPolicy, as_policy};
ghost use Rattle.polcert_optimum.specs.Optimum.{EarnsAtLeast, EncloseOptimum};
ghost use Rattle.polcert_optimum.specs.Seen.{EncloseSeenOptimum};
ghost use Rattle.polcert_belief.specs.Ahead.{LooksAheadWithin};
ghost use Rattle.polcert_belief.specs.Backed.{EarnsFirst, IsBacked};
ghost use Rattle.polcert_belief.specs.Belief.{AreWeightsOfHistories, Belief};
ghost use Rattle.polcert_belief.specs.Following.{EarnsWhatIsPicked, PicksBest, PicksNoWorse, Selector, policy_of};
ghost use Rattle.polcert_belief.specs.Tolerance.{AreBeliefsNear, AreScoresWithin, AreValuesNear, DifferAtMost, EarnsWithin, PicksBestAt, run_worth, PicksGreatest, PicksNoWorseWithin, PicksWithin};
ghost use Rattle.polcert_belief.specs.FromStart.{EarnsFromStart, EarnsFromStartWithin, IsBelowWithin, MixtureEarnsAtLeast, MixtureEarnsWithin};

/// If a graph's vectors pass from below, the policy that picks a best vector at each belief earns at least what its first vector is worth:
/// from every belief, in every number of steps.
pub fn beliefs_are_followed()
    ensures best { (t : CellTable) (graph : PolicyGraph) (vectors : PolicyVectors) → IsProper t →
        IsProperGraph graph → Fits t graph vectors → Passes (controller_of t graph vectors) →
        (belief : Belief) (selector : Selector) → PicksBest (controller_of t graph vectors) belief selector →
        EarnsWhatIsPicked (controller_of t graph vectors)
        (policy_of (controller_of t graph vectors) selector) belief selector }

    // It is enough to pick no worse than the graph.
    ensures no_worse { (t : CellTable) (graph : PolicyGraph) (vectors : PolicyVectors) → IsProper t →
        IsProperGraph graph → Fits t graph vectors → Passes (controller_of t graph vectors) →
        (belief : Belief) (selector : Selector) →
        PicksNoWorse (controller_of t graph vectors) belief selector →
        EarnsWhatIsPicked (controller_of t graph vectors)
        (policy_of (controller_of t graph vectors) selector) belief selector }

    // Such a selector exists.
    ensures exists { (c : Controller) → 0 < c.nodes → (belief : Belief) →
        (selector : Selector) × PicksBest c belief selector }
{}

/// The belief after observations is at each state the weight of the histories with these observations that end there.
pub fn beliefs_are_weights_of_histories()
    ensures { (t : CellTable) (policy : ObservationPolicy) (belief : Belief) →
        AreWeightsOfHistories t policy belief }
{}

/// A planner that picks within a tolerance, as one that rounds, earns what is picked less a bound.
pub fn picks_within_a_tolerance()
    ensures earned { (t : CellTable) (graph : PolicyGraph) (vectors : PolicyVectors) → IsProper t →
        IsProperGraph graph → Fits t graph vectors → Passes (controller_of t graph vectors) →
        (by d : ℕ) (belief : Belief) (selector : Selector) →
        PicksNoWorseWithin by d (controller_of t graph vectors) belief selector → (k : ℕ) →
        EarnsWithin by d (controller_of t graph vectors)
        (policy_of (controller_of t graph vectors) selector) belief selector k }
    ensures best { (t : CellTable) (graph : PolicyGraph) (vectors : PolicyVectors) → IsProper t →
        IsProperGraph graph → Fits t graph vectors → (by d : ℕ) (belief : Belief) (selector : Selector) →
        PicksWithin by d (controller_of t graph vectors) belief selector →
        PicksNoWorseWithin by d (controller_of t graph vectors) belief selector }

    // Scores that are near what the vectors are worth, apart from a shift of all of them, pick within that.
    ensures scores { (by d : ℕ) (c : Controller) (belief : Belief) (selector : Selector)
        (score : List ℕ → ℕ → ℤ) (shift : List ℕ → ℤ) →
        AreScoresWithin by d c belief selector score shift → PicksGreatest c selector score →
        PicksWithin by d c belief selector }

    // So do vectors that are near those of the graph, apart from a shift of all of them.
    ensures vectors { (by d : ℕ) (c : Controller) (belief : Belief) (selector : Selector) (run : ℕ → ℕ → ℤ)
        (shift : ℤ) → AreValuesNear by d c run shift →
        PicksGreatest c selector (run_worth c belief selector run) → PicksWithin by d c belief selector }

    // So do beliefs that are near the true ones: within their distance times the range of the values.
    ensures beliefs { (by d range : ℕ) (c : Controller) (belief : Belief) (selector : Selector)
        (tracked : List ℕ → Belief) → AreBeliefsNear by d c belief selector tracked → DifferAtMost c range →
        PicksBestAt c selector tracked → PicksWithin (by * range) d c belief selector }
{}

/// A policy that looks one step ahead, and values what follows by the best vectors, earns at least what the vector that it picks first is
/// worth, as in `beliefs_are_followed`.
pub fn looking_ahead()
    ensures earned { (t : CellTable) (graph : PolicyGraph) (vectors : PolicyVectors) → IsProper t →
        IsProperGraph graph → Fits t graph vectors → Passes (controller_of t graph vectors) →
        (policy : ObservationPolicy) (belief : Belief) (selector : Selector) →
        LooksAheadWithin 0 1 (controller_of t graph vectors) policy belief selector →
        EarnsWhatIsPicked (controller_of t graph vectors) policy belief selector }

    // Such a policy exists.
    ensures exists { (c : Controller) → 0 < c.nodes → 0 < c.cells.actions → (belief : Belief) →
        (policy : ObservationPolicy) × (selector : Selector) × LooksAheadWithin 0 1 c policy belief selector }
{}

/// Without a graph: a policy with a vector after each history of observations earns what the first vector is worth, if each is worth at
/// most one step at its belief, with the vectors after it.
pub fn vectors_backed_at_beliefs()
    ensures { (t : CellTable) → IsProper t → (policy : ObservationPolicy) (belief : Belief)
        (value : List ℕ → ℕ → ℤ) → IsBacked t policy belief value → (k : ℕ) →
        EarnsFirst t policy belief value k }
{}

/// From a model's start the policy that picks best vectors earns at least what any node is worth there, in every number of steps. Within a
/// tolerance it earns that less the tolerance for each pick, discounted.
pub fn worth_from_the_start()
    ensures best { (m : Meaning) (graph : PolicyGraph) (vectors : PolicyVectors) → HasLimitedNumbers m →
        IsProper (table_of m) → IsProperGraph graph → Fits (table_of m) graph vectors →
        Passes (controller_of (table_of m) graph vectors) → (selector : Selector) →
        PicksBest (controller_of (table_of m) graph vectors) (start_weight m) selector →
        (n : ℕ) (worth : ℤ) → n < nodes graph → IsStartWorth m vectors n worth → (k : ℕ) →
        EarnsFromStart m (controller_of (table_of m) graph vectors)
        (policy_of (controller_of (table_of m) graph vectors) selector) selector k worth }
    ensures within { (m : Meaning) (graph : PolicyGraph) (vectors : PolicyVectors) → HasLimitedNumbers m →
        IsProper (table_of m) → IsProperGraph graph → Fits (table_of m) graph vectors →
        Passes (controller_of (table_of m) graph vectors) → (by d : ℕ) (selector : Selector) →
        PicksWithin by d (controller_of (table_of m) graph vectors) (start_weight m) selector →
        (n : ℕ) (worth : ℤ) → n < nodes graph → IsStartWorth m vectors n worth → (k : ℕ) →
        EarnsFromStartWithin by d m (controller_of (table_of m) graph vectors)
        (policy_of (controller_of (table_of m) graph vectors) selector) selector k worth }

    // So does a planner that draws, which is a mixture of selectors.
    ensures mixtures { (m : Meaning) (graph : PolicyGraph) (vectors : PolicyVectors) → HasLimitedNumbers m →
        IsProper (table_of m) → IsProperGraph graph → Fits (table_of m) graph vectors →
        Passes (controller_of (table_of m) graph vectors) → (by d : ℕ) (mixture : List (ℕ × Selector)) →
        AllByRecursion (λ p. PicksWithin by d (controller_of (table_of m) graph vectors) (start_weight m) p.1)
        mixture →
        (n : ℕ) (worth : ℤ) → n < nodes graph → IsStartWorth m vectors n worth → (k : ℕ) →
        MixtureEarnsWithin by d m (controller_of (table_of m) graph vectors) mixture k worth }

    // So does the policy that looks one step ahead.
    ensures ahead { (m : Meaning) (graph : PolicyGraph) (vectors : PolicyVectors) → HasLimitedNumbers m →
        IsProper (table_of m) → IsProperGraph graph → Fits (table_of m) graph vectors →
        Passes (controller_of (table_of m) graph vectors) → (by d : ℕ) (policy : ObservationPolicy)
        (selector : Selector) →
        LooksAheadWithin by d (controller_of (table_of m) graph vectors) policy (start_weight m) selector →
        (n : ℕ) (worth : ℤ) → n < nodes graph → IsStartWorth m vectors n worth → (k : ℕ) →
        EarnsFromStartWithin by d m (controller_of (table_of m) graph vectors) policy selector k worth }
{}

/// If the discount is below 1, what a policy so earns from the start in every number of steps, it earns in the long run. And each pair of
/// bounds of the optimum whose lower number that is holds with this policy in the place of the one that it names.
pub fn the_long_run()
    ensures exactly { (m : Meaning) (graph : PolicyGraph) (vectors : PolicyVectors) →
        m.preamble.discount < one → (policy : ObservationPolicy) (selector : Selector) (worth : ℤ) →
        ((k : ℕ) →
        EarnsFromStartWithin 0 1 m (controller_of (table_of m) graph vectors) policy selector k worth) →
        EarnsAtLeast m (as_policy policy) worth }
    ensures within { (m : Meaning) (graph : PolicyGraph) (vectors : PolicyVectors) →
        m.preamble.discount < one → (by d : ℕ) → 0 < d → (policy : ObservationPolicy) (selector : Selector)
        (worth low : ℤ) → ((k : ℕ) →
        EarnsFromStartWithin by d m (controller_of (table_of m) graph vectors) policy selector k worth) →
        IsBelowWithin by d m.preamble.discount worth low → EarnsAtLeast m (as_policy policy) low }

    // A mixture of selectors earns in the long run what each of their policies does.
    ensures mixtures { (m : Meaning) (c : Controller) (mixture : List (ℕ × Selector)) (low : ℤ) →
        AllByRecursion (λ p. EarnsAtLeast m (as_policy (policy_of c p.1)) low) mixture →
        MixtureEarnsAtLeast m c mixture low }
    ensures optimum { (m : Meaning) (graph : PolicyGraph) (vectors : PolicyVectors) →
        m.preamble.discount < one → (policy : ObservationPolicy) (selector : Selector) (worth most : ℤ) →
        ((k : ℕ) →
        EarnsFromStartWithin 0 1 m (controller_of (table_of m) graph vectors) policy selector k worth) →
        EncloseOptimum m worth most → (e : EncloseOptimum m worth most) × (e.policy ≡ policy) }

    // They enclose the optimum among the policies that see the start state, too.
    ensures seen { (m : Meaning) (graph : PolicyGraph) (vectors : PolicyVectors) →
        m.preamble.discount < one → (policy : ObservationPolicy) (selector : Selector) (worth most : ℤ) →
        ((k : ℕ) →
        EarnsFromStartWithin 0 1 m (controller_of (table_of m) graph vectors) policy selector k worth) →
        EncloseSeenOptimum m worth most →
        (e : EncloseSeenOptimum m worth most) × ((s : ℕ) → e.policy s ≡ policy) }
{}
