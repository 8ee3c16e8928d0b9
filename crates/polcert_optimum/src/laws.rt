//! Laws of the definitions, each the contract of a function with nothing to do. Nothing calls them: they are for readers, and for proofs to
//! cite.
ghost use Rattle.std.specs.Prelude.{◌≡◌, ◌↔◌, ◌<◌, ◌-ℤ◌, ◌≤ℤ◌, pos, ℕ, ℤ};
ghost use Rattle.polcert_cells.specs.Meaning.{Meaning, HasLimitedNumbers, IsSame, actions_of, states_of};
ghost use Rattle.polcert_cells.specs.Tables.{CellTable, IsProper, IsWithinLimits, table_of};
ghost use Rattle.polcert_policy.specs.Graphs.{PolicyGraph, IsProperGraph, nodes};
ghost use Rattle.polcert_policy.specs.Vectors.{PolicyVectors, value_of};
ghost use Rattle.polcert_check.specs.Horizon.{Fits, controller_of, one};
ghost use Rattle.polcert_check.specs.Shortfall.{Passes};
ghost use Rattle.polcert_check.specs.Above.{PassesAbove};
ghost use Rattle.polcert_check.specs.StartMost.{IsStartMost};
ghost use Rattle.polcert_check.specs.StartWorth.{IsStartWorth};
ghost use Rattle.polcert_optimum.specs.Policy.{IsPolicyOf, ObservationPolicy, Policy, as_policy};
ghost use Rattle.polcert_optimum.specs.Bound.{BoundsEveryMixture, BoundsEveryPolicy, DominatesBackup};
ghost use Rattle.polcert_optimum.specs.Informed.{AreInformed, AreQmdp, BoundEveryObservationPolicy};
ghost use Rattle.polcert_optimum.specs.GraphPolicy.{BoundEveryGraph, EarnsAsItsPolicy};
ghost use Rattle.polcert_optimum.specs.Start.{AreAtMostFromStart, BoundEveryObservationMixtureFromStart, BoundEveryObservationPolicyFromStart, BoundsEveryPolicyFromStart, IsAtMostFromStart};
ghost use Rattle.polcert_optimum.specs.Optimum.{EarnsAtLeast, EarnsAtMost, EncloseOptimum};
ghost use Rattle.polcert_optimum.specs.Earnings.{AreRewardsAtLeast, AreRewardsAtMost, EarnsAtMostMore, IsOptimalTo, policy_from};
ghost use Rattle.polcert_optimum.specs.Mixtures.{MixturesOfModelEarnAtMost};
ghost use Rattle.polcert_optimum.specs.Randomised.{BoundEveryRandomisedPolicy, BoundRandomisedPoliciesOfModel, RandomisedPoliciesOfModelEarnAtMost};
ghost use Rattle.polcert_optimum.specs.Seen.{BoundEveryMixtureOfModel, BoundEveryPolicyOfModel, BoundEverySeenMixtureFromStart, BoundEverySeenPolicyFromStart, EncloseSeenOptimum, IsBoundStartMost, IsSeenAtMostFromStart, IsSeenPolicyOf, IsSeenStartMost, SeenEarnsAtMost, SeenPolicy};

/// One value for each state bounds every policy exactly if it dominates its Bellman backup.
pub fn bound_on_every_policy()
    ensures policies { (t : CellTable) (value : ℕ → ℤ) → IsProper t → DominatesBackup t value →
        BoundsEveryPolicy t value }
    ensures mixtures { (t : CellTable) (value : ℕ → ℤ) → IsProper t → DominatesBackup t value →
        BoundsEveryMixture t value }

    // The test is necessary.
    ensures only_then { (t : CellTable) (value : ℕ → ℤ) →
        BoundsEveryPolicy t value → DominatesBackup t value }
{}

/// Vectors, one for each action, bound every policy that sees the observations alone exactly if they are informed.
pub fn fast_informed_bound()
    ensures policies { (t : CellTable) (vectors : ℕ → ℕ → ℤ) → IsProper t → AreInformed t vectors →
        BoundEveryObservationPolicy t vectors }

    // The test is necessary.
    ensures only_then { (t : CellTable) (vectors : ℕ → ℕ → ℤ) → BoundEveryObservationPolicy t vectors →
        AreInformed t vectors }

    // A bound on every policy is the case of one vector for all actions.
    ensures one_vector { (t : CellTable) (value : ℕ → ℤ) →
        DominatesBackup t value ↔ AreInformed t (λ a s. value s) }

    // The QMDP vectors of a bound on every policy are informed.
    ensures qmdp { (t : CellTable) (value : ℕ → ℤ) (vectors : ℕ → ℕ → ℤ) → AreQmdp t value vectors →
        AreInformed t vectors }
{}

/// From the start of a model no policy earns more than the bound is worth there.
pub fn bounds_from_the_start()
    ensures policies { (m : Meaning) (value : ℕ → ℤ) (most : ℤ) → HasLimitedNumbers m →
        IsProper (table_of m) → DominatesBackup (table_of m) value → IsAtMostFromStart m value most →
        BoundsEveryPolicyFromStart m value most }
    ensures observation_policies { (m : Meaning) (vectors : ℕ → ℕ → ℤ) (most : ℤ) → HasLimitedNumbers m →
        IsProper (table_of m) → AreInformed (table_of m) vectors → AreAtMostFromStart m vectors most →
        BoundEveryObservationPolicyFromStart m vectors most }
    ensures mixtures { (m : Meaning) (vectors : ℕ → ℕ → ℤ) (most : ℤ) → HasLimitedNumbers m →
        IsProper (table_of m) → AreInformed (table_of m) vectors → AreAtMostFromStart m vectors most →
        BoundEveryObservationMixtureFromStart m vectors most }
{}

/// A graph whose vectors pass from below acts as some policy that sees the observations alone, which earns what the graph earns. So what a
/// certificate says of the graph it says of that policy.
pub fn graphs_are_policies()
    ensures { (t : CellTable) (graph : PolicyGraph) (vectors : PolicyVectors) → IsProper t →
        IsWithinLimits t → IsProperGraph graph → Fits t graph vectors →
        Passes (controller_of t graph vectors) → (n : ℕ) → n < nodes graph →
        EarnsAsItsPolicy (controller_of t graph vectors) n }
{}

/// If the discount is below 1, no graph's vectors that pass from below are above informed vectors.
pub fn graphs_are_bounded()
    ensures { (t : CellTable) (vectors : ℕ → ℕ → ℤ) → IsProper t → IsWithinLimits t → t.discount < one →
        AreInformed t vectors → BoundEveryGraph t vectors }
{}

/// If the discount is below 1, the worth of a graph's node at the start and that of informed vectors
/// enclose the optimum.
pub fn optimum_is_enclosed()
    ensures both { (m : Meaning) (graph : PolicyGraph) (low : PolicyVectors) (vectors : ℕ → ℕ → ℤ) →
        HasLimitedNumbers m → IsProper (table_of m) → IsProperGraph graph → Fits (table_of m) graph low →
        Passes (controller_of (table_of m) graph low) → AreInformed (table_of m) vectors →
        m.preamble.discount < one → (n : ℕ) (worth most : ℤ) → n < nodes graph → IsStartWorth m low n worth →
        AreAtMostFromStart m vectors most → EncloseOptimum m worth most }

    // The upper bound needs no graph, and a bound on every policy also bounds those that see the states.
    ensures upper { (m : Meaning) (vectors : ℕ → ℕ → ℤ) (most : ℤ) → HasLimitedNumbers m →
        IsProper (table_of m) → AreInformed (table_of m) vectors → AreAtMostFromStart m vectors most →
        m.preamble.discount < one → (policy : ObservationPolicy) →
        IsPolicyOf (table_of m) (as_policy policy) →
        EarnsAtMost m (as_policy policy) most }
    ensures seen { (m : Meaning) (value : ℕ → ℤ) (most : ℤ) → HasLimitedNumbers m →
        IsProper (table_of m) → DominatesBackup (table_of m) value → IsAtMostFromStart m value most →
        m.preamble.discount < one → (policy : Policy) → IsPolicyOf (table_of m) policy →
        EarnsAtMost m policy most }
{}

/// What a graph's own policy earns from a model's start in the long run, if the discount is below 1: from a node at least what the node
/// is worth there by vectors that pass from below, and at most what no vector is worth more than there by vectors that pass from above.
/// So the two numbers enclose what this very policy earns, and such numbers of two graphs compare the two.
pub fn graphs_earn()
    ensures at_least { (m : Meaning) (graph : PolicyGraph) (low : PolicyVectors) → HasLimitedNumbers m →
        IsProper (table_of m) → IsProperGraph graph → Fits (table_of m) graph low →
        Passes (controller_of (table_of m) graph low) → m.preamble.discount < one → (n : ℕ) (worth : ℤ) →
        n < nodes graph → IsStartWorth m low n worth →
        EarnsAtLeast m (as_policy (policy_from graph n)) worth }
    ensures at_most { (m : Meaning) (graph : PolicyGraph) (high : PolicyVectors) → HasLimitedNumbers m →
        IsProper (table_of m) → IsProperGraph graph → Fits (table_of m) graph high →
        PassesAbove (controller_of (table_of m) graph high) → m.preamble.discount < one → (n : ℕ) (most : ℤ) →
        n < nodes graph → IsStartMost m high most → EarnsAtMost m (as_policy (policy_from graph n)) most }

    // The rewards of k steps alone, if no value of the vectors is above `top`, or below `bottom`.
    ensures rewards_at_least { (m : Meaning) (graph : PolicyGraph) (low : PolicyVectors) →
        HasLimitedNumbers m → IsProper (table_of m) → IsProperGraph graph → Fits (table_of m) graph low →
        Passes (controller_of (table_of m) graph low) → (n : ℕ) (worth : ℤ) → n < nodes graph →
        IsStartWorth m low n worth → (k : ℕ) (top : ℤ) →
        ((i s : ℕ) → i < nodes graph → s < states_of m → value_of low i s ≤ℤ top) →
        AreRewardsAtLeast m (as_policy (policy_from graph n)) k top worth }
    ensures rewards_at_most { (m : Meaning) (graph : PolicyGraph) (high : PolicyVectors) →
        HasLimitedNumbers m → IsProper (table_of m) → IsProperGraph graph → Fits (table_of m) graph high →
        PassesAbove (controller_of (table_of m) graph high) → (n : ℕ) (most : ℤ) → n < nodes graph →
        IsStartMost m high most → (k : ℕ) (bottom : ℤ) →
        ((i s : ℕ) → i < nodes graph → s < states_of m → bottom ≤ℤ value_of high i s) →
        AreRewardsAtMost m (as_policy (policy_from graph n)) k bottom most }

    // A policy that earns at least one number, and one that earns at most another: so much more the other may
    // earn.
    ensures compared { (m : Meaning) (policy other : Policy) (low high : ℤ) → EarnsAtLeast m policy low →
        EarnsAtMost m other high → EarnsAtMostMore m policy other (high -ℤ low) }

    // With informed vectors, how far at most the graph's own policy is from the best.
    ensures optimal_to { (m : Meaning) (graph : PolicyGraph) (low : PolicyVectors) (vectors : ℕ → ℕ → ℤ) →
        HasLimitedNumbers m → IsProper (table_of m) → IsProperGraph graph → Fits (table_of m) graph low →
        Passes (controller_of (table_of m) graph low) → AreInformed (table_of m) vectors →
        m.preamble.discount < one → (n : ℕ) (worth most : ℤ) → n < nodes graph → IsStartWorth m low n worth →
        AreAtMostFromStart m vectors most → IsOptimalTo m (policy_from graph n) (most -ℤ worth) }
{}

/// From the start of a model no policy that sees the start state too, as policies of an MDP do, earns more than the mean over the start of
/// what the best of the vectors is worth at each state; and no smaller number bounds them all.
pub fn bounds_where_the_start_is_seen()
    ensures policies { (m : Meaning) (vectors : ℕ → ℕ → ℤ) (most : ℤ) → HasLimitedNumbers m →
        IsProper (table_of m) → AreInformed (table_of m) vectors → IsSeenAtMostFromStart m vectors most →
        BoundEverySeenPolicyFromStart m vectors most }
    ensures mixtures { (m : Meaning) (vectors : ℕ → ℕ → ℤ) (most : ℤ) → HasLimitedNumbers m →
        IsProper (table_of m) → AreInformed (table_of m) vectors → IsSeenAtMostFromStart m vectors most →
        BoundEverySeenMixtureFromStart m vectors most }

    // The test is necessary.
    ensures only_then { (m : Meaning) (vectors : ℕ → ℕ → ℤ) (most : ℤ) → HasLimitedNumbers m →
        BoundEverySeenPolicyFromStart m vectors most → IsSeenAtMostFromStart m vectors most }

    // What is so bounded bounds also what each vector is worth in the mean over the start.
    ensures each { (m : Meaning) (vectors : ℕ → ℕ → ℤ) (most : ℤ) → IsSeenAtMostFromStart m vectors most →
        AreAtMostFromStart m vectors most }

    // The number on the line of a yes.
    ensures number { (m : Meaning) (vectors : PolicyVectors) (most : ℤ) → vectors.nodes ≡ actions_of m →
        IsSeenStartMost m vectors most → IsSeenAtMostFromStart m (value_of vectors) most }
{}

/// If the discount is below 1, the bound of `bounds_where_the_start_is_seen` holds in the long run. With the worth of a graph's node at the
/// start it encloses the optimum over the policies that see the start state.
pub fn optimum_where_the_start_is_seen()
    ensures upper { (m : Meaning) (vectors : ℕ → ℕ → ℤ) (most : ℤ) → HasLimitedNumbers m →
        IsProper (table_of m) → AreInformed (table_of m) vectors → IsSeenAtMostFromStart m vectors most →
        m.preamble.discount < one → (policy : SeenPolicy) → IsSeenPolicyOf m policy →
        SeenEarnsAtMost m (λ s. as_policy (policy s)) most }
    ensures both { (m : Meaning) (graph : PolicyGraph) (low : PolicyVectors) (vectors : ℕ → ℕ → ℤ) →
        HasLimitedNumbers m → IsProper (table_of m) → IsProperGraph graph → Fits (table_of m) graph low →
        Passes (controller_of (table_of m) graph low) → AreInformed (table_of m) vectors →
        m.preamble.discount < one → (n : ℕ) (worth most : ℤ) → n < nodes graph → IsStartWorth m low n worth →
        IsSeenAtMostFromStart m vectors most → EncloseSeenOptimum m worth most }
{}

/// What the number on the line of a yes bounds: every policy of the model from its start, in an MDP also those that see the start state,
/// and every mixture of them. Models that are the same in range have the same number.
pub fn bounds_of_models()
    ensures policies { (m : Meaning) (vectors : PolicyVectors) (most : ℤ) → HasLimitedNumbers m →
        IsProper (table_of m) → vectors.nodes ≡ actions_of m → AreInformed (table_of m) (value_of vectors) →
        IsBoundStartMost m vectors most → BoundEveryPolicyOfModel m (value_of vectors) most }
    ensures mixtures { (m : Meaning) (vectors : PolicyVectors) (most : ℤ) → HasLimitedNumbers m →
        IsProper (table_of m) → vectors.nodes ≡ actions_of m → AreInformed (table_of m) (value_of vectors) →
        IsBoundStartMost m vectors most → BoundEveryMixtureOfModel m (value_of vectors) most }

    // Of the rewards alone, too, and in the long run.
    ensures mixtures_earn { (m : Meaning) (vectors : PolicyVectors) (most : ℤ) → HasLimitedNumbers m →
        IsProper (table_of m) → vectors.nodes ≡ actions_of m → AreInformed (table_of m) (value_of vectors) →
        IsBoundStartMost m vectors most → MixturesOfModelEarnAtMost m (value_of vectors) most }
    ensures same { (m n : Meaning) → IsSame m n → (vectors : PolicyVectors) (most : ℤ) →
        IsBoundStartMost m vectors most → IsBoundStartMost n vectors most }
{}

/// Policies that choose by chance: whatever weights a policy gives the actions after each list of its actions and observations so far, the
/// vectors bound it, the number on the line of a yes bounds it from the start, and so it does in the long run if the discount is below 1.
pub fn bounds_of_randomised_policies()
    ensures each { (t : CellTable) (vectors : ℕ → ℕ → ℤ) → IsProper t → AreInformed t vectors →
        BoundEveryRandomisedPolicy t vectors }
    ensures start { (m : Meaning) (vectors : PolicyVectors) (most : ℤ) → HasLimitedNumbers m →
        IsProper (table_of m) → vectors.nodes ≡ actions_of m → AreInformed (table_of m) (value_of vectors) →
        IsBoundStartMost m vectors most → BoundRandomisedPoliciesOfModel m (value_of vectors) most }
    ensures long_run { (m : Meaning) (vectors : PolicyVectors) (most : ℤ) → HasLimitedNumbers m →
        IsProper (table_of m) → vectors.nodes ≡ actions_of m → AreInformed (table_of m) (value_of vectors) →
        m.preamble.discount < one → IsBoundStartMost m vectors most →
        RandomisedPoliciesOfModelEarnAtMost m most }
{}
