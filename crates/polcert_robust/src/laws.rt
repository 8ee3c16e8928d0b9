//! Laws of the definitions, each the contract of a function with nothing to do. Nothing calls them: they are for readers, and for proofs to
//! cite.
ghost use Rattle.std.specs.Prelude.{◌≡◌, ◌<◌, ◌*◌, ◌<ℤ◌, ◌≤ℤ◌, ◌*ℤ◌, ◌-ℤ◌, pos, neg_ℤ, ℕ, ℤ};
ghost use Rattle.polcert_cells.specs.Tables.{CellTable, IsProper};
ghost use Rattle.polcert_policy.specs.Graphs.{PolicyGraph, IsProperGraph};
ghost use Rattle.polcert_policy.specs.Vectors.{PolicyVectors};
ghost use Rattle.polcert_check.specs.Above.{MeetsEveryHorizonAbove};
ghost use Rattle.polcert_check.specs.Horizon.{Controller, Fits, MeetsEveryHorizon, controller_of, one};
ghost use Rattle.polcert_check.specs.Lower.{lowered_by};
ghost use Rattle.polcert_check.specs.Shortfall.{PairPasses, Passes};
ghost use Rattle.polcert_robust.specs.declared.distance.Spread.{Spread};
ghost use Rattle.polcert_robust.specs.Intervals.{IntervalTable, LiesWithin, around, negated};
ghost use Rattle.polcert_robust.specs.Worst.{IsRobust, IsWorstRow, IsWorstStep, MayLack, mean, negated_values, within_model, worst_backing};
ghost use Rattle.polcert_robust.specs.Start.{IsAtMostFrom, IsWorthFrom, StartsWithin};

/// If every pair passes in the worst case, every pair passes in every model that lies within the intervals around the text's probabilities
/// and rewards.
pub fn every_model_near()
    ensures { (i : IntervalTable) (c : Controller) → 0 < i.t_scale → 0 < i.o_scale → ((n : ℕ) →
        n < c.nodes → c.action n < i.actions) → IsRobust i c →
        (parts : ℕ) (m : CellTable) → LiesWithin i parts m → Passes (within_model c parts m) }
{}

/// Where a pair is short in the worst case, it is short in some model that lies within the intervals. (One such model with the scales of
/// the intervals has to be known: the text's own.)
pub fn a_no_is_right()
    ensures { (i : IntervalTable) (c : Controller) (m : CellTable) → LiesWithin i 1 m →
        m.t_scale ≡ i.t_scale → m.o_scale ≡ i.o_scale →
        (n s : ℕ) → c.action n < i.actions → s < i.states → (seen : ℕ → ℕ → ℕ) (ends : ℕ → ℕ) →
        IsWorstStep i c n s seen ends →
        worst_backing i c n s seen ends <ℤ (pos (i.t_scale * i.o_scale * one) *ℤ c.value n s) →
        (worse : CellTable) × LiesWithin i 1 worse × (PairPasses (within_model c 1 worse) n s → ⊥) }
{}

/// If every pair passes in the worst case, then in every model near the text's the promise holds for every number of steps, from every
/// node and state, with the vectors at the end and without; and from above likewise.
pub fn promise_for_every_model_near()
    ensures below { (x : CellTable) (graph : PolicyGraph) (vectors : PolicyVectors)
        (t_by o_by : Spread) (r_by : ℕ) → 0 < x.t_scale → 0 < x.o_scale →
        IsProperGraph graph → Fits x graph vectors →
        IsRobust (around x t_by o_by r_by) (controller_of x graph vectors) →
        (parts : ℕ) (m : CellTable) → LiesWithin (around x t_by o_by r_by) parts m →
        MeetsEveryHorizon (within_model (controller_of x graph vectors) parts m) }
    ensures above { (x : CellTable) (graph : PolicyGraph) (vectors : PolicyVectors)
        (t_by o_by : Spread) (r_by : ℕ) → 0 < x.t_scale → 0 < x.o_scale →
        IsProperGraph graph → Fits x graph vectors →
        IsRobust (negated (around x t_by o_by r_by)) (negated_values (controller_of x graph vectors)) →
        (parts : ℕ) (m : CellTable) → LiesWithin (around x t_by o_by r_by) parts m →
        MeetsEveryHorizonAbove (within_model (controller_of x graph vectors) parts m) }
{}

/// The test of the worst case is necessary too: if every pair passes in every model near the text's, every pair passes in the worst case.
/// And the text's own model is one of those near it.
pub fn worst_case_is_reached()
    ensures itself { (x : CellTable) (t_by o_by : Spread) (r_by : ℕ) → IsProper x →
        LiesWithin (around x t_by o_by r_by) 1 x }
    ensures only_then { (x : CellTable) (c : Controller) (t_by o_by : Spread) (r_by : ℕ) → IsProper x →
        ((n : ℕ) → n < c.nodes → c.action n < x.actions) →
        ((m : CellTable) → LiesWithin (around x t_by o_by r_by) 1 m → Passes (within_model c 1 m)) →
        IsRobust (around x t_by o_by r_by) c }
{}

/// A node is worth at least its mean under the worst start near the text's, from every start near it: in every model in which the promise
/// holds, and for every number of steps. From above likewise.
pub fn worth_from_every_start_near()
    ensures below { (c : Controller) (parts : ℕ) (m : CellTable) →
        MeetsEveryHorizon (within_model c parts m) →
        (low high : ℕ → ℕ) (scale : ℕ) → 0 < scale → (n : ℕ) → n < c.nodes → (worst : ℕ → ℕ) →
        IsWorstRow low high scale m.states (c.value n) worst →
        (worth : ℤ) → (pos scale *ℤ worth) ≤ℤ mean worst (c.value n) m.states →
        (shares : ℕ → ℕ) (total : ℕ) → StartsWithin low high scale m.states shares total →
        (k : ℕ) → IsWorthFrom (within_model c parts m) shares total k n (pos parts *ℤ worth) }
    ensures above { (c : Controller) (parts : ℕ) (m : CellTable) →
        MeetsEveryHorizonAbove (within_model c parts m) →
        (low high : ℕ → ℕ) (scale : ℕ) → 0 < scale → (n : ℕ) → n < c.nodes → (worst : ℕ → ℕ) →
        IsWorstRow low high scale m.states (λ s. neg_ℤ (c.value n s)) worst →
        (most : ℤ) → mean worst (c.value n) m.states ≤ℤ (pos scale *ℤ most) →
        (shares : ℕ → ℕ) (total : ℕ) → StartsWithin low high scale m.states shares total →
        (k : ℕ) → IsAtMostFrom (within_model c parts m) shares total k n (pos parts *ℤ most) }
{}

/// Where no pair may lack an observation, lowering every vector by one constant lowers what backs a value in the worst case by the scales
/// times the discount times the constant, as it lowers what backs it in the text's own model. So the least constant is found as it is
/// there.
pub fn lowering_in_the_worst_case()
    ensures { (i : IntervalTable) (c : Controller) (n s by : ℕ) → ((z : ℕ) → z < i.observations →
        MayLack i c n s z → ⊥) →
        (seen : ℕ → ℕ → ℕ) (ends : ℕ → ℕ) → IsWorstStep i c n s seen ends →
        (lowered_seen : ℕ → ℕ → ℕ) × IsWorstStep i (lowered_by c by) n s lowered_seen ends
        × (worst_backing i (lowered_by c by) n s lowered_seen ends
        ≡ worst_backing i c n s seen ends -ℤ pos i.t_scale *ℤ (pos i.o_scale *ℤ (pos i.discount *ℤ pos by))) }
{}

/// A pair has one worst case: what backs the value there is the same under all worst rows.
pub fn one_worst_case()
    ensures { (i : IntervalTable) (c : Controller) (n s : ℕ) → 0 < i.t_scale → 0 < i.o_scale →
        (seen : ℕ → ℕ → ℕ) (ends : ℕ → ℕ) → IsWorstStep i c n s seen ends →
        (seen_too : ℕ → ℕ → ℕ) (ends_too : ℕ → ℕ) → IsWorstStep i c n s seen_too ends_too →
        worst_backing i c n s seen ends ≡ worst_backing i c n s seen_too ends_too }
{}
