//! The policy that picks best vectors by the belief, at small models, computed: each contract is an example, and nothing calls the
//! functions.
ghost use Rattle.std.specs.Prelude.{◌≡◌, ◌*◌, ◌^◌, ◌∷◌, [], pos};
ghost use Rattle.polcert_check.specs.Above.{PassesAbove};
ghost use Rattle.polcert_check.specs.Shortfall.{Passes};
ghost use Rattle.polcert_check.specs.Shortfall as step;
ghost use Rattle.polcert_optimum.specs.Policy.{as_policy, expected_total};
ghost use Rattle.polcert_belief.specs.Belief.{belief_after, sum_over_belief};
ghost use Rattle.polcert_belief.specs.Following.{PicksBest, policy_of, value_at_end, worth_after};
ghost use Rattle.polcert_examples.specs.Worked.Doors.{even_belief, one_door, other_door, seen_door, two_doors};
ghost use Rattle.polcert_examples.specs.Worked.TigerBound.{tiger as cells};
ghost use Rattle.polcert_examples.specs.Worked.TigerPicks.{heard_twice, node_value, tiger_controller};

/// Two doors, one with the prize. The vectors of the controller that stays at a door are exact, so they bound it from both sides, and each
/// is worth 1 from the even belief. The policy that picks the best vector at each belief changes doors: 1/2 + 1/2 * 2 is 1.5 in one step.
/// So it earns more than the controller, and vectors from above don't bound it.
pub fn doors_are_changed()
    ensures exact_0_0 { step.short one_door 0 0 ≡ pos 0 }
    ensures exact_0_1 { step.short one_door 0 1 ≡ pos 0 }
    ensures exact_1_0 { step.short one_door 1 0 ≡ pos 0 }
    ensures exact_1_1 { step.short one_door 1 1 ≡ pos 0 }
    ensures below { Passes one_door }
    ensures above { PassesAbove one_door }
    ensures worth_0 { sum_over_belief two_doors even_belief (one_door.value 0) ≡ pos 2_000_000 }
    ensures worth_1 { sum_over_belief two_doors even_belief (one_door.value 1) ≡ pos 2_000_000 }
    ensures picks { PicksBest one_door even_belief seen_door }
    ensures earns { sum_over_belief two_doors even_belief (λ s.
        expected_total two_doors (value_at_end one_door seen_door s)
        (as_policy (policy_of one_door seen_door)) 1 s)
        ≡ pos (3_000_000 * (4 * 10 ^ 18)) }

    // Picks that are not the best earn less than the vectors are worth.
    ensures other { sum_over_belief two_doors even_belief (λ s.
        expected_total two_doors (value_at_end one_door other_door s)
        (as_policy (policy_of one_door other_door)) 1 s)
        ≡ pos (1_000_000 * (4 * 10 ^ 18)) }
{}

/// The tiger heard twice on the left is there 289 times of 298, and node 3, which opens the right door, is worth more at that belief than
/// listening again. Heard once on each side, the belief is even once more. In two steps from the even belief, of mass 2, the policy
/// comes to 38.7427221962 with the values at the end, where the certified worth is 38.74272.
pub fn tiger_is_heard()
    ensures left { belief_after cells (policy_of tiger_controller heard_twice) even_belief (0 ∷ 0 ∷ []) 0
        ≡ 289 * (4 * 10 ^ 22) }
    ensures right { belief_after cells (policy_of tiger_controller heard_twice) even_belief (0 ∷ 0 ∷ []) 1
        ≡ 9 * (4 * 10 ^ 22) }
    ensures both { belief_after cells (policy_of tiger_controller heard_twice) even_belief (0 ∷ 1 ∷ []) 0
        ≡ belief_after cells (policy_of tiger_controller heard_twice) even_belief (0 ∷ 1 ∷ []) 1 }
    ensures opening { worth_after tiger_controller even_belief heard_twice (0 ∷ 0 ∷ []) 3
        ≡ pos (7_474_032_016 * (4 * 10 ^ 22)) }
    ensures listening { worth_after tiger_controller even_belief heard_twice (0 ∷ 0 ∷ []) 1
        ≡ pos (7_164_182_436 * (4 * 10 ^ 22)) }
    ensures certified { sum_over_belief cells even_belief (node_value 0) ≡ pos 38_742_720 }
    ensures earns { sum_over_belief cells even_belief (λ s. expected_total cells
        (value_at_end tiger_controller heard_twice s) (as_policy (policy_of tiger_controller heard_twice)) 2
        s)
        ≡ pos (387_427_221_962 * (16 * 10 ^ 32)) }
{}
