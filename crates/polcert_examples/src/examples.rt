//! The definitions at small models, texts and controllers, computed: each contract is an example, and nothing calls the functions.
ghost use Rattle.std.specs.Prelude.{codes, true, false, Some, ◌≡◌, ◌*◌, ◌^◌, ◌∷◌, [], pos, neg_ℤ};
ghost use Rattle.polcert_cells.specs.Meaning.{t_scale, HasProperRows, sum_below, states_of, actions_of, observations_of, start_total};
ghost use Rattle.polcert_cells.specs.declared.elements.StartWeights.{StartWeights};
ghost use Rattle.polcert_cells.specs.Start.{IsStart};
ghost use Rattle.polcert_format.specs.Text.{Denotes};
ghost use Rattle.polcert_format.specs.declared.fault.ItemFault.TheVariants.{DiscountRange};
ghost use Rattle.polcert_format.specs.Refusals.{IsItemRefusal};
ghost use Rattle.polcert_format.specs.FullForm.{full_form};
ghost use Rattle.polcert_check.specs.Horizon.{runs, is_cut, run_weight, weights_sum, worth_sum};
ghost use Rattle.polcert_check.specs.Shortfall as step;
ghost use Rattle.polcert_check.specs.Lower.{lowered_by};
ghost use Rattle.polcert_optimum.specs.Policy.{as_policy, expected_rewards};
ghost use Rattle.polcert_optimum.specs.Informed.{excess};
ghost use Rattle.polcert_examples.specs.Worked.Controllers.{one_state, one_node, half_followed};
ghost use Rattle.polcert_examples.specs.Worked.Examples.{first_row, thirds, decimal_thirds, sixths, patterns, reward_table, whole, reward_cells, general_first, general_last};
ghost use Rattle.polcert_examples.specs.Worked.FullFormExamples.{two_states, two_states_form};
ghost use Rattle.polcert_examples.specs.Worked.RefusedExamples.{above_one};
ghost use Rattle.polcert_examples.specs.Worked.StartExamples.{a_b, shares, uniform_start, halves_start, quarters_start, name_start, include_start, exclude_start, exclude_all};
ghost use Rattle.polcert_examples.specs.Worked.Tiger.{tiger, tiger_model};
ghost use Rattle.polcert_examples.specs.Worked.TigerBound.{listen_and_open, tiger as cells, tiger_vectors};

/// `uniform` over three states is exactly a third each.
pub fn uniform_thirds()
    ensures row { first_row thirds 3 ≡ 1_000_000 ∷ 1_000_000 ∷ 1_000_000 ∷ [] }
    ensures scale { t_scale thirds ≡ 3_000_000 }
    ensures sum { sum_below (thirds.t 0 0) 3 ≡ t_scale thirds }
{}

/// 0.333333 three times isn't one; with 0.333334 last it is.
pub fn decimals_of_thirds()
    ensures short { sum_below ((decimal_thirds 333_333).t 0 0) 3 ≡ 2_999_997 }
    ensures improper { HasProperRows (decimal_thirds 333_333) → ⊥ }
    ensures exact { sum_below ((decimal_thirds 333_334).t 0 0) 3 ≡ t_scale (decimal_thirds 333_334) }
{}

/// Entries of single cells after a `uniform` row take their cells out of it.
pub fn single_cells_after_uniform()
    ensures row { first_row sixths 6 ≡ 3_000_000 ∷ 0 ∷ 0 ∷ 1_000_000 ∷ 1_000_000 ∷ 1_000_000 ∷ [] }
    ensures sum { sum_below (sixths.t 0 0) 6 ≡ t_scale sixths }
{}

/// Of four reward entries with places left open the last that covers a cell holds.
pub fn reward_patterns()
    ensures { reward_table patterns ≡
        whole 7 ∷ whole 2 ∷ whole 7 ∷ whole 8 ∷ whole 7 ∷ whole 0 ∷ whole 7 ∷ whole 6 ∷ [] }
{}

/// Start items over two states: `0.5 0.5` is the uniform start, 0.25 and 0.75 stay millionths, and named states, listed
/// ones or all but some have a share of 1 each. If no state is left, the item isn't right.
pub fn starts()
    ensures uniform { IsStart a_b uniform_start (shares (1 ∷ 1 ∷ []) 2) }
    ensures halves { IsStart a_b halves_start (shares (1 ∷ 1 ∷ []) 2) }
    ensures quarters { IsStart a_b quarters_start (shares (250_000 ∷ 750_000 ∷ []) 1_000_000) }
    ensures name { IsStart a_b name_start (shares (0 ∷ 1 ∷ []) 1) }
    ensures include { IsStart a_b include_start (shares (1 ∷ 0 ∷ []) 1) }
    ensures exclude { IsStart a_b exclude_start (shares (0 ∷ 1 ∷ []) 1) }
    ensures exclude_all { (x : StartWeights) → IsStart a_b exclude_all x → ⊥ }
{}

/// Of two reward entries that cover a cell the last holds, in either order.
pub fn reward_order()
    ensures general_first { reward_cells general_first ≡
        pos 5_000_000 ∷ neg_ℤ (pos 1_000_000) ∷ neg_ℤ (pos 1_000_000) ∷ neg_ℤ (pos 1_000_000) ∷ [] }
    ensures general_last { reward_cells general_last ≡
        neg_ℤ (pos 1_000_000) ∷ neg_ℤ (pos 1_000_000) ∷ neg_ℤ (pos 1_000_000) ∷ neg_ℤ (pos 1_000_000) ∷ [] }
{}

/// The lexemes of the tiger problem are right, and denote its model.
pub fn tiger_problem()
    ensures denotes { Denotes tiger tiger_model }
    ensures states { states_of tiger_model ≡ 2 }
    ensures actions { actions_of tiger_model ≡ 3 }
    ensures observations { observations_of tiger_model ≡ 2 }
    ensures discount { tiger_model.preamble.discount ≡ 950_000 }
    ensures scale { t_scale tiger_model ≡ 2_000_000 }
    ensures opened { tiger_model.t 1 0 1 ≡ 1_000_000 }
    ensures heard { tiger_model.o 0 1 1 ≡ 1_700_000 }
    ensures gold { tiger_model.r 1 1 0 0 ≡ pos 10_000_000 }
    ensures start { tiger_model.start.weights ≡ 1 ∷ 1 ∷ [] }
    ensures total { start_total tiger_model ≡ 2 }
{}

/// The text `discount: 2` is refused for its first item, at the byte where the 2 stands.
pub fn discount_above_one()
    ensures { IsItemRefusal above_one DiscountRange 1 10 }
{}

/// The full form of an MDP, with rewards and with costs.
pub fn full_form_of_an_mdp()
    ensures rewards { full_form (two_states false) ≡ two_states_form (codes "reward") }
    ensures costs { full_form (two_states true) ≡ two_states_form (codes "cost") }
{}

/// One state, one node, a discount of one half, and -1 for each step. The value -2 is backed by one step, and is worth
/// -1 - 1/2 - 1/4 - 2/8 over three. The value 2 is short by 2 on the scale of a step, and lowered by 4 it is backed.
pub fn minus_one_for_each_step()
    ensures backed { step.short (one_node (one_state 1) (neg_ℤ (pos 2_000_000))) 0 0 ≡ pos 0 }
    ensures three_steps { worth_sum (one_node (one_state 1) (neg_ℤ (pos 2_000_000))) 3 (Some 0) 0
        ≡ neg_ℤ (pos (2_000_000 * (10 ^ 12) ^ 3 * (10 ^ 6) ^ 3)) }
    ensures short { step.short (one_node (one_state 1) (pos 2_000_000)) 0 0 ≡ pos (2_000_000 * 10 ^ 18) }
    ensures lowered { step.short (lowered_by (one_node (one_state 1) (pos 2_000_000)) 4_000_000) 0 0 ≡ pos 0 }
{}

/// Of two observations that are the same the second has no successor: of the two runs of one step it cuts the second, which
/// weighs as much as the first.
pub fn a_missing_successor()
    ensures runs { runs (half_followed (pos 0)).cells 1 ≡ ((0, 0) ∷ []) ∷ ((0, 1) ∷ []) ∷ [] }
    ensures cut { is_cut (half_followed (pos 0)) (Some 0) ((0, 1) ∷ []) ≡ true }
    ensures lost { run_weight (half_followed (pos 0)) (Some 0) 0 ((0, 1) ∷ []) ≡ 10 ^ 12 }
    ensures left { weights_sum (half_followed (pos 0)) 1 (Some 0) 0 ≡ pos (10 ^ 12) }
{}

/// The fast informed bound of the tiger. If listening is worth 87.18, its informed backup is
/// -1 + 0.95 * 92.821 = 87.17995, which is 0.00005 less; the doors are worth -100 + 0.95 * 87.18 and
/// 10 + 0.95 * 87.18. If it is worth 87.17, the backup is 0.00995 more. One vector has to be 200 everywhere, since
/// 10 + 0.95 * 200 is 200. All on the scale 4 * 10^18 of one step.
pub fn tiger_is_bounded()
    ensures listen { excess cells (tiger_vectors (pos 87_180_000)) 0 0 ≡ neg_ℤ (pos (50 * (4 * 10 ^ 18))) }
    ensures tiger_door { excess cells (tiger_vectors (pos 87_180_000)) 1 0 ≡ pos 0 }
    ensures other_door { excess cells (tiger_vectors (pos 87_180_000)) 1 1 ≡ pos 0 }
    ensures exceeded { excess cells (tiger_vectors (pos 87_170_000)) 0 0 ≡ pos (9_950 * (4 * 10 ^ 18)) }
    ensures one_vector { excess cells (λ a s. pos 200_000_000) 2 0 ≡ pos 0 }
{}

/// Listening once and opening the other door earns -1 + 0.95 * (0.85 * 10 - 0.15 * 100) = -7.175 in two steps, on the
/// scale (4 * 10^18)^2.
pub fn listening_once_earns()
    ensures { expected_rewards cells (as_policy listen_and_open) 2 0
        ≡ neg_ℤ (pos (7_175_000 * (4 * 10 ^ 18) ^ 2)) }
{}
