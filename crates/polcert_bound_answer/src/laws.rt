//! Laws of the definitions, each the contract of a function with nothing to do. Nothing calls them: they are for readers, and for proofs to
//! cite.
ghost use Rattle.std.specs.Prelude.{true, ◌≡◌, ◌≢◌, ◌<◌, ◌-ℤ◌, ◌≤ℤ◌, ℕ, ℤ, List, Result, Ok};
ghost use Rattle.polcert_format.specs.declared.fault.ModelFault.{ModelFault};
ghost use Rattle.polcert_model.specs.Refusals.{SaysOfText};
ghost use Rattle.polcert_policy.specs.declared.fault.VectorFault.{VectorFault};
ghost use Rattle.polcert_policy.specs.declared.fault.VectorFault.TheVariants as values;
ghost use Rattle.polcert_check.specs.declared.survey.Verdict.TheVariants.{Yes};
ghost use Rattle.polcert_check.specs.declared.above.AboveVerdict.TheVariants as above;
ghost use Rattle.polcert_check.specs.Horizon.{one};
ghost use Rattle.polcert_check.specs.StartMost.{IsStartMost};
ghost use Rattle.polcert_policy.specs.Graphs.{nodes};
ghost use Rattle.polcert_check.specs.StartWorth.{IsBestStart, IsStartWorth};
ghost use Rattle.polcert_optimum.specs.declared.verdict.InformedVerdict.{InformedVerdict};
ghost use Rattle.polcert_cells.specs.Meaning.{states_of};
ghost use Rattle.polcert_optimum.specs.Earnings.{AreRewardsAtLeast, AreRewardsAtMost, IsOptimalTo, policy_from};
ghost use Rattle.polcert_optimum.specs.Optimum.{EarnsAtLeast, EarnsAtMost, EncloseOptimum};
ghost use Rattle.polcert_optimum.specs.Policy.{as_policy};
ghost use Rattle.polcert_optimum.specs.Randomised.{BoundRandomisedPoliciesOfModel, RandomisedPoliciesOfModelEarnAtMost};
ghost use Rattle.polcert_optimum.specs.Seen.{EncloseSeenOptimum, IsBoundStartMost};
ghost use Rattle.polcert_policy.specs.Vectors.{value_of};
ghost use Rattle.polcert_cells.specs.Preamble.{is_mdp};
ghost use Rattle.polcert_answer.specs.declared.fault.Fault.{Fault};
ghost use Rattle.polcert_answer.specs.Answer.{IsAnswer, IsAnswerAbove, IsButForMemory, IsOutOfMemory};
ghost use Rattle.polcert_answer.specs.Headline.{Certificate};
ghost use Rattle.polcert_answer.specs.HeadlineAbove.{CertificateAbove};
ghost use Rattle.polcert_bound_answer.specs.Answer.{IsBoundAnswer};
ghost use Rattle.polcert_bound_answer.specs.Headline.{BoundCertificate, IsCertifiedBound};

use polcert_answer::Fault;
use polcert_optimum::InformedVerdict;

/// The converse of the headline: texts whose vectors bound every policy are answered yes, and nothing else but out of memory answers them.
pub fn certified_bounds_are_answered_yes()
    ensures answered { (model vectors : List ℕ) → IsCertifiedBound model vectors →
        IsBoundAnswer model vectors (Ok InformedVerdict.Yes) }
    ensures no_other { (model vectors : List ℕ) → IsCertifiedBound model vectors →
        (result : Result InformedVerdict Fault) → IsBoundAnswer model vectors result →
        IsButForMemory InformedVerdict.Yes result }
{}

/// Two texts have one answer, unless memory ran out: one verdict, or a refusal of one of them.
pub fn one_bound_answer()
    ensures verdict { (model vectors : List ℕ) (x y : InformedVerdict) →
        IsBoundAnswer model vectors (Ok x) → IsBoundAnswer model vectors (Ok y) → x ≡ y }
    ensures no_refusal { (model vectors : List ℕ) (x : InformedVerdict) (fault : Fault) →
        IsBoundAnswer model vectors (Ok x) → IsBoundAnswer model vectors (Err fault) → IsOutOfMemory fault }

    // If the model is refused, the vectors are not.
    ensures first { (model vectors : List ℕ) (f : ModelFault) (g : VectorFault) → SaysOfText f →
        IsBoundAnswer model vectors (Err (Fault.Model f)) →
        IsBoundAnswer model vectors (Err (Fault.Vectors g)) → ⊥ }

    // Each text is refused for one reason, at one place.
    ensures model_refusal { (model vectors : List ℕ) (f g : ModelFault) → SaysOfText f → SaysOfText g →
        IsBoundAnswer model vectors (Err (Fault.Model f)) →
        IsBoundAnswer model vectors (Err (Fault.Model g)) → f ≡ g }
    ensures refusal { (model vectors : List ℕ) (f g : VectorFault) → f ≢ values.Memory → g ≢ values.Memory →
        IsBoundAnswer model vectors (Err (Fault.Vectors f)) →
        IsBoundAnswer model vectors (Err (Fault.Vectors g)) → f ≡ g }
{}

/// The interval that holds the optimum. If the discount is below 1, a yes to the vectors of any graph and a yes to vectors of the actions
/// of the same model: the best policy from the start is worth at least the number of the one line and at most that of the other.
pub fn texts_enclose_the_optimum()
    ensures optimum { (model graph low high : List ℕ) → IsAnswer model graph low (Ok Yes) →
        IsBoundAnswer model high (Ok InformedVerdict.Yes) →
        (c : Certificate model graph low) (d : BoundCertificate model high) →
        c.meaning.preamble.discount < one → (n : ℕ) (worth most : ℤ) → IsBestStart c.meaning c.values n →
        IsStartWorth c.meaning c.values n worth → IsBoundStartMost d.meaning d.values most →
        EncloseOptimum c.meaning worth most }

    // In an MDP also the best of the policies that see the start state.
    ensures seen { (model graph low high : List ℕ) → IsAnswer model graph low (Ok Yes) →
        IsBoundAnswer model high (Ok InformedVerdict.Yes) →
        (c : Certificate model graph low) (d : BoundCertificate model high) →
        is_mdp c.meaning.preamble ≡ true → c.meaning.preamble.discount < one → (n : ℕ) (worth most : ℤ) →
        IsBestStart c.meaning c.values n → IsStartWorth c.meaning c.values n worth →
        IsBoundStartMost d.meaning d.values most → EncloseSeenOptimum c.meaning worth most }
{}

/// What a graph's own policy earns from the start in the long run, if the discount is below 1: at least the number on the line of a yes
/// from below, whose node it begins at, and at most the number on the line of a yes from above. And with a yes to vectors of the actions no
/// policy that sees the observations alone earns more than the difference of the numbers more.
pub fn texts_say_what_the_graph_earns()
    ensures at_least { (model graph low : List ℕ) → IsAnswer model graph low (Ok Yes) →
        (c : Certificate model graph low) → c.meaning.preamble.discount < one → (n : ℕ) (worth : ℤ) →
        n < nodes c.policy → IsStartWorth c.meaning c.values n worth →
        EarnsAtLeast c.meaning (as_policy (policy_from c.policy n)) worth }
    ensures at_most { (model graph high : List ℕ) → IsAnswerAbove model graph high (Ok above.Yes) →
        (c : CertificateAbove model graph high) → c.meaning.preamble.discount < one → (n : ℕ) (most : ℤ) →
        n < nodes c.policy → IsStartMost c.meaning c.values most →
        EarnsAtMost c.meaning (as_policy (policy_from c.policy n)) most }

    // In k steps, without the vectors at the end: with any discount, if no value is above `top`, or below
    // `bottom`.
    ensures rewards_at_least { (model graph low : List ℕ) → IsAnswer model graph low (Ok Yes) →
        (c : Certificate model graph low) (n : ℕ) (worth : ℤ) → n < nodes c.policy →
        IsStartWorth c.meaning c.values n worth → (k : ℕ) (top : ℤ) →
        ((i s : ℕ) → i < nodes c.policy → s < states_of c.meaning → value_of c.values i s ≤ℤ top) →
        AreRewardsAtLeast c.meaning (as_policy (policy_from c.policy n)) k top worth }
    ensures rewards_at_most { (model graph high : List ℕ) → IsAnswerAbove model graph high (Ok above.Yes) →
        (c : CertificateAbove model graph high) (n : ℕ) (most : ℤ) → n < nodes c.policy →
        IsStartMost c.meaning c.values most → (k : ℕ) (bottom : ℤ) →
        ((i s : ℕ) → i < nodes c.policy → s < states_of c.meaning → bottom ≤ℤ value_of c.values i s) →
        AreRewardsAtMost c.meaning (as_policy (policy_from c.policy n)) k bottom most }

    // With a yes to each of two texts of vectors of the same graph, between the two numbers.
    ensures between { (model graph low high : List ℕ) → IsAnswer model graph low (Ok Yes) →
        IsAnswerAbove model graph high (Ok above.Yes) →
        (c : Certificate model graph low) (d : CertificateAbove model graph high) →
        c.meaning.preamble.discount < one → (n : ℕ) (worth most : ℤ) → n < nodes c.policy →
        IsStartWorth c.meaning c.values n worth → IsStartMost d.meaning d.values most →
        EarnsAtLeast c.meaning (as_policy (policy_from c.policy n)) worth
        × EarnsAtMost c.meaning (as_policy (policy_from c.policy n)) most }

    // How far at most the graph's own policy is from the best of those that see the observations alone.
    ensures optimal_to { (model graph low high : List ℕ) → IsAnswer model graph low (Ok Yes) →
        IsBoundAnswer model high (Ok InformedVerdict.Yes) →
        (c : Certificate model graph low) (d : BoundCertificate model high) →
        c.meaning.preamble.discount < one → (n : ℕ) (worth most : ℤ) → n < nodes c.policy →
        IsStartWorth c.meaning c.values n worth → IsBoundStartMost d.meaning d.values most →
        IsOptimalTo c.meaning (policy_from c.policy n) (most -ℤ worth) }
{}

/// The number on the line of a yes bounds policies that choose by chance too, from the model's start: for every number of steps, and in the
/// long run if the discount is below 1.
pub fn texts_bound_randomised_policies()
    ensures start { (model vectors : List ℕ) → IsBoundAnswer model vectors (Ok InformedVerdict.Yes) →
        (c : BoundCertificate model vectors) (most : ℤ) → IsBoundStartMost c.meaning c.values most →
        BoundRandomisedPoliciesOfModel c.meaning (value_of c.values) most }
    ensures long_run { (model vectors : List ℕ) → IsBoundAnswer model vectors (Ok InformedVerdict.Yes) →
        (c : BoundCertificate model vectors) → c.meaning.preamble.discount < one → (most : ℤ) →
        IsBoundStartMost c.meaning c.values most → RandomisedPoliciesOfModelEarnAtMost c.meaning most }
{}
