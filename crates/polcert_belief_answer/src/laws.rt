//! Laws of the definitions, each the contract of a function with nothing to do. Nothing calls them: they are for readers, and for proofs to
//! cite.
ghost use Rattle.std.specs.Prelude.{true, ◌≡◌, ◌<◌, ℕ, ℤ, List, Ok};
ghost use Rattle.polcert_cells.specs.Meaning.{start_weight, states_of};
ghost use Rattle.polcert_cells.specs.Preamble.{is_mdp};
ghost use Rattle.polcert_policy.specs.Graphs.{PolicyGraph};
ghost use Rattle.polcert_policy.specs.Vectors.{PolicyVectors, shifted_by};
ghost use Rattle.polcert_policy.specs.VectorText.{IsVectorsText};
ghost use Rattle.polcert_check.specs.declared.survey.Verdict.TheVariants.{Yes};
ghost use Rattle.polcert_check.specs.Horizon.{one};
ghost use Rattle.polcert_check.specs.StartWorth.{IsBestStart, IsStartWorth};
ghost use Rattle.polcert_optimum.specs.declared.verdict.InformedVerdict.{InformedVerdict};
ghost use Rattle.polcert_optimum.specs.Optimum.{EncloseOptimum};
ghost use Rattle.polcert_optimum.specs.Seen.{EncloseSeenOptimum, IsBoundStartMost};
ghost use Rattle.polcert_answer.specs.Answer.{IsAnswer};
ghost use Rattle.polcert_answer.specs.Headline.{Certificate, IsCertified, controller};
ghost use Rattle.polcert_bound_answer.specs.Answer.{IsBoundAnswer};
ghost use Rattle.polcert_bound_answer.specs.Headline.{BoundCertificate};
ghost use Rattle.polcert_belief.specs.Belief.{Belief};
ghost use Rattle.polcert_belief.specs.Following.{PicksBest, Selector, policy_of};
ghost use Rattle.polcert_belief.specs.Tolerance.{PicksGreatest, PicksWithin, run_worth};
ghost use Rattle.polcert_belief_answer.specs.Headline.{IsCertifiedByBelief, IsCertifiedByBeliefWithin};
ghost use Rattle.polcert_belief_answer.specs.Written.{AreMoved, AreWritten};

use polcert_optimum::InformedVerdict;

/// The answer yes holds of the policy that picks a best of the vectors at each belief: it earns at least the number of the line. If each
/// pick is within a tolerance of the best, it earns that less the tolerance for each pick, discounted.
pub fn yes_is_certified_by_belief()
    ensures exactly { (model graph vectors : List ℕ) → IsAnswer model graph vectors (Ok Yes) →
        IsCertifiedByBelief model graph vectors }

    // So it is if the headline holds of the texts, as the calls promise of a yes.
    ensures headline { (model graph vectors : List ℕ) → IsCertified model graph vectors →
        IsCertifiedByBelief model graph vectors }
    ensures within { (by d : ℕ) (model graph vectors : List ℕ) → IsAnswer model graph vectors (Ok Yes) →
        IsCertifiedByBeliefWithin by d model graph vectors }
{}

/// The vectors of a file as they are written, with all their decimals, in the place of those that were checked. If they are read as the
/// checked ones, or as vectors of which these are moved by one constant, each pick of a best one is within a millionth of the best.
pub fn written_vectors_are_near()
    ensures picks { (model graph vectors own : List ℕ) (c : Certificate model graph vectors)
        (read : PolicyVectors) (written : ℕ → ℕ → ℤ) (by : ℤ) →
        AreWritten c.policy (states_of c.meaning) own read written →
        AreMoved c.policy (states_of c.meaning) read by c.values → (belief : Belief) (selector : Selector) →
        PicksGreatest (controller c) selector (run_worth (controller c) belief selector written) →
        PicksWithin 1 1 (controller c) belief selector }

    // Lowered vectors are moved so.
    ensures lowered { (graph : PolicyGraph) (states : ℕ) (text : List ℕ) (vectors : PolicyVectors)
        (written : ℕ → ℕ → ℤ) (by : ℤ) → AreWritten graph states text vectors written →
        AreMoved graph states vectors by (shifted_by vectors by) }

    // Each text of vectors has such numbers.
    ensures exist { (graph : PolicyGraph) (states : ℕ) (text : List ℕ) (vectors : PolicyVectors) →
        IsVectorsText graph states text vectors →
        (written : ℕ → ℕ → ℤ) × AreWritten graph states text vectors written }
{}

/// If the discount is below 1, a yes to the vectors of any graph and a yes to vectors of the actions of the same model enclose the optimum;
/// and the policy that is at least as good as the lower number is the one that picks a best of the lower vectors at each belief.
pub fn texts_name_a_policy()
    ensures optimum { (model graph low high : List ℕ) → IsAnswer model graph low (Ok Yes) →
        IsBoundAnswer model high (Ok InformedVerdict.Yes) →
        (c : Certificate model graph low) (d : BoundCertificate model high) →
        c.meaning.preamble.discount < one → (selector : Selector) →
        PicksBest (controller c) (start_weight c.meaning) selector →
        (n : ℕ) (worth most : ℤ) → IsBestStart c.meaning c.values n →
        IsStartWorth c.meaning c.values n worth → IsBoundStartMost d.meaning d.values most →
        (e : EncloseOptimum c.meaning worth most) × (e.policy ≡ policy_of (controller c) selector) }

    // In an MDP it is so too among the policies that see the start state, which it need not see.
    ensures seen { (model graph low high : List ℕ) → IsAnswer model graph low (Ok Yes) →
        IsBoundAnswer model high (Ok InformedVerdict.Yes) →
        (c : Certificate model graph low) (d : BoundCertificate model high) →
        is_mdp c.meaning.preamble ≡ true → c.meaning.preamble.discount < one → (selector : Selector) →
        PicksBest (controller c) (start_weight c.meaning) selector →
        (n : ℕ) (worth most : ℤ) → IsBestStart c.meaning c.values n →
        IsStartWorth c.meaning c.values n worth → IsBoundStartMost d.meaning d.values most →
        (e : EncloseSeenOptimum c.meaning worth most)
        × ((s : ℕ) → e.policy s ≡ policy_of (controller c) selector) }
{}
