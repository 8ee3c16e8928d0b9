//! Laws of the definitions, each the contract of a function with nothing to do. Nothing calls them: they are for readers, and for proofs to
//! cite.
ghost use Rattle.std.specs.Prelude.{◌<◌, ◌≤ℤ◌, ℕ, ℤ, List, Result, Ok};
ghost use Rattle.polcert_cells.specs.Meaning.{states_of};
ghost use Rattle.polcert_policy.specs.Graphs.{nodes};
ghost use Rattle.polcert_policy.specs.Vectors.{value_of};
ghost use Rattle.polcert_check.specs.declared.above.AboveVerdict.{AboveVerdict};
ghost use Rattle.polcert_check.specs.declared.survey.Verdict.{Verdict};
ghost use Rattle.polcert_check.specs.declared.survey.Verdict.TheVariants.{Yes};
ghost use Rattle.polcert_check.specs.Horizon.{Promise, one};
ghost use Rattle.polcert_check.specs.Above.{PromiseAbove};
ghost use Rattle.polcert_answer.specs.declared.fault.Fault.{Fault};
ghost use Rattle.polcert_check.specs.StartWorth.{IsStartWorth, StartPromise};
ghost use Rattle.polcert_check.specs.StartMost.{IsStartMost, StartPromiseAbove};
ghost use Rattle.polcert_answer.specs.Answer.{IsAnswer, IsAnswerAbove, IsButForMemory};
ghost use Rattle.polcert_answer.specs.OneAnswer.{HasOneVerdict, RefusesTheFirst, HasOneRefusal};
ghost use Rattle.polcert_answer.specs.Headline.{Certificate, controller, IsCertified, AreRewardsCertified};
ghost use Rattle.polcert_answer.specs.HeadlineAbove.{CertificateAbove, IsCertifiedAbove, AreRewardsCertifiedAbove};

use polcert_check::AboveVerdict;

/// The answer yes is a certificate: where every pair of a node and a state passes one step, the promise
/// holds for every number of steps, with the vectors at the end and for the rewards alone; and so it does
/// from the start.
pub fn yes_is_a_certificate()
    ensures promise { (model graph vectors : List ℕ)
        → IsAnswer model graph vectors (Ok Yes) → IsCertified model graph vectors }
    ensures rewards { (model graph vectors : List ℕ)
        → IsAnswer model graph vectors (Ok Yes) → AreRewardsCertified model graph vectors }

    // From each node no less is expected from the start, with the vectors at the end, than the node is
    // worth there.
    ensures start { (model graph vectors : List ℕ) → IsAnswer model graph vectors (Ok Yes) →
        (c : Certificate model graph vectors) (k n : ℕ) (worth : ℤ) → n < nodes c.policy →
        IsStartWorth c.meaning c.values n worth → StartPromise c.meaning (controller c) k n worth }
{}

/// The converse of the headline: texts that are certified are answered yes, and nothing else but out of memory
/// answers them. The promise of one step is enough.
pub fn certified_texts_are_answered_yes()
    ensures one_step { (model graph vectors : List ℕ) → Certificate model graph vectors
        → ((c : Certificate model graph vectors) (n s : ℕ) → n < nodes c.policy → s < states_of c.meaning
        → Promise (controller c) 1 n s)
        → IsAnswer model graph vectors (Ok Yes) }
    ensures answered { (model graph vectors : List ℕ)
        → IsCertified model graph vectors → IsAnswer model graph vectors (Ok Yes) }
    ensures no_other { (model graph vectors : List ℕ) → IsCertified model graph vectors
        → (result : Result Verdict Fault) → IsAnswer model graph vectors result → IsButForMemory Yes result }
{}

/// Three texts have one answer, out of memory aside: one verdict, or the refusal of one of them, for one
/// reason at one place.
pub fn one_answer()
    // There is one verdict, and no refusal beside it.
    ensures verdict { HasOneVerdict IsAnswer }

    // If the model is refused, the graph and the vectors are not, not even as out of memory; and if
    // the graph is, the vectors are not.
    ensures first { RefusesTheFirst IsAnswer }

    // Each text is refused for one reason, at one place.
    ensures refusal { HasOneRefusal IsAnswer }
{}

/// The answer yes from above bounds what is earned: where every pair of a node and a state passes one step,
/// the promise from above holds for every number of steps, with the vectors at the end and for the rewards
/// alone; and so it does from the start.
pub fn yes_above_is_a_certificate()
    ensures promise { (model graph vectors : List ℕ)
        → IsAnswerAbove model graph vectors (Ok AboveVerdict.Yes) → IsCertifiedAbove model graph vectors }
    ensures rewards { (model graph vectors : List ℕ)
        → IsAnswerAbove model graph vectors (Ok AboveVerdict.Yes)
        → AreRewardsCertifiedAbove model graph vectors }

    // From each node no more is expected from the start, with the vectors at the end, than the node is
    // worth that is worth most there.
    ensures start { (model graph vectors : List ℕ) → IsAnswerAbove model graph vectors (Ok AboveVerdict.Yes) →
        (c : CertificateAbove model graph vectors) (k n : ℕ) (most : ℤ) → n < nodes c.policy →
        IsStartMost c.meaning c.values most → StartPromiseAbove c.meaning (controller c) k n most }
{}

/// The converse from above: texts that are certified from above are answered yes from above, and nothing else
/// but out of memory answers them. The promise of one step is enough.
pub fn certified_texts_above_are_answered_yes()
    ensures one_step { (model graph vectors : List ℕ) → CertificateAbove model graph vectors
        → ((c : CertificateAbove model graph vectors) (n s : ℕ) → n < nodes c.policy → s < states_of c.meaning
        → PromiseAbove (controller c) 1 n s)
        → IsAnswerAbove model graph vectors (Ok AboveVerdict.Yes) }
    ensures answered { (model graph vectors : List ℕ)
        → IsCertifiedAbove model graph vectors → IsAnswerAbove model graph vectors (Ok AboveVerdict.Yes) }
    ensures no_other { (model graph vectors : List ℕ) → IsCertifiedAbove model graph vectors
        → (result : Result AboveVerdict Fault) → IsAnswerAbove model graph vectors result
        → IsButForMemory AboveVerdict.Yes result }
{}

/// Two yeses to one model and graph, one from below and one from above, are an interval where the discount
/// is below 1: no value of the lower vectors is above that of the upper ones.
pub fn bounds_of_texts_are_an_interval()
    ensures { (model graph low high : List ℕ)
        → IsAnswer model graph low (Ok Yes)
        → IsAnswerAbove model graph high (Ok AboveVerdict.Yes)
        → (c : Certificate model graph low) (d : CertificateAbove model graph high)
        → c.meaning.preamble.discount < one
        → (n s : ℕ) → n < nodes c.policy → s < states_of c.meaning
        → value_of c.values n s ≤ℤ value_of d.values n s }
{}

/// Three texts have one answer from above, out of memory aside: one verdict, or the refusal of one of them,
/// for one reason at one place.
pub fn one_answer_above()
    // There is one verdict, and no refusal beside it.
    ensures verdict { HasOneVerdict IsAnswerAbove }

    // If the model is refused, the graph and the vectors are not, not even as out of memory; and if
    // the graph is, the vectors are not.
    ensures first { RefusesTheFirst IsAnswerAbove }

    // Each text is refused for one reason, at one place.
    ensures refusal { HasOneRefusal IsAnswerAbove }
{}
