//! That texts have an answer: laws of the definitions, each the contract of a function with nothing to do. Nothing calls them: they are for
//! readers, and for proofs to cite.
ghost use Rattle.std.specs.Prelude.{ℕ, List};
ghost use Rattle.polcert_answers_exist.specs.Existence.{HasAnswer, HasAnswerAbove, HasBoundAnswer};

/// Three texts have a verdict, or a right refusal other than out of memory.
pub fn three_texts_have_an_answer()
    ensures { (model graph vectors : List ℕ) → HasAnswer model graph vectors }
{}

/// Three texts have a verdict from above, or a right refusal other than out of memory.
pub fn three_texts_have_an_answer_above()
    ensures { (model graph vectors : List ℕ) → HasAnswerAbove model graph vectors }
{}

/// A bound's two texts have a verdict, or a right refusal other than out of memory.
pub fn two_texts_have_a_bound_answer()
    ensures { (model vectors : List ℕ) → HasBoundAnswer model vectors }
{}
