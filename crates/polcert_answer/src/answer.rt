//! The answer to three texts in memory: a model, a policy graph and the graph's vectors.
ghost use Rattle.std.specs.Prelude.{◌≡◌, ◌<◌, IfOk, Ok};
ghost use Rattle.polcert_check.specs.Horizon.{MeetsHorizon};
ghost use Rattle.polcert_check.specs.Above.{MeetsHorizonAbove};
ghost use Rattle.polcert_check.specs.declared.survey.Verdict.TheVariants.{Yes};
ghost use Rattle.polcert_answer.specs.Answer.{IsAnswer, IsAnswerAbove};
ghost use Rattle.polcert_answer.specs.Headline.{Certificate, controller, IsCertified, AreRewardsCertified};
ghost use Rattle.polcert_answer.specs.HeadlineAbove.{CertificateAbove, IsCertifiedAbove, AreRewardsCertifiedAbove, BoundLowerVectors};
ghost use Rattle.polcert_answer.specs.Steps.Reading.{IsTextAnswer};

use crate::bound::{Bound, Lower, Upper};
use crate::fault::Fault;
use crate::runs::read_texts;
use polcert_check::{AboveVerdict, NoProgress, Verdict};
use std::alloc::Global;

/// Returns the verdict on vectors, from the texts of a model, of a policy graph and of the vectors: are they a lower bound on what the
/// graph earns? For callers with texts in memory; the program calls `run_task`.
///
/// # Errors
///
/// The first text that is none of its kind, with the reason and the place; or out of memory.
pub fn check_texts(
    alloc: Global,
    model: &[u8],
    graph: &[u8],
    vectors: &[u8],
) -> Result<Verdict, Fault>
    // The verdict on what the texts denote, or a right refusal of the first that denotes nothing.
    ensures answer { IsAnswer model.now graph.now vectors.now result }

    // The headline: a yes is a certificate, for every number of steps, every node and every state.
    ensures promise { result ≡ Ok Yes → IsCertified model.now graph.now vectors.now }

    // And for the rewards alone, without the vectors at the end.
    ensures rewards { result ≡ Ok Yes → AreRewardsCertified model.now graph.now vectors.now }

    // A no is refuted by one step: at the pair that it names the promise of one step is false, and a
    // missing successor is a run of one step that is cut and weighs more than 0.
    ensures horizon { IfOk result (λ verdict. (c : Certificate model.now graph.now vectors.now)
        → MeetsHorizon (controller c) verdict) }
{
    text_answer::<Lower>(alloc, model, graph, vectors)
}

/// Returns the verdict from above on vectors, from the texts of a model, of a policy graph and of the vectors, each value rounded up: do
/// they bound what the graph earns from above? For callers with texts in memory, as `check_texts` is.
///
/// # Errors
///
/// Those of `check_texts`.
pub fn check_texts_above(
    alloc: Global,
    model: &[u8],
    graph: &[u8],
    vectors: &[u8],
) -> Result<AboveVerdict, Fault>
    // The verdict from above on what the texts denote, or a right refusal of the first that denotes nothing.
    ensures answer { IsAnswerAbove model.now graph.now vectors.now result }

    // The headline from above: a yes bounds what is earned for every number of steps, every node and every
    // state.
    ensures promise { result ≡ Ok AboveVerdict.Yes → IsCertifiedAbove model.now graph.now vectors.now }

    // And for the rewards alone, without the vectors at the end.
    ensures rewards { result ≡ Ok AboveVerdict.Yes
        → AreRewardsCertifiedAbove model.now graph.now vectors.now }

    // And no vectors that pass from below are above these, if the discount is below 1.
    ensures interval { result ≡ Ok AboveVerdict.Yes → BoundLowerVectors model.now graph.now vectors.now }

    // A no is refuted by one step: at the pair that it names the promise of one step is false, and a
    // missing successor is a run of one step that is cut and weighs more than 0.
    ensures horizon { IfOk result (λ verdict. (c : CertificateAbove model.now graph.now vectors.now)
        → MeetsHorizonAbove (controller c) verdict) }
{
    text_answer::<Upper>(alloc, model, graph, vectors)
}

/// Returns the verdict on vectors as bounds of kind `B`, from three texts in memory.
fn text_answer<B: Bound>(
    alloc: Global,
    model: &[u8],
    graph: &[u8],
    vectors: &[u8],
) -> Result<B::Verdict, Fault>
    ensures { IsTextAnswer B.side model.now graph.now vectors.now result }
{
    B::laws();
    let read = read_texts(alloc, B::rounding(), model, graph, vectors)?;
    Ok(B::check::<NoProgress>(&read, &mut NoProgress))
}
