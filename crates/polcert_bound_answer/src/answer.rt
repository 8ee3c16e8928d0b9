//! The answer to two texts in memory: a model, and one vector for each of its actions.
ghost use Rattle.std.specs.Prelude.{◌≡◌, IfOk, Ok};
ghost use Rattle.polcert_cells.specs.Tables.{table_of};
ghost use Rattle.polcert_policy.specs.Vectors.{value_of};
ghost use Rattle.polcert_optimum.specs.InformedCheck.{MeetsInformedPromise};
ghost use Rattle.polcert_bound_answer.specs.Answer.{IsBoundAnswer};
ghost use Rattle.polcert_bound_answer.specs.Headline.{BoundCertificate, IsCertifiedBound};

use crate::inputs::read_bound_texts;
use polcert_answer::Fault;
use polcert_optimum::{InformedVerdict, check_informed};
use std::alloc::Global;

/// Returns the answer to the texts of a model and of vectors, one for each action of the model, each value rounded up: whether the vectors
/// bound what every policy earns that sees the observations alone. For callers with texts in memory; the program calls `run_bound_check`.
///
/// # Errors
///
/// The first text that is none of its kind, with the reason and the place; or out of memory. It is never `Graph`.
pub fn check_bound_texts(
    alloc: Global,
    model: &[u8],
    vectors: &[u8],
) -> Result<InformedVerdict, Fault>
    // The verdict on what the texts denote, or a right refusal of the first that denotes nothing.
    ensures answer { IsBoundAnswer model.now vectors.now result }

    // The headline: a yes bounds every policy, with the vectors at the end, for every number of steps, from
    // every state and from the start.
    ensures promise { result ≡ Ok InformedVerdict.Yes → IsCertifiedBound model.now vectors.now }

    // A no says that the vectors don't bound every policy with the vectors at the end.
    ensures horizon { IfOk result (λ verdict. (c : BoundCertificate model.now vectors.now)
        → MeetsInformedPromise (table_of c.meaning) (value_of c.values) verdict) }
{
    let read = read_bound_texts(alloc, model, vectors)?;
    Ok(check_informed(&read.model, &read.vectors))
}
