//! The exit status of `polcert_bound` after a check of vectors.
ghost use Rattle.std.specs.Prelude.{◌≡◌};
ghost use Rattle.polcert_bound_answer.specs.Lines.{bound_verdict_status};

use polcert_optimum::InformedVerdict;

/// Returns the exit status for a verdict: 0 for a yes, and 1 for a no.
pub fn status_of_bound_verdict(verdict: InformedVerdict) -> u8
    ensures { result ≡ bound_verdict_status verdict }
{
    match verdict {
        InformedVerdict::Yes => 0,
        InformedVerdict::Exceeded { .. } => 1,
    }
}
