//! What a walk over all pairs finds.
ghost use Rattle.std.specs.Prelude.{◌≡◌, ◌+◌, ◌<◌, ◌≤◌, ◌⊎◌, ℕ, pos, ◌<ℤ◌, IfNone, IfSome};
ghost use Rattle.polcert_check.specs.Horizon.{Controller};
ghost use Rattle.polcert_robust.specs.Intervals.{IntervalTable};
ghost use Rattle.polcert_robust.specs.Steps.Pairs.{IsRobustPair};
ghost use Rattle.polcert_robust.specs.Steps.Surveys.{HasSuccessors, IsFirstNo, IsLackFault, IsSurveyedBefore};

use polcert_check::{LowerFault, Verdict};

/// What is found at the pairs so far, of which none may lack an observation.
#[derive(Clone, Copy)]
pub(crate) struct RobustFindings {
    /// The first pair that is short, and by how much; yes if there is none.
    pub first: Verdict,
    /// The greatest shortfall, or 0.
    pub worst: u128,
}

/// Returns why no constant mends a pair with this verdict: an observation that may be received has no successor. `None`: the verdict names
/// none.
pub(crate) fn lack_of(verdict: Verdict) -> Option<LowerFault>
    ensures some { IfSome result (IsLackFault verdict) }
    ensures none { IfNone result (HasSuccessors verdict) }
{
    match verdict {
        Verdict::Yes | Verdict::Short { .. } => None,
        Verdict::NoSuccessor {
            node,
            state,
            observation,
        } => Some(LowerFault::NoSuccessor {
            node,
            state,
            observation,
        }),
    }
}

/// Returns the verdict so far if it is a no, else the one that is found.
fn keep_first_no(so_far: Verdict, found: Verdict) -> Verdict
    ensures { IsFirstNo so_far found result }
{
    match so_far {
        Verdict::Yes => found,
        Verdict::Short { .. } | Verdict::NoSuccessor { .. } => so_far,
    }
}

/// Returns the greater of two numbers.
fn max_amount(x: u128, y: u128) -> u128
    ensures left { x ≤ result }
    ensures right { y ≤ result }
    ensures is_one { (result ≡ x) ⊎ (result ≡ y) }
{
    if x < y { y } else { x }
}

/// Returns the findings after the next pair, which has this verdict.
pub(crate) fn with_finding(findings: RobustFindings, verdict: Verdict) -> RobustFindings
    ensures { (i : IntervalTable) (c : Controller) (n s : ℕ) → n < c.nodes → s < i.states →
        IsRobustPair i c n s verdict → HasSuccessors verdict →
        IsSurveyedBefore i c n s findings → IsSurveyedBefore i c n (s + 1) result }
{
    match verdict {
        Verdict::Yes => findings,
        Verdict::NoSuccessor { .. } => findings,
        Verdict::Short { amount, .. } => RobustFindings {
            first: keep_first_no(findings.first, verdict),
            worst: max_amount(findings.worst, amount.unsigned_abs()),
        },
    }
}
