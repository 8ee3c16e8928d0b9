//! What a walk over the pairs of a node and a state has found, and the side that it checks.
ghost use Rattle.std.specs.Prelude.{◌≡◌, ◌≤◌, ◌+◌, ◌⊎◌, ◌↔◌, ℕ, IsTrue, ◌<◌, ◌^◌, ◌<ℤ◌, ◌≤ℤ◌, IfNone, IfSome};
ghost use Rattle.std.specs.Prelude.{pos, unsigned_abs};
ghost use Rattle.polcert_check.specs.Horizon.{Controller};
ghost use Rattle.polcert_check.specs.Steps.Factored.{IsPairVerdict};
ghost use Rattle.polcert_check.specs.Steps.Findings.{IsEarlier, IsFoundBefore, IsPair, NamesUntil};
ghost use Rattle.polcert_check.specs.declared.survey.Verdict.TheVariants.{Yes};
ghost use Rattle.polcert_policy.specs.Vectors.{IsInRange};
ghost use Rattle.polcert_check.specs.Steps.Mirrored.{signed_from};

use crate::survey::Verdict;

/// What the pairs are walked for.
#[derive(Clone, Copy)]
pub(crate) enum Mode {
    /// The first pair that fails.
    Check,
    /// The first pair that lacks an observation; or if none does, which no lowering would mend, how short the others are.
    Lowering,
}

/// What a walk over pairs of a node and a state has found so far.
#[derive(Clone, Copy)]
pub(crate) struct Findings {
    pub mode: Mode,
    /// The first pair that is sought, by node and then by state, and why it fails; yes if there is none.
    pub first: Verdict,
    /// For a lowering the first pair that is short, and by how much; yes if there is none.
    pub short: Verdict,
    /// For a lowering the greatest shortfall, or 0.
    pub worst: u128,
}

/// Returns the greater of two numbers.
fn greater(x: u128, y: u128) -> u128
    ensures left { x ≤ result }
    ensures right { y ≤ result }
    ensures is_one { (result ≡ x) ⊎ (result ≡ y) }
{
    if x < y { y } else { x }
}

/// Tests whether the verdict names a pair of node `n` or of an earlier one.
fn names_until(verdict: Verdict, n: usize) -> bool
    ensures { IsTrue result ↔ NamesUntil verdict n }
{
    match verdict {
        Verdict::Yes => false,
        Verdict::Short { node, .. } | Verdict::NoSuccessor { node, .. } => node <= n,
    }
}

/// Returns the earlier of two findings: the one so far, if it names a pair of node `n` or of an earlier node,
/// else the one at a pair of `n`.
fn earlier(so_far: Verdict, n: usize, found: Verdict) -> Verdict
    ensures { IsEarlier so_far n found result }
{
    if names_until(so_far, n) {
        so_far
    } else {
        found
    }
}

impl Findings {
    /// Makes the findings before the first pair.
    pub(crate) fn new(mode: Mode) -> Self
        ensures mode { result.mode ≡ mode }
        ensures first { result.first ≡ Yes }
        ensures short { result.short ≡ Yes }
        ensures worst { result.worst ≡ 0 }
    {
        Findings {
            mode,
            first: Verdict::Yes,
            short: Verdict::Yes,
            worst: 0,
        }
    }

    /// Tests whether nothing after node `n` can change the first pair that fails.
    pub(crate) fn is_settled(&self, n: usize) -> bool
        ensures { IsTrue result ↔ NamesUntil self.now.first n }
    {
        names_until(self.first, n)
    }

    /// Takes in what is found at the next pair, which is one of node `n`. `true`: no other pair of the node can be the first that is
    /// sought, so the walk goes to the next node.
    pub(crate) fn note(&mut self, n: usize, found: Verdict) -> bool
        ensures mode { self.new.mode ≡ self.old.mode }
        ensures found { (c : Controller) (s : ℕ) → IsPair c n s → IsPairVerdict c n s found →
            IsFoundBefore c (c.action n) n s self.old
            → IsFoundBefore c (c.action n) n (s + 1) self.new }
        ensures settled { IsTrue result → NamesUntil self.new.first n }
    {
        match found {
            Verdict::Yes => false,
            Verdict::Short { .. } | Verdict::NoSuccessor { .. } => {
                self.keep(n, found);
                self.is_settled(n)
            }
        }
    }

    /// Takes in a finding at the next pair, one of node `n`: called by `note` if the pair doesn't pass.
    fn keep(&mut self, n: usize, found: Verdict)
        ensures mode { self.new.mode ≡ self.old.mode }
        ensures found { (c : Controller) (s : ℕ) → IsPair c n s → IsPairVerdict c n s found →
            IsFoundBefore c (c.action n) n s self.old
            → IsFoundBefore c (c.action n) n (s + 1) self.new }
    {
        match found {
            Verdict::Yes => {}
            Verdict::Short { amount, .. } => match self.mode {
                Mode::Check => self.first = earlier(self.first, n, found),
                Mode::Lowering => {
                    self.short = earlier(self.short, n, found);
                    self.worst = greater(self.worst, amount.unsigned_abs());
                }
            },
            Verdict::NoSuccessor { .. } => self.first = earlier(self.first, n, found),
        }
    }
}

/// From which side the values are bounds of what the graph earns.
#[derive(Clone, Copy, Debug, PartialEq, Eq)]
pub(crate) enum Side {
    Below,
    Above,
}

impl Side {
    /// Returns by how much a value fails to be a bound from this side, or `None` if it is one. `above` is by how much the value is above
    /// what backs it.
    #[inline(always)]
    pub(crate) fn excess(self, above: i128) -> Option<i128>
        requires { unsigned_abs above < 2 ^ 127 }
        ensures some { IfSome result (λ amount. (amount ≡ signed_from self above) × (pos 0 <ℤ amount)) }
        ensures none { IfNone result (signed_from self above ≤ℤ pos 0) }
    {
        // (A test for each side: to turn the number first takes more instructions.)
        match self {
            Side::Below => if above > 0 { Some(above) } else { None },
            Side::Above => if above < 0 { Some(-above) } else { None },
        }
    }

    /// Returns the value as it is; from above its negative.
    pub(crate) fn signed_value(self, value: i64) -> i64
        requires { IsInRange value }
        ensures is { result ≡ signed_from self value }
        ensures in_range { IsInRange result }
    {
        match self {
            Side::Below => value,
            Side::Above => -value,
        }
    }
}
