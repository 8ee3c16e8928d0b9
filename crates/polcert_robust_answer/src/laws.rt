//! Laws of the definitions, each the contract of a function with nothing to do. Nothing calls them: they are for readers, and for proofs to
//! cite.
ghost use Rattle.std.specs.Prelude.{◌≡◌, ℕ, List};
ghost use Rattle.polcert_check.specs.declared.survey.Verdict.{Verdict};
ghost use Rattle.polcert_robust_answer.specs.Near.{HasNearVerdict, near_below};
ghost use Rattle.polcert_robust_answer.specs.declared.within.Within.{Within};

/// Three texts have one verdict in every model near the first's: two runs with their verdicts answer the same.
pub fn one_near_verdict()
    ensures { (w : Within) (model graph vectors : List ℕ) (x y : Verdict) (k l : List ℕ) →
        HasNearVerdict near_below w x k model graph vectors →
        HasNearVerdict near_below w y l model graph vectors → x ≡ y }
{}
