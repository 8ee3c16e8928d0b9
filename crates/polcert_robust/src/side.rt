//! The two sides from which vectors bound what a graph earns.
ghost use Rattle.std.specs.Prelude.{◌≡◌, ◌^◌, ◌<◌, ◌≤◌, unsigned_abs};
ghost use Rattle.polcert_text.specs.Numbers.{largest};
ghost use Rattle.polcert_robust.specs.Steps.Sides.{turned};

/// From which side the values are bounds of what the graph earns.
#[derive(Clone, Copy)]
pub(crate) enum Side {
    Below,
    Above,
}

impl Side {
    /// Returns the number as it is; from above its negative.
    pub(crate) fn turned(self, number: i64) -> i64
        requires { unsigned_abs number ≤ largest }
        ensures is { result ≡ turned self number }
        ensures small { unsigned_abs result ≤ largest }
    {
        match self {
            Side::Below => number,
            Side::Above => -number,
        }
    }

    /// Returns a mean of turned numbers turned back.
    pub(crate) fn turned_mean(self, mean: i128) -> i128
        requires { unsigned_abs mean < 2 ^ 126 }
        ensures is { turned self result ≡ mean }
        ensures small { unsigned_abs result ≡ unsigned_abs mean }
    {
        match self {
            Side::Below => mean,
            Side::Above => -mean,
        }
    }
}
