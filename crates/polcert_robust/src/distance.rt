//! How far the models that are meant may lie from the text's.
ghost use Rattle.std.specs.Prelude.{◌≤◌};

/// How far a probability above 0 may lie from the text's: parts of the scale, and of itself millionths of a percent, rounded up.
#[derive(Clone, Copy, Debug, PartialEq, Eq)]
pub struct Spread {
    pub parts: u64,
    pub percent: u64,
}

/// How far a model may lie from the text's: its probabilities above 0, of T and of O, and its rewards, in millionths.
#[derive(Clone, Copy, Debug)]
pub struct Distance {
    pub t_by: Spread,
    pub o_by: Spread,
    pub r_by: u64,
    ghost t_parts: { t_by.parts ≤ 10_000_000_000 },
    ghost t_percent: { t_by.percent ≤ 100_000_000 },
    ghost o_parts: { o_by.parts ≤ 10_000_000_000 },
    ghost o_percent: { o_by.percent ≤ 100_000_000 },
    ghost r_small: { r_by ≤ 1_000_000_000_000 },
}
