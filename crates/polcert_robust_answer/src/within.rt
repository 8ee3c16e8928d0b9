//! How far models may lie from the text's, as it was typed.
ghost use Rattle.std.specs.Prelude.{◌≡◌, ◌≤◌, ℕ, IfNone, IfOk, IfSome, IsFalse, IsTrue, Some, pos};
ghost use Rattle.polcert_robust_answer.specs.Distances.{IsDistance, IsPercent, IsRewardDistance};

use polcert_text::scaled_of;
use std::alloc::{AllocError, Global};

/// The largest distance: 1 for probabilities, in millionths of millionths, and 1,000,000 for rewards, in millionths.
pub const MOST_DISTANCE: u64 = 1_000_000_000_000;

/// How far probabilities above 0 and rewards may lie from the text's, and how these distances were typed.
#[derive(Clone, Copy, Debug)]
pub struct Within<'a> {
    pub text: &'a [u8],
    /// Whether the text is a percentage.
    pub is_percent: bool,
    /// The distance of probabilities, in millionths of millionths; 0 if it is in percent.
    pub by: u64,
    /// The distance of each probability in percent of itself, in millionths of a percent; else 0.
    pub percent: u64,
    pub rewards_text: &'a [u8],
    /// The distance of rewards, in millionths.
    pub rewards_by: u64,
    ghost is_distance: { IsFalse is_percent → IsDistance text.now by × (percent ≡ 0) },
    ghost is_percentage: { IsTrue is_percent → IsPercent text.now percent × (by ≡ 0) },
    ghost small: { by ≤ 1_000_000_000_000 },
    ghost small_percent: { percent ≤ 100_000_000 },
    ghost are_rewards_typed: { IsRewardDistance rewards_text.now rewards_by },
}

/// Returns a distance, or `None` if it is below 0 or larger than `MOST_DISTANCE`.
fn small_distance(value: i64) -> Option<u64>
    ensures small { IfSome result (λ by. (value ≡ pos by) × (by ≤ 1_000_000_000_000)) }
    ensures large { IfNone result ((by : ℕ) → value ≡ pos by → by ≤ 1_000_000_000_000 → ⊥) }
{
    if 0 <= value && value <= 1_000_000_000_000 {
        Some(value as u64)
    } else {
        None
    }
}

/// Returns the distance of probabilities that a text is, in millionths of millionths, or `None` if it is no decimal of at most 1 with at
/// most twelve decimals.
///
/// # Errors
///
/// Out of memory.
pub fn distance_of(alloc: Global, text: &[u8]) -> Result<Option<u64>, AllocError>
    ensures found { IfOk result (λ found. IfSome found (IsDistance text.now)) }
    ensures none { IfOk result (λ found. IfNone found ((by : ℕ) → IsDistance text.now by → ⊥)) }
{
    let mut shifted = Vec::from_slice(alloc, text)?;
    shifted.extend_from_slice(b"e6")?;
    Ok(reward_distance_of(&shifted))
}

/// Returns the distance of rewards that a text is, in millionths, or `None` if it is no number of at most 1,000,000 with at most six
/// decimals.
pub fn reward_distance_of(text: &[u8]) -> Option<u64>
    ensures found { IfSome result (IsRewardDistance text.now) }
    ensures none { IfNone result ((by : ℕ) → IsRewardDistance text.now by → ⊥) }
{
    match scaled_of(false, text) {
        Ok(value) => small_distance(value),
        Err(_) => None,
    }
}

/// Returns the percentage that a text is, in millionths of a percent, or `None` if it is no number of at most 100 with at most six
/// decimals.
pub fn percent_of(text: &[u8]) -> Option<u64>
    ensures found { IfSome result (IsPercent text.now) }
    ensures none { IfNone result ((percent : ℕ) → IsPercent text.now percent → ⊥) }
{
    small_percent(reward_distance_of(text))
}

/// Returns a percentage if it is at most 100.
fn small_percent(percent: Option<u64>) -> Option<u64>
    ensures some { IfSome result (λ p. (percent ≡ Some p) × (p ≤ 100_000_000)) }
    ensures none { IfNone result ((p : ℕ) → percent ≡ Some p → p ≤ 100_000_000 → ⊥) }
{
    match percent {
        Some(p) => if p <= 100_000_000 { percent } else { None },
        None => None,
    }
}
