//! How far a value is above what the next step gives, in exact units and in millionths.
ghost use Rattle.std.specs.Prelude.{◌≡◌, ◌<◌, ◌≤◌, unsigned_abs, ℕ, ◌+◌, ◌^◌, ◌*◌, pos, ◌+ℤ◌, ◌-ℤ◌, ◌*ℤ◌, ◌<ℤ◌, ◌≤ℤ◌};
ghost use Rattle.std.specs.Prelude.{IsTrue};
ghost use Rattle.polcert_check.specs.Steps.Mirrored.{signed_from};
ghost use Rattle.polcert_cells.specs.Tables.{IsWithinLimits};
ghost use Rattle.polcert_policy.specs.Graphs.{nodes};
ghost use Rattle.polcert_check.specs.Horizon.{Fits, controller_of, one};
ghost use Rattle.polcert_check.specs.Shortfall.{most_short, short};
ghost use Rattle.polcert_check.specs.Steps.Factored.{factored_reward, IsPairVerdict};
ghost use Rattle.polcert_check.specs.Steps.FollowedCells.{followed};
ghost use Rattle.polcert_check.specs.Steps.Node.{node_controller};
ghost use Rattle.polcert_text.specs.Numbers.{largest};
ghost use Rattle.polcert_check.specs.Steps.CheckInput.{checked_controller};
ghost use Rattle.polcert_check.specs.Steps.Ranges.{most_scales};
ghost use Rattle.polcert_check.specs.Steps.Values.{IsExpectedValue};
ghost use Rattle.polcert_check.specs.StartWorth.{IsCeilQuotient};

use crate::check_input::CheckInput;
use crate::end_values::{FollowedCells, PartialValue, end_value, expected_value};
use crate::expected_reward::{RewardBuffer, expected_reward, weigh};
use crate::findings::Side;
use crate::node::Node;
use crate::survey::Verdict;
use polcert_cells::Cells;
use polcert_policy::{Graph, Vectors};

/// Returns the reward that a node expects at state `s`, without the observations for which it has no successor.
fn followed_reward<C: Cells>(node: &Node<'_, C>, s: usize) -> i128
    requires start { s < (node_controller node.now).cells.states }
    ensures { result ≡ factored_reward (followed (node_controller node.now) node.now.n)
        ((node_controller node.now).action node.now.n) s }
{
    let cells = FollowedCells {
        input: &node.input,
        n: node.n,
    };
    expected_reward(&cells, node.action(), s, &mut RewardBuffer::new())
}

/// Returns how far the value of a node at state `s` is above the backup of one step.
fn amount_at<C: Cells>(node: &Node<'_, C>, s: usize) -> i128
    requires start { s < (node_controller node.now).cells.states }
    ensures is { result ≡ short (node_controller node.now) node.now.n s }
    ensures small { unsigned_abs result ≤ most_short (node_controller node.now) }
{
    let expected = expected_value(node, s, |e| end_value(node, e));
    let reward = followed_reward(node, s);
    let input = &node.input;
    let value = input.vectors.at(node.n, s);
    shortfall(input.cells, value, reward, expected.value)
}

/// Returns how far the value of node `n` at state `s` is above the backup of one step: above 0 if it is short. For callers that ask for one
/// pair; the check, which shares work between pairs, doesn't call it.
///
/// The amount is exact, on the scale of the weights of one step times 1,000,000, in millionths. In size it is at most
/// three times the largest value on that scale, and so at most 1.5 * 10^38, which fits (`amounts_fit`).
pub fn amount_short<C: Cells>(
    cells: &C,
    graph: &Graph,
    vectors: &Vectors,
    n: usize,
    s: usize,
) -> i128
    requires fits { Fits (C.table cells.now) graph.now vectors.now }
    requires node { n < nodes graph.now }
    requires start { s < (C.table cells.now).states }
    ensures is { result ≡ short (controller_of (C.table cells.now) graph.now vectors.now) n s }
    ensures small { unsigned_abs result ≤ most_short
        (controller_of (C.table cells.now) graph.now vectors.now) }
{
    let input = CheckInput::new(Side::Below, cells, graph, vectors);
    amount_at(&Node { input, n }, s)
}

/// Returns how far a value is above what backs it, where the weights of a step sum to `step_scale`.
fn shortfall_of(step_scale: u64, discount: u32, value: i64, reward: i128, expected: i128) -> i128
    requires scale { step_scale ≤ most_scales }
    requires discount { discount ≤ 1_000_000 }
    requires value { unsigned_abs value ≤ largest }
    requires reward { unsigned_abs reward ≤ most_scales * largest }
    requires expected { unsigned_abs expected ≤ most_scales * largest }
    ensures { result ≡ pos (step_scale * one) *ℤ value -ℤ (pos one *ℤ reward +ℤ pos discount *ℤ expected) }
{
    let at_scale = weigh(step_scale, value as i128);
    let scaled = weigh(1_000_000, at_scale);
    let earned = weigh(1_000_000, reward);
    let later = weigh(u64::from(discount), expected);
    scaled - (earned + later)
}

/// Returns a number without its lower 64 bits, rounded down.
#[inline(always)]
fn upper_bits(number: i128) -> i64
    requires { unsigned_abs number ≤ 2 ^ 107 }
    ensures small { unsigned_abs result ≤ 2 ^ 43 }
    ensures below { (pos (2 ^ 64) *ℤ result) ≤ℤ number }
    ensures above { number <ℤ (pos (2 ^ 64) *ℤ (result +ℤ pos 1)) }
{
    (number >> 64) as i64
}

/// Returns whether a weight times a number is at most another weight times another number.
#[inline(always)]
fn is_at_most(weight: u32, number: i64, other_weight: u32, other: i64) -> bool
    requires weight { weight ≤ 1_000_000 }
    requires number { unsigned_abs number ≤ 2 ^ 43 + 1 }
    requires other_weight { other_weight ≤ 1_000_000 }
    requires other { unsigned_abs other ≤ 2 ^ 43 + 1 }
    ensures { IsTrue result → (pos weight *ℤ number) ≤ℤ (pos other_weight *ℤ other) }
{
    i64::from(weight) * number <= i64::from(other_weight) * other
}

/// Returns whether the upper bits alone show that a value is not on the wrong side of what backs it. (Most values are so far from it.)
// (Six parameters: three that are the same for all pairs, and three of one.)
#[inline(always)]
fn is_clearly_backed(
    side: Side,
    step_scale: u64,
    discount: u32,
    value: i64,
    reward: i128,
    expected: i128,
) -> bool
    requires scale { step_scale ≤ most_scales }
    requires discount { discount ≤ 1_000_000 }
    requires value { unsigned_abs value ≤ largest }
    requires reward { unsigned_abs reward ≤ most_scales * largest }
    requires expected { unsigned_abs expected ≤ most_scales * largest }
    ensures { IsTrue result → signed_from side (pos (step_scale * one) *ℤ value
        -ℤ (pos one *ℤ reward +ℤ pos discount *ℤ expected)) ≤ℤ pos 0 }
{
    let lead = upper_bits(weigh(step_scale, value as i128) - reward);
    let later = upper_bits(expected);
    match side {
        Side::Below => is_at_most(1_000_000, lead + 1, discount, later),
        Side::Above => is_at_most(discount, later + 1, 1_000_000, lead),
    }
}

/// Returns how far a value is above what backs it: the expected reward, and the discounted value that is expected.
pub fn shortfall<C: Cells>(cells: &C, value: i64, reward: i128, expected: i128) -> i128
    requires value { unsigned_abs value ≤ largest }
    requires reward { unsigned_abs
        reward ≤ (C.table cells.now).t_scale * ((C.table cells.now).o_scale * largest) }
    requires expected { unsigned_abs
        expected ≤ (C.table cells.now).t_scale * ((C.table cells.now).o_scale * largest) }
    ensures { result ≡ pos ((C.table cells.now).t_scale * (C.table cells.now).o_scale * one) *ℤ value
        -ℤ (pos one *ℤ reward +ℤ pos (C.table cells.now).discount *ℤ expected) }
{
    let step_scale = cells.t_scale() * cells.o_scale();
    shortfall_of(step_scale, cells.discount(), value, reward, expected)
}

/// Returns the verdict on the pair of a node and state `s`, from the value there, the expected reward and the expected value: yes, short,
/// or an observation without successor.
pub(crate) fn pair_verdict<C: Cells>(
    node: &Node<'_, C>,
    s: usize,
    value: i64,
    reward: i128,
    expected: PartialValue,
) -> Verdict
    requires start { s < (node_controller node.now).cells.states }
    requires value { value ≡ (node_controller node.now).value node.now.n s }
    requires reward { reward
        ≡ factored_reward (node_controller node.now).cells ((node_controller node.now).action node.now.n) s }
    requires expected { IsExpectedValue (node_controller node.now) node.now.n s expected }
    ensures { IsPairVerdict (checked_controller node.now.input) node.now.n s result }
{
    if let Some(observation) = expected.missing {
        return Verdict::NoSuccessor {
            node: node.n,
            state: s,
            observation,
        };
    }
    let input = &node.input;
    if is_clearly_backed(
        input.side,
        input.step_scale,
        input.discount,
        value,
        reward,
        expected.value,
    ) {
        return Verdict::Yes;
    }
    let above = shortfall_of(
        input.step_scale,
        input.discount,
        value,
        reward,
        expected.value,
    );
    match input.side.excess(above) {
        Some(amount) => Verdict::Short {
            node: node.n,
            state: s,
            amount,
        },
        None => Verdict::Yes,
    }
}

/// Returns a quotient, rounded up.
pub fn ceil_quotient(amount: u128, divisor: u128) -> u128
    requires some { 0 < divisor }
    ensures enough { amount ≤ divisor * result }
    ensures least { (d : ℕ) → d < result → divisor * d < amount }
{
    if amount == 0 {
        return 0;
    }
    (amount - 1) / divisor + 1
}

/// Returns a quotient, rounded up. It is at most the sum of four values in size.
pub fn small_quotient(amount: u128, scale: u128) -> i64
    requires some { 0 < amount }
    requires scale { 0 < scale }
    requires small { amount ≤ scale * (4 * largest) }
    ensures { IsCeilQuotient (pos amount) scale result }
{
    ceil_quotient(amount, scale) as i64
}

/// Returns the amount by which a value is short, in millionths and rounded up, so that it is never 0: the
/// amount divided by its scale, which is `t_scale` times `o_scale` times 1,000,000.
pub fn millionths_short<C: Cells>(cells: &C, amount: i128) -> i64
    requires short { pos 0 <ℤ amount }
    requires small { IsWithinLimits (C.table cells.now) → unsigned_abs
        amount ≤ 4 * ((C.table cells.now).t_scale * (C.table cells.now).o_scale * one) * largest }
    ensures { IsCeilQuotient amount ((C.table cells.now).t_scale * (C.table cells.now).o_scale * one) result }
{
    let scale = (cells.t_scale() * cells.o_scale()) as u128 * 1_000_000;
    small_quotient(amount.unsigned_abs(), scale)
}
