//! What a check asks of a model, and the rows that a model lends it.
ghost use Rattle.std.specs.Prelude.{◌≡◌, ℕ, ◌<◌, ◌≤◌, ◌+◌, IsTrue, length, pos, slice_index_or, ◌*◌, None};
ghost use Rattle.std.specs.Prelude.{slice_index};
ghost use Rattle.std.specs.Option.{ForSome};
ghost use Rattle.polcert_cells.specs.CommonRewards.{IsCommonReward, IsRewardRow, AreEndRewards, row_reward};
ghost use Rattle.polcert_cells.specs.Tables.{CellTable, IsProper, IsWithinLimits};
ghost use Rattle.polcert_cells.specs.BorrowedRows.{IsRowOf, IsStep};
ghost use Rattle.polcert_cells.specs.Sparse.{AreRising, excepted_weight};

use crate::{Cell, CommonReward, RewardCell, RewardRow};

/// The cells of a model, its counts and its scales, as a check reads them.
///
/// Elements go by their numbers, from 0. Rows of T sum to `t_scale` and rows of O to `o_scale`, exactly; the discount and
/// rewards are in millionths.
pub trait Cells {
    // What the readers answer.
    ghost table: { Self → CellTable };

    /// Returns the number of states: 1 to 10,000.
    fn states(&self) -> usize
        ensures { result ≡ (table self.now).states };

    /// Returns the number of actions: 1 to 1,000.
    fn actions(&self) -> usize
        ensures { result ≡ (table self.now).actions };

    /// Returns the number of observations: 1 to 10,000.
    fn observations(&self) -> usize
        ensures { result ≡ (table self.now).observations };

    /// Returns the discount, in millionths: 0 to 1,000,000.
    fn discount(&self) -> u32
        ensures { result ≡ (table self.now).discount };

    /// Returns the sum of each row of T: 1,000,000 for each state.
    fn t_scale(&self) -> u64
        ensures { result ≡ (table self.now).t_scale };

    /// Returns the sum of each row of O: 1,000,000 for each observation.
    fn o_scale(&self) -> u64
        ensures { result ≡ (table self.now).o_scale };

    /// Returns the weight of end state `e` when action `a` is taken in state `s`, out of `t_scale`.
    fn t(&self, a: usize, s: usize, e: usize) -> u64
        requires action { a < (table self.now).actions }
        requires start { s < (table self.now).states }
        requires end { e < (table self.now).states }
        ensures { result ≡ (table self.now).t a s e };

    /// Returns the weight of observation `z` when action `a` ends in state `e`, out of `o_scale`.
    fn o(&self, a: usize, e: usize, z: usize) -> u64
        requires action { a < (table self.now).actions }
        requires end { e < (table self.now).states }
        requires observation { z < (table self.now).observations }
        ensures { result ≡ (table self.now).o a e z };

    /// Returns the reward when action `a` is taken in state `s`, ends in state `e` and observation `z` is
    /// made, in millionths.
    fn r(&self, a: usize, s: usize, e: usize, z: usize) -> i64
        requires action { a < (table self.now).actions }
        requires start { s < (table self.now).states }
        requires end { e < (table self.now).states }
        requires observation { z < (table self.now).observations }
        ensures { result ≡ (table self.now).r a s e z };

    /// Returns the weights of all end states when action `a` is taken in state `s`, to be walked by `Row::step`. `None`: the model lends no
    /// rows; ask `t`.
    fn t_row(&self, a: usize, s: usize) -> Option<Row<'_>>
        requires action { a < (table self.now).actions }
        requires start { s < (table self.now).states }
        ensures { ForSome result (IsRowOf ((table self.now).t a s) (table self.now).states) }
    {
        None
    }

    /// Returns the weights of all observations when action `a` ends in state `e`, to be walked by `Row::step`. `None`: the model lends no
    /// rows; ask `o`.
    fn o_row(&self, a: usize, e: usize) -> Option<Row<'_>>
        requires action { a < (table self.now).actions }
        requires end { e < (table self.now).states }
        ensures { ForSome result (IsRowOf ((table self.now).o a e) (table self.now).observations) }
    {
        None
    }

    /// Fills in the rewards of observation `first` and of those after it, in millionths, when action `a` is taken in state `s` and ends in
    /// state `e`: as many as there is room for, or as there are. Room that is left may change. It takes less time than a call of `r` for
    /// each.
    fn fill_rewards(&self, a: usize, s: usize, e: usize, first: usize, rewards: &mut [i64])
        requires action { a < (table self.now).actions }
        requires start { s < (table self.now).states }
        requires end { e < (table self.now).states }
        ensures { (i : ℕ) → i < length rewards.old → first + i < (table self.now).observations →
            slice_index_or rewards.new i (pos 0) ≡ (table self.now).r a s e (first + i) }
    {
        let left = self.observations().saturating_sub(first);
        for i in 0..left.min(rewards.len()) {
            rewards[i] = self.r(a, s, e, first + i);
        }
    }

    /// Returns what gives the rewards of all observations but a few when action `a` is taken in state `s` and ends in state `e`, fills in
    /// the rewards of these few, and says up to which end state all have the same rewards, if they are known at once. `None`: unknown.
    fn find_rewards(
        &self,
        a: usize,
        s: usize,
        e: usize,
        exceptions: &mut [RewardCell],
    ) -> Option<RewardRow<'_>>
        requires action { a < (table self.now).actions }
        requires start { s < (table self.now).states }
        requires end { e < (table self.now).states }
        ensures row { ForSome result (λ row. IsRewardRow ((table self.now).r a s e)
            (table self.now).observations row exceptions.new) }
        ensures until { ForSome result (λ row. (f z : ℕ) → e ≤ f → f < row.until →
            f < (table self.now).states → z < (table self.now).observations →
            (table self.now).r a s f z ≡ (table self.now).r a s e z) }
    {
        None
    }

    /// Returns the reward that all end states and observations but a few have when action `a` is taken in state `s`, and fills in the
    /// rewards of these few, each numbered by its end state times the number of observations plus its observation, if they are known at
    /// once. `None`: unknown.
    fn find_row_rewards(
        &self,
        a: usize,
        s: usize,
        exceptions: &mut [RewardCell],
    ) -> Option<CommonReward>
        requires action { a < (table self.now).actions }
        requires start { s < (table self.now).states }
        ensures { ForSome result (λ common. IsCommonReward (row_reward (table self.now) a s)
            ((table self.now).states * (table self.now).observations) common exceptions.new) }
    {
        None
    }

    /// Returns the reward that all end states but a few have when action `a` is taken in state `s`, whatever is observed, and fills in
    /// the rewards of these few, each numbered by its end state, in order, if they are known at once. `None`: unknown.
    fn find_end_rewards(
        &self,
        a: usize,
        s: usize,
        exceptions: &mut [RewardCell],
    ) -> Option<CommonReward>
        requires action { a < (table self.now).actions }
        requires start { s < (table self.now).states }
        ensures { ForSome result (λ common. AreEndRewards (table self.now) a s common exceptions.new) }
    {
        None
    }

    /// Returns whether it is known at once that action `a` has the same rewards in state `s` as in state `other`, for every end state and
    /// every observation, so that a check computes them once. `false`: unknown.
    fn has_same_rewards(&self, a: usize, s: usize, other: usize) -> bool
        requires action { a < (table self.now).actions }
        requires start { s < (table self.now).states }
        requires other { other < (table self.now).states }
        ensures { IsTrue result → (e z : ℕ) → e < (table self.now).states →
            z < (table self.now).observations →
            (table self.now).r a s e z ≡ (table self.now).r a other e z }
    {
        false
    }

    /// Returns an end state up to which it is known at once that all from `e` on have the same rewards when action `a` is taken in state
    /// `s`, for every observation. `e`: unknown.
    fn same_rewards_until(&self, a: usize, s: usize, e: usize) -> usize
        requires action { a < (table self.now).actions }
        requires start { s < (table self.now).states }
        requires end { e < (table self.now).states }
        ensures { (f z : ℕ) → e ≤ f → f < result → f < (table self.now).states →
            z < (table self.now).observations →
            (table self.now).r a s f z ≡ (table self.now).r a s e z }
    {
        e
    }

    /// Returns whether it is known at once that the row of O of action `a` at end state `e` is that at `other`. `false`: unknown.
    fn has_same_observations(&self, a: usize, e: usize, other: usize) -> bool
        requires action { a < (table self.now).actions }
        requires end { e < (table self.now).states }
        requires other { other < (table self.now).states }
        ensures { IsTrue result → (z : ℕ) → z < (table self.now).observations →
            (table self.now).o a e z ≡ (table self.now).o a other z }
    {
        false
    }

    // Rows sum to their scale.
    ghost is_proper: { (x : Self) → IsProper (table x) };

    // Counts, scales, discount and rewards lie within their limits.
    ghost is_within_limits: { (x : Self) → IsWithinLimits (table x) };
}

/// A row of T or O, as it is kept: a walk begins at place 0 and continues at the place that each step names.
#[derive(Clone, Copy)]
pub enum Row<'a> {
    /// The weights above 0 with their columns, in order.
    Sparse(&'a [Cell]),
    /// The weight of each column, 0 too.
    Filled(&'a [u64]),
    /// The number of each of the first columns, 0 too: its weight is the number times the scale. The others have none.
    Scaled {
        numbers: &'a [u32],
        scale: u32,
    },
    /// The only weight above 0.
    Single(Cell),
    /// The same weight in each of this many columns, but for the columns of the exceptions, which are in order: each has its own, 0 too.
    Even {
        weight: u64,
        columns: usize,
        exceptions: &'a [Cell],
    },
}

/// A weight above 0 of a row, its column, and the place where the walk continues.
#[derive(Clone, Copy)]
pub struct Step {
    pub column: usize,
    pub weight: u64,
    pub next: usize,
}

impl Row<'_> {
    /// Returns the first weight above 0 at this column or after it, and where to continue.
    #[inline(always)]
    pub fn step(&self, at: usize) -> Option<Step>
        ensures { (f : ℕ → ℕ) (count : ℕ) → IsRowOf f count self.now
            → IsStep f count (Some self.now) at result }
    {
        match self {
            Row::Sparse(cells) => match cells.get(at) {
                Some(cell) => Some(step_of(*cell, at + 1)),
                None => None,
            },
            Row::Filled(weights) => first_weight(at, weights.len(), move |column| weights[column]),
            Row::Scaled { numbers, scale } => scaled_step(numbers, *scale, at),
            Row::Single(cell) => if at == 0 {
                Some(step_of(*cell, 1))
            } else {
                None
            },
            Row::Even {
                weight,
                columns,
                exceptions,
            } => even_step(*weight, *columns, exceptions, at),
        }
    }
}

/// Returns the step to this cell, after which a walk continues at `next`.
fn step_of(cell: Cell, next: usize) -> Step
    ensures { result ≡ record { column = cell.column; weight = cell.weight; next = next } }
{
    Step {
        column: cell.column,
        weight: cell.weight,
        next,
    }
}

/// Returns the first weight above 0 of these numbers times the scale, from a column on. (Mostly the first has one.)
#[inline]
fn scaled_step(numbers: &[u32], scale: u32, at: usize) -> Option<Step>
    ensures { IsStep (λ c. slice_index numbers.now c * scale) (length numbers.now) None at result }
{
    if at >= numbers.len() {
        return None;
    }
    let weight = scaled(numbers[at], scale);
    if weight > 0 {
        return Some(Step {
            column: at,
            weight,
            next: at + 1,
        });
    }
    first_weight(
        at + 1,
        numbers.len(),
        move |column| scaled(numbers[column], scale),
    )
}

/// Returns the first weight above 0, from a column on, of this many columns that have the same weight but for exceptions.
#[inline(never)]
fn even_step(weight: u64, columns: usize, exceptions: &[Cell], at: usize) -> Option<Step>
    ensures { AreRising exceptions.now →
        IsStep (excepted_weight weight exceptions.now) columns None at result }
{
    if exceptions.is_empty() && weight > 0 {
        return if at < columns {
            Some(Step {
                column: at,
                weight,
                next: at + 1,
            })
        } else {
            None
        };
    }
    first_weight(
        at,
        columns,
        move |column| excepted_weight(weight, exceptions, column),
    )
}

/// Returns the weight of a column where all have the same but for exceptions in order.
pub fn excepted_weight(weight: u64, exceptions: &[Cell], column: usize) -> u64
    ensures { AreRising exceptions.now → result ≡ excepted_weight weight exceptions.now column }
{
    let place = exceptions.partition_point(|cell| cell.column < column);
    match exceptions.get(place) {
        Some(cell) => if cell.column == column {
            cell.weight
        } else {
            weight
        },
        None => weight,
    }
}

/// Returns the number times the scale.
#[inline]
fn scaled(number: u32, scale: u32) -> u64
    ensures { result ≡ number * scale }
{
    number as u64 * scale as u64
}

/// Returns the first weight above 0 from a column on. `weight_at` is asked column by column.
#[inline(never)]
pub fn first_weight<F: Fn(usize) -> u64>(from: usize, columns: usize, weight_at: F) -> Option<Step>
    requires callable { (k : ℕ) → k < columns → F.pre weight_at k }
    ensures { (f : ℕ → ℕ) → ((k : ℕ) (weight : _) → k < columns → F.post weight_at k weight → weight ≡ f k)
        → IsStep f columns None from result }
{
    for column in from..columns {
        let weight = weight_at(column);
        if weight > 0 {
            return Some(Step {
                column,
                weight,
                next: column + 1,
            });
        }
    }
    None
}
