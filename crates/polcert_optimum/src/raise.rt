//! The least constant by which vectors, one for each action, are raised so that the informed inequality holds.
ghost use Rattle.std.specs.Prelude.{◌≡◌, ◌<◌, ◌≤◌, ◌+◌, pos, ◌+ℤ◌, ◌↔◌, IsTrue, IfOk, IfErr};
ghost use Rattle.polcert_policy.specs.Vectors.{IsInRange, CanShift, value_of};
ghost use Rattle.polcert_check.specs.Horizon.{one};
ghost use Rattle.polcert_optimum.specs.InformedCheck.{FitActions};
ghost use Rattle.polcert_optimum.specs.InformedRaise.{IsLeastInformedRaise, IsRaiseConstant, HasNoInformedRaise};
ghost use Rattle.polcert_optimum.specs.Steps.Sums.{IsGreatestExcess};

use crate::excess::Buffers;
use crate::fault::InformedRaiseFault;
use crate::pair::ActionState;
use crate::verdict::{InformedVerdict, check_informed};
use polcert_cells::Cells;
use polcert_check::one_step::ceil_quotient;
use polcert_policy::Vectors;

/// Returns the greatest excess of any action and state, or 0 if none is above.
#[inline(never)]
fn greatest_excess<C: Cells>(cells: &C, vectors: &Vectors) -> i128
    requires { FitActions (C.table cells.now) vectors.now }
    ensures { IsGreatestExcess (C.table cells.now) (value_of vectors.now)
        (C.table cells.now).actions 0 result }
{
    let _vectors = vectors.nodes();
    let mut buffers = Buffers::new();
    let mut greatest: i128 = 0;
    for action in 0..cells.actions() {
        for state in 0..cells.states() {
            let pair = ActionState {
                cells,
                vectors,
                action,
                state,
            };
            let amount = buffers.excess(&pair);
            greatest = greatest.max(amount);
        }
    }
    greatest
}

/// Returns the least constant for a discount below 1, which the caller has tested, whether or not it leaves the values in range.
fn least_below_one<C: Cells>(cells: &C, vectors: &Vectors) -> u128
    requires fit { FitActions (C.table cells.now) vectors.now }
    requires discount { (C.table cells.now).discount < one }
    ensures { IsLeastInformedRaise (C.table cells.now) (value_of vectors.now) result }
{
    let _vectors = vectors.nodes();
    let scale = (cells.t_scale() * cells.o_scale()) as u128;
    let greatest = greatest_excess(cells, vectors).unsigned_abs();
    ceil_quotient(greatest, scale * (1_000_000 - cells.discount()) as u128)
}

/// Returns the least constant, whether or not it leaves the values in range.
fn least_raise_of_any_size<C: Cells>(
    cells: &C,
    vectors: &Vectors,
) -> Result<u128, InformedRaiseFault>
    requires { FitActions (C.table cells.now) vectors.now }
    ensures least { IfOk result (IsLeastInformedRaise (C.table cells.now) (value_of vectors.now)) }
    ensures refused { IfErr result (HasNoInformedRaise (C.table cells.now) vectors.now) }
{
    if cells.discount() < 1_000_000 {
        return Ok(least_below_one(cells, vectors));
    }
    match check_informed(cells, vectors) {
        InformedVerdict::Yes => Ok(0),
        InformedVerdict::Exceeded {
            action,
            state,
            amount,
        } => Err(InformedRaiseFault::NoConstant {
            action,
            state,
            amount,
        }),
    }
}

/// Returns whether the value plus `by` is in range.
fn is_room_above(value: i64, by: u128) -> bool
    requires { IsInRange value }
    ensures { IsTrue result ↔ IsInRange (value +ℤ pos by) }
{
    (10_000_000_000_000 - value as i128) as u128 >= by
}

/// Returns whether every value plus `by` is in range.
fn can_raise(vectors: &Vectors, by: u128) -> bool
    ensures { IsTrue result ↔ CanShift vectors.now (pos by) }
{
    for n in 0..vectors.nodes() {
        for s in 0..vectors.states() {
            if !is_room_above(vectors.at(n, s), by) {
                return false;
            }
        }
    }
    true
}

/// Returns the least constant, in millionths, by which all vectors of actions can be raised so that they pass `check_informed`.
///
/// # Errors
///
/// `NoConstant` if the discount is 1 and the check fails, and `OutOfRange` if the least constant takes a value out of range. It takes no
/// memory.
pub fn least_informed_raise<C: Cells>(
    cells: &C,
    vectors: &Vectors,
) -> Result<i64, InformedRaiseFault>
    requires { FitActions (C.table cells.now) vectors.now }
    ensures least { IfOk result (IsRaiseConstant (C.table cells.now) vectors.now) }
    ensures refused { IfErr result (HasNoInformedRaise (C.table cells.now) vectors.now) }
{
    let _vectors = vectors.nodes();
    let by = least_raise_of_any_size(cells, vectors)?;
    if can_raise(vectors, by) {
        Ok(by as i64)
    } else {
        Err(InformedRaiseFault::OutOfRange)
    }
}
