//! The values of a node at all end states, computed once for all start states.
ghost use Rattle.std.specs.Prelude.{◌≡◌, ◌≤◌, length};
ghost use Rattle.polcert_cells.specs.Elements.{most_elements};
ghost use Rattle.polcert_cells.specs.declared.elements.TheConstants.{MOST_STATES};
ghost use Rattle.polcert_check.specs.Steps.Products.{products_below};

use crate::check_input::CheckInput;
use crate::end_values::{
    PartialValue, ReachedStates, complete_value, end_value, expected_value, narrow_end_value,
    product, value_by_form,
};
use crate::even_rows::{sum_of_even, wide};
use crate::expected_reward::weigh;
use crate::node::Node;
use polcert_cells::{Cell, MOST_STATES, Row};
use polcert_model::Cells;

/// Returns the sum of the first `count` numbers, each times the value at its place.
#[inline]
fn sum_of_products(numbers: &[u32], values: &[i64], count: usize) -> i128
    requires few { count ≤ most_elements }
    requires numbers { count ≤ length numbers.now }
    requires values { count ≤ length values.now }
    ensures { result ≡ products_below numbers.now values.now count }
{
    let mut sum: i128 = 0;
    for i in 0..count {
        sum += product(numbers[i], values[i]);
    }
    sum
}

/// The values of a node at the end states that its action reaches.
#[derive(Drop)]
pub(crate) struct EndValues {
    /// The values, if 64 bits are enough for each, and the node has a successor for each observation.
    pub narrow: [i64; MOST_STATES],
    /// The sum of these.
    pub total: i128,
    /// Whether `narrow` has all values. If not, the other fields have them.
    pub are_narrow: bool,
    /// The values, except where the node lacks a successor.
    pub values: [i128; MOST_STATES],
    /// Whether the node lacks a successor for an observation there. Which one is computed only at a pair that reaches such an end
    /// state: that pair settles the node.
    pub lacks_successor: [bool; MOST_STATES],
    /// Whether it lacks one at any of them.
    pub lacks_any: bool,
    ghost room_for_values: { length values ≡ MOST_STATES },
    ghost room_for_narrow: { length narrow ≡ MOST_STATES },
    ghost room_for_marks: { length lacks_successor ≡ MOST_STATES },
}

impl EndValues {
    ghost use Rattle.std.specs.Prelude.{◌≡◌, ◌<◌, ◌+◌, ℕ, IsTrue, IfSome, false, true};
    ghost use Rattle.polcert_cells.specs.BorrowedRows.{IsEvenRow};
    ghost use Rattle.polcert_cells.specs.Sparse.{IsRow, scaled_cells};
    ghost use Rattle.polcert_check.specs.Steps.Node.{node_controller};
    ghost use Rattle.polcert_check.specs.Steps.Factored.{AreMarked};
    ghost use Rattle.polcert_check.specs.Steps.Values.{AreEndValues, IsCompleteValue, IsEndValue, IsExpectedValue};

    pub(crate) fn new() -> Self {
        EndValues {
            narrow: [0; MOST_STATES],
            total: 0,
            are_narrow: false,
            values: [0; MOST_STATES],
            lacks_successor: [false; MOST_STATES],
            lacks_any: false,
        }
    }

    /// Computes the values of a node at all end states that its action reaches.
    pub(crate) fn fill<C: Cells>(&mut self, node: &Node<'_, C>, reached: &ReachedStates)
        requires { AreMarked (node_controller node.now).cells ((node_controller node.now).action node.now.n)
            (node_controller node.now).cells.states reached.now.marks }
        ensures { AreEndValues (node_controller node.now) node.now.n
            (node_controller node.now).cells.states self.new }
    {
        if !self.fill_narrow(node, reached) {
            self.fill_wide(node, reached);
        }
    }

    /// Computes all values in 64 bits: tried first. `false`: one is larger, or the node lacks a successor somewhere; then `fill_wide` is
    /// called.
    fn fill_narrow<C: Cells>(&mut self, node: &Node<'_, C>, reached: &ReachedStates) -> bool
        requires { AreMarked (node_controller node.now).cells ((node_controller node.now).action node.now.n)
            (node_controller node.now).cells.states reached.now.marks }
        ensures { IsTrue result → AreEndValues (node_controller node.now) node.now.n
            (node_controller node.now).cells.states self.new }
    {
        // (A copy of its own: a loop that writes reads again whatever it borrows.)
        let input = CheckInput {
            cells: node.input.cells,
            graph: node.input.graph,
            vectors: node.input.vectors,
            side: node.input.side,
            successor_list: node.input.successor_list,
            value_list: node.input.value_list,
            observations: node.input.observations,
            states: node.input.states,
            step_scale: node.input.step_scale,
            discount: node.input.discount,
        };
        let node = &Node { input, n: node.n };
        self.are_narrow = true;
        self.total = 0;
        for e in 0..node.input.states {
            if !reached.marks[e] {
                self.note_narrow(node, e, 0);
                continue;
            }
            match narrow_end_value(node, e) {
                Some(value) => self.note_narrow(node, e, value),
                None => return false,
            }
        }
        true
    }

    /// Stores the value at end state `e`, which has 64 bits: any, if no state reaches it.
    #[inline(always)]
    fn note_narrow<C: Cells>(&mut self, node: &Node<'_, C>, e: usize, value: i64)
        requires end { e < (node_controller node.now).cells.states }
        requires before { AreEndValues (node_controller node.now) node.now.n e self.old }
        requires narrow { self.old.are_narrow ≡ true }
        requires value { (s : ℕ) → s < (node_controller node.now).cells.states →
            0 < (node_controller node.now).cells.t ((node_controller node.now).action node.now.n) s e →
            IsCompleteValue (node_controller node.now) node.now.n e value }
        ensures narrow { self.new.are_narrow ≡ true }
        ensures values { AreEndValues (node_controller node.now) node.now.n (e + 1) self.new }
    {
        self.narrow[e] = value;
        self.total += wide(value);
    }

    /// Computes all values, however large, and marks the end states where a successor is missing: called if `fill_narrow` fails.
    fn fill_wide<C: Cells>(&mut self, node: &Node<'_, C>, reached: &ReachedStates)
        requires { AreMarked (node_controller node.now).cells ((node_controller node.now).action node.now.n)
            (node_controller node.now).cells.states reached.now.marks }
        ensures { AreEndValues (node_controller node.now) node.now.n
            (node_controller node.now).cells.states self.new }
    {
        self.are_narrow = false;
        self.lacks_any = false;
        for e in 0..node.input.states {
            if !reached.marks[e] {
                continue;
            }
            self.note(node, e, complete_value(node, e));
        }
    }

    /// Stores the value at end state `e`, or marks with `None` that the node lacks a successor there.
    #[inline(always)]
    fn note<C: Cells>(&mut self, node: &Node<'_, C>, e: usize, value: Option<i128>)
        requires end { e < (node_controller node.now).cells.states }
        requires before { AreEndValues (node_controller node.now) node.now.n e self.old }
        requires wide { self.old.are_narrow ≡ false }
        requires value { IfSome value (IsCompleteValue (node_controller node.now) node.now.n e) }
        ensures wide { self.new.are_narrow ≡ false }
        ensures values { AreEndValues (node_controller node.now) node.now.n (e + 1) self.new }
    {
        match value {
            Some(value) => {
                self.values[e] = value;
                self.lacks_successor[e] = false;
            }
            None => {
                self.lacks_successor[e] = true;
                self.lacks_any = true;
            }
        }
    }

    /// Returns the value that a node expects at state `s`. The caller has seen that its values are kept in 64 bits (`are_narrow`).
    #[inline(always)]
    pub(crate) fn narrow_value<C: Cells>(&self, node: &Node<'_, C>, s: usize) -> PartialValue
        requires start { s < (node_controller node.now).cells.states }
        requires ends { AreEndValues (node_controller node.now) node.now.n
            (node_controller node.now).cells.states self.now }
        requires narrow { self.now.are_narrow ≡ true }
        ensures { IsExpectedValue (node_controller node.now) node.now.n s result }
    {
        let values = &self.narrow;
        match node.input.cells.t_row(node.action(), s) {
            Some(Row::Scaled { numbers, scale }) => {
                self.value_of_numbers(node, s, numbers, scale)
            }
            Some(
                Row::Even {
                    weight,
                    exceptions,
                    ..
                },
            ) => self.value_of_even(node, s, weight, exceptions),
            row => value_by_form(
                node,
                s,
                row,
                |e| PartialValue {
                    value: values[e] as i128,
                    missing: None,
                },
            ),
        }
    }

    /// Returns what `narrow_value` does, by a row of T whose weights are these numbers times the scale: the sum is scaled, not each weight.
    #[inline(always)]
    fn value_of_numbers<C: Cells>(
        &self,
        node: &Node<'_, C>,
        s: usize,
        numbers: &[u32],
        scale: u32,
    ) -> PartialValue
        requires start { s < (node_controller node.now).cells.states }
        requires row { IsRow (node_controller node.now).cells.states ((node_controller node.now).cells.t
            ((node_controller node.now).action node.now.n) s) (scaled_cells scale 0 numbers.now) }
        requires ends { AreEndValues (node_controller node.now) node.now.n
            (node_controller node.now).cells.states self.now }
        requires narrow { self.now.are_narrow ≡ true }
        ensures { IsExpectedValue (node_controller node.now) node.now.n s result }
    {
        let count = numbers.len().min(node.input.cells.states());
        let sum = sum_of_products(numbers, &self.narrow, count);
        PartialValue {
            value: weigh(scale as u64, sum),
            missing: None,
        }
    }

    /// Returns the same as `narrow_value`, by a row of T with one weight but for exceptions.
    fn value_of_even<C: Cells>(
        &self,
        node: &Node<'_, C>,
        s: usize,
        weight: u64,
        exceptions: &[Cell],
    ) -> PartialValue
        requires start { s < (node_controller node.now).cells.states }
        requires row { (columns : ℕ) × IsEvenRow ((node_controller node.now).cells.t
            ((node_controller node.now).action node.now.n) s) (node_controller node.now).cells.states weight
            columns exceptions.now }
        requires ends { AreEndValues (node_controller node.now) node.now.n
            (node_controller node.now).cells.states self.now }
        requires narrow { self.now.are_narrow ≡ true }
        ensures { IsExpectedValue (node_controller node.now) node.now.n s result }
    {
        PartialValue {
            value: sum_of_even(weight, exceptions, &self.narrow, self.total),
            missing: None,
        }
    }

    /// Returns the value that a node expects at state `s`.
    pub(crate) fn expected_value<C: Cells>(&self, node: &Node<'_, C>, s: usize) -> PartialValue
        requires start { s < (node_controller node.now).cells.states }
        requires ends { AreEndValues (node_controller node.now) node.now.n
            (node_controller node.now).cells.states self.now }
        ensures { IsExpectedValue (node_controller node.now) node.now.n s result }
    {
        if self.are_narrow {
            return self.narrow_value(node, s);
        }
        if self.lacks_any {
            return expected_value(node, s, |e| self.value_at(node, e));
        }
        let values = &self.values;
        expected_value(
            node,
            s,
            |e| PartialValue {
                value: values[e],
                missing: None,
            },
        )
    }

    /// Returns the value at end state `e`, which some state reaches, of values that are not kept in 64 bits. Where the node lacks a
    /// successor it is computed anew, with the observation that is missing.
    fn value_at<C: Cells>(&self, node: &Node<'_, C>, e: usize) -> PartialValue
        requires end { e < (node_controller node.now).cells.states }
        requires wide { self.now.are_narrow ≡ false }
        requires ends { AreEndValues (node_controller node.now) node.now.n
            (node_controller node.now).cells.states self.now }
        ensures { (s : ℕ) → s < (node_controller node.now).cells.states →
            0 < (node_controller node.now).cells.t ((node_controller node.now).action node.now.n) s e →
            IsEndValue (node_controller node.now) node.now.n e result }
    {
        if self.lacks_successor[e] {
            return end_value(node, e);
        }
        PartialValue {
            value: self.values[e],
            missing: None,
        }
    }
}
