//! The values of a node at all end states, computed once for all start states, and what a start state expects of them.
ghost use Rattle.std.specs.Prelude.{◌≡◌, ◌<◌, ◌≤◌, ◌^◌, ◌*ℤ◌, length, unsigned_abs, IfSome, None, ℕ, pos, IsTrue};
ghost use Rattle.polcert_cells.specs.declared.elements.TheConstants.{MOST_STATES};
ghost use Rattle.std.specs.Option.{ForSome};
ghost use Rattle.polcert_cells.specs.BorrowedRows.{IsRowOf, IsStep};
ghost use Rattle.polcert_cells.specs.Sparse.{IsRow, scaled_cells};
ghost use Rattle.polcert_check.specs.Steps.Node.{node_controller};
ghost use Rattle.polcert_check.specs.Steps.Factored.{value_term, IsMissedAt, IsMinOption, HasSameRows};
ghost use Rattle.polcert_check.specs.Steps.Values.{IsCompleteValue, IsEndValue, IsExpectedValue};
ghost use Rattle.polcert_check.specs.Steps.CheckInput.{input_controller};
ghost use Rattle.polcert_check.specs.Steps.Products.{number_term};
ghost use Rattle.polcert_check.specs.Steps.FollowedCells.{followed, followed_is_proper, followed_is_within};

use crate::check_input::CheckInput;
use crate::expected_reward::weigh;
use crate::node::Node;
use polcert_cells::{Cell, MOST_STATES, Row, Step, first_weight};
use polcert_model::Cells;

/// A weighted sum of values, and the least observation in it that has no successor.
#[derive(Clone, Copy)]
pub(crate) struct PartialValue {
    pub value: i128,
    pub missing: Option<usize>,
}

/// Returns the lesser of two numbers, the one that is there, or `None` if neither is.
pub(crate) fn min_option(x: Option<usize>, y: Option<usize>) -> Option<usize>
    ensures { IsMinOption x y result }
{
    match (x, y) {
        (None, _) => y,
        (Some(_), None) => x,
        (Some(a), Some(b)) => if a <= b { x } else { y },
    }
}

/// Returns what one observation adds to a node's value at end state `e`: its weight times the value after it, or nothing if the node has no
/// successor for it, which is then `missing`.
fn observation_value<C: Cells>(node: &Node<'_, C>, e: usize, step: Step) -> PartialValue
    requires end { e < (node_controller node.now).cells.states }
    requires observation { step.column < (node_controller node.now).cells.observations }
    requires weight { step.weight ≡ (node_controller node.now).cells.o
        ((node_controller node.now).action node.now.n) e step.column }
    requires some { 0 < step.weight }
    ensures value { result.value ≡ value_term (node_controller node.now) node.now.n e step.column
        ((node_controller node.now).next node.now.n step.column) }
    ensures missing { IsMissedAt (node_controller node.now) node.now.n step.column result.missing }
{
    let observation = step.column;
    match node.next(observation) {
        Some(m) => PartialValue {
            value: weigh(step.weight, node.value_of(m, e) as i128),
            missing: None,
        },
        None => PartialValue {
            value: 0,
            missing: Some(observation),
        },
    }
}

/// Returns a node's value at end state `e`. `None`: the node has no successor for some observation there.
#[inline(always)]
pub(crate) fn complete_value<C: Cells>(node: &Node<'_, C>, e: usize) -> Option<i128>
    requires end { e < (node_controller node.now).cells.states }
    ensures { IfSome result (IsCompleteValue (node_controller node.now) node.now.n e) }
{
    // A call for each form that most rows have, so that its loop asks for no form.
    match node.input.cells.o_row(node.action(), e) {
        Some(Row::Sparse(cells)) => complete_value_of_row(node, e, Some(Row::Sparse(cells))),
        Some(Row::Scaled { numbers, scale }) => {
            complete_value_of_numbers(node, e, numbers, scale)
        }
        row => complete_value_of_row(node, e, row),
    }
}

/// Numbers below this, and not below its negative, have 64 bits with their sign.
const NARROW: i128 = 9_223_372_036_854_775_808;

/// Returns the same number in 64 bits. `None`: it may be too large for them.
#[inline(always)]
fn narrow(number: i128) -> Option<i64>
    ensures { IfSome result (λ same. same ≡ number) }
{
    if number >= NARROW || number < -NARROW {
        return None;
    }
    Some(number as i64)
}

/// Returns a node's value at end state `e` in 64 bits. `None`: it may be too large for them, or a successor is missing there.
#[inline(always)]
pub(crate) fn narrow_end_value<C: Cells>(node: &Node<'_, C>, e: usize) -> Option<i64>
    requires end { e < (node_controller node.now).cells.states }
    ensures { IfSome result (IsCompleteValue (node_controller node.now) node.now.n e) }
{
    match complete_value(node, e) {
        Some(value) => narrow(value),
        None => None,
    }
}

/// Returns a node's value at end state `e`, by the row of O there, if the node has a successor for each observation.
#[inline(always)]
fn complete_value_of_row<C: Cells>(
    node: &Node<'_, C>,
    e: usize,
    row: Option<Row<'_>>,
) -> Option<i128>
    requires end { e < (node_controller node.now).cells.states }
    requires row { ForSome row (IsRowOf ((node_controller node.now).cells.o
        ((node_controller node.now).action node.now.n) e) (node_controller node.now).cells.observations) }
    ensures { IfSome result (IsCompleteValue (node_controller node.now) node.now.n e) }
{
    let cells = node.input.cells;
    let a = node.action();
    let mut sum: i128 = 0;
    let mut at = 0;
    while let Some(observation) = next_observation(cells, a, e, row, at) {
        let part = observation_value(node, e, observation);
        if part.missing.is_some() {
            return None;
        }
        sum += part.value;
        at = observation.next;
    }
    Some(sum)
}

/// Returns the product of a number and a value.
#[inline(always)]
pub(crate) fn product(number: u32, value: i64) -> i128
    ensures value { result ≡ pos number *ℤ value }
    ensures small { unsigned_abs result ≤ 2 ^ 95 }
{
    weigh(number as u64, value as i128)
}

/// Returns what one observation of this number adds to a node's value at end state `e`, before it is scaled. The observation is missing if
/// the node has no successor for it and the number is above 0.
#[inline(always)]
fn number_value<C: Cells>(node: &Node<'_, C>, e: usize, z: usize, number: u32) -> PartialValue
    requires end { e < (node_controller node.now).cells.states }
    requires observation { z < (node_controller node.now).cells.observations }
    ensures value { result.value ≡ number_term (node_controller node.now) node.now.n e number z }
    ensures small { unsigned_abs result.value ≤ 2 ^ 95 }
    ensures missing { result.missing ≡ None → (node_controller node.now).next node.now.n z ≡ None
        → number ≡ 0 }
{
    match node.next(z) {
        Some(m) => PartialValue {
            value: product(number, node.value_of(m, e)),
            missing: None,
        },
        None => PartialValue {
            value: 0,
            missing: if number > 0 { Some(z) } else { None },
        },
    }
}

/// Returns what `complete_value_of_row` does, by a row of O whose weights are these numbers times the scale: the sum is scaled, not each
/// weight.
#[inline(always)]
fn complete_value_of_numbers<C: Cells>(
    node: &Node<'_, C>,
    e: usize,
    numbers: &[u32],
    scale: u32,
) -> Option<i128>
    requires end { e < (node_controller node.now).cells.states }
    requires row { IsRow (node_controller node.now).cells.observations ((node_controller node.now).cells.o
        ((node_controller node.now).action node.now.n) e) (scaled_cells scale 0 numbers.now) }
    ensures { IfSome result (IsCompleteValue (node_controller node.now) node.now.n e) }
{
    let observations = node.input.cells.observations();
    let count = numbers.len().min(observations);
    let mut sum: i128 = 0;
    for z in 0..count {
        let part = number_value(node, e, z, numbers[z]);
        if part.missing.is_some() {
            return None;
        }
        sum += part.value;
    }
    Some(weigh(scale as u64, sum))
}

/// Returns a node's value at end state `e`, the sum over the row of O (without the weight of reaching `e`), and the least observation that
/// is missing: called where `complete_value` returns `None`.
pub(crate) fn end_value<C: Cells>(node: &Node<'_, C>, e: usize) -> PartialValue
    requires end { e < (node_controller node.now).cells.states }
    ensures { IsEndValue (node_controller node.now) node.now.n e result }
{
    let cells = node.input.cells;
    let a = node.action();
    let mut value: i128 = 0;
    let mut missing: Option<usize> = None;
    let row = cells.o_row(a, e);
    let mut at = 0;
    while let Some(observation) = next_observation(cells, a, e, row, at) {
        let part = observation_value(node, e, observation);
        value += part.value;
        missing = min_option(missing, part.missing);
        at = observation.next;
    }
    PartialValue { value, missing }
}

/// The end states that an action reaches.
#[derive(Drop)]
pub(crate) struct ReachedStates {
    /// Whether the marks are those of the action.
    pub is_known: bool,
    /// Whether it is known that each start state has the same row of T.
    pub has_same_rows: bool,
    pub marks: [bool; MOST_STATES],
    ghost room: { length marks ≡ MOST_STATES },
}

impl ReachedStates {
    ghost use Rattle.std.specs.Prelude.{◌<◌, ℕ, false, true, slice_index_or};
    ghost use Rattle.std.specs.Prelude.{IsTrue};
    ghost use Rattle.polcert_check.specs.Steps.Factored.{AreMarked, HasSameRows};

    pub(crate) fn new() -> Self {
        ReachedStates {
            is_known: false,
            has_same_rows: false,
            marks: [false; MOST_STATES],
        }
    }

    /// Forgets the marks, so that those of another action can follow.
    pub(crate) fn clear(&mut self)
        ensures { self.new.is_known ≡ false }
    {
        self.is_known = false;
    }

    /// Marks the end states that action `a` reaches from any state, and finds out whether all states have the same row of T.
    pub(crate) fn find<C: Cells>(&mut self, cells: &C, a: usize)
        requires action { a < (C.table cells.now).actions }
        ensures marks { AreMarked (C.table cells.now) a (C.table cells.now).states self.new.marks }
        ensures same { IsTrue self.new.has_same_rows → HasSameRows (C.table cells.now) a }
    {
        // (A mark too many would cost time alone.)
        for e in 0..cells.states() {
            self.marks[e] = false;
        }
        if has_same_rows(cells, a) {
            self.mark(cells, a, 0);
            self.has_same_rows = true;
            self.is_known = true;
            return;
        }
        for s in 0..cells.states() {
            if is_even(cells.t_row(a, s)) {
                self.mark_all(cells.states());
                break;
            }
            self.mark(cells, a, s);
        }
        self.has_same_rows = false;
        self.is_known = true;
    }

    /// Marks the first `count` states.
    fn mark_all(&mut self, count: usize)
        requires { count ≤ length self.old.marks }
        ensures { (e : ℕ) → e < count → slice_index_or self.new.marks e false ≡ true }
    {
        for e in 0..count {
            self.marks[e] = true;
        }
    }

    /// Marks the end states that action `a` reaches from state `s`, and keeps the other marks.
    fn mark<C: Cells>(&mut self, cells: &C, a: usize, s: usize)
        requires action { a < (C.table cells.now).actions }
        requires start { s < (C.table cells.now).states }
        ensures still { (e : ℕ) → slice_index_or self.old.marks e false ≡ true
            → slice_index_or self.new.marks e false ≡ true }
        ensures marked { (e : ℕ) → e < (C.table cells.now).states → 0 < (C.table cells.now).t a s e
            → slice_index_or self.new.marks e false ≡ true }
    {
        let row = cells.t_row(a, s);
        let mut at = 0;
        while let Some(end) = next_end(cells, a, s, row, at) {
            self.marks[end.column] = true;
            at = end.next;
        }
    }
}

/// Returns whether it is known that each start state has the same row of T when action `a` is taken. `false`: unknown.
fn has_same_rows<C: Cells>(cells: &C, a: usize) -> bool
    requires action { a < (C.table cells.now).actions }
    ensures { IsTrue result → HasSameRows (C.table cells.now) a }
{
    for s in 1..cells.states() {
        if !is_same_row(cells.t_row(a, 0), cells.t_row(a, s)) {
            return false;
        }
    }
    true
}

/// Returns whether a row has a weight above 0 in most columns.
fn is_even(row: Option<Row<'_>>) -> bool {
    match row {
        Some(Row::Even { .. }) => true,
        _ => false,
    }
}

/// Returns whether two rows are known to have the same weights. `false`: unknown.
pub fn is_same_row(one: Option<Row<'_>>, other: Option<Row<'_>>) -> bool
    ensures { (f g : ℕ → ℕ) (count : ℕ) → IsTrue result → ForSome one.entry (IsRowOf f count)
        → ForSome other.entry (IsRowOf g count) → (c : ℕ) → c < count → f c ≡ g c }
{
    match (one, other) {
        (Some(Row::Sparse(cells)), Some(Row::Sparse(own))) => cells == own,
        (
            Some(Row::Scaled { numbers, scale }),
            Some(
                Row::Scaled {
                    numbers: own,
                    scale: by,
                },
            ),
        ) => { scale == by && numbers == own }
        (Some(Row::Single(cell)), Some(Row::Single(own))) => cell == own,
        (
            Some(
                Row::Even {
                    weight,
                    columns,
                    exceptions,
                },
            ),
            Some(
                Row::Even {
                    weight: same,
                    columns: wide,
                    exceptions: own,
                },
            ),
        ) => { weight == same && columns == wide && exceptions == own }
        _ => false,
    }
}

/// Returns the value that a node expects at state `s`: the sum over the row of T, where `value_of` gives the value at each end state.
#[inline(always)]
pub(crate) fn expected_value<C: Cells, F: Fn(usize) -> PartialValue>(
    node: &Node<'_, C>,
    s: usize,
    value_of: F,
) -> PartialValue
    requires start { s < (node_controller node.now).cells.states }
    requires callable { (e : ℕ) → e < (node_controller node.now).cells.states
        → 0 < (node_controller node.now).cells.t ((node_controller node.now).action node.now.n) s e
        → F.pre value_of e }
    requires value { (e : ℕ) (part : _) → e < (node_controller node.now).cells.states
        → 0 < (node_controller node.now).cells.t ((node_controller node.now).action node.now.n) s e
        → F.post value_of e part → IsEndValue (node_controller node.now) node.now.n e part }
    ensures { IsExpectedValue (node_controller node.now) node.now.n s result }
{
    value_by_form(node, s, node.input.cells.t_row(node.action(), s), value_of)
}

/// Returns what `expected_value` does, by the row of T that is given; if none is, each weight is asked for.
#[inline(always)]
pub(crate) fn value_by_form<C: Cells, F: Fn(usize) -> PartialValue>(
    node: &Node<'_, C>,
    s: usize,
    row: Option<Row<'_>>,
    value_of: F,
) -> PartialValue
    requires start { s < (node_controller node.now).cells.states }
    requires row { ForSome row (IsRowOf ((node_controller node.now).cells.t
        ((node_controller node.now).action node.now.n) s) (node_controller node.now).cells.states) }
    requires callable { (e : ℕ) → e < (node_controller node.now).cells.states
        → 0 < (node_controller node.now).cells.t ((node_controller node.now).action node.now.n) s e
        → F.pre value_of e }
    requires value { (e : ℕ) (part : _) → e < (node_controller node.now).cells.states
        → 0 < (node_controller node.now).cells.t ((node_controller node.now).action node.now.n) s e
        → F.post value_of e part → IsEndValue (node_controller node.now) node.now.n e part }
    ensures { IsExpectedValue (node_controller node.now) node.now.n s result }
{
    // A call for each form that most rows have, so that its loop asks for no form.
    match row {
        Some(Row::Sparse(cells)) => value_of_cells(node, s, cells, value_of),
        Some(Row::Scaled { numbers, scale }) => {
            let row = Row::Scaled { numbers, scale };
            value_of_row(node, s, Some(row), value_of)
        }
        row => value_of_row(node, s, row, value_of),
    }
}

/// Returns the value that a node expects at state `s`, by the cells of a sparse row of T there: each once, which takes fewer instructions
/// than steps.
#[inline(always)]
fn value_of_cells<C: Cells, F: Fn(usize) -> PartialValue>(
    node: &Node<'_, C>,
    s: usize,
    cells: &[Cell],
    value_of: F,
) -> PartialValue
    requires start { s < (node_controller node.now).cells.states }
    requires row { IsRow (node_controller node.now).cells.states ((node_controller node.now).cells.t
        ((node_controller node.now).action node.now.n) s) cells.now }
    requires callable { (e : ℕ) → e < (node_controller node.now).cells.states
        → 0 < (node_controller node.now).cells.t ((node_controller node.now).action node.now.n) s e
        → F.pre value_of e }
    requires value { (e : ℕ) (part : _) → e < (node_controller node.now).cells.states
        → 0 < (node_controller node.now).cells.t ((node_controller node.now).action node.now.n) s e
        → F.post value_of e part → IsEndValue (node_controller node.now) node.now.n e part }
    ensures { IsExpectedValue (node_controller node.now) node.now.n s result }
{
    let mut value: i128 = 0;
    let mut missing = None;
    let mut left = node.input.cells.t_scale();
    let mut place = 0;
    // (Ended by the weights, which sum to the scale: a loop over places is unrolled, which costs rows of a few cells more than it gains.)
    'row: while left > 0 {
        let cell = cells[place];
        let part = value_of(cell.column);
        value += weigh(cell.weight, part.value);
        missing = min_option(missing, part.missing);
        left -= cell.weight;
        place += 1;
    }
    PartialValue { value, missing }
}

/// Returns the value that a node expects at state `s`, by the row of T there.
#[inline(always)]
fn value_of_row<C: Cells, F: Fn(usize) -> PartialValue>(
    node: &Node<'_, C>,
    s: usize,
    row: Option<Row<'_>>,
    value_of: F,
) -> PartialValue
    requires start { s < (node_controller node.now).cells.states }
    requires row { ForSome row (IsRowOf ((node_controller node.now).cells.t
        ((node_controller node.now).action node.now.n) s) (node_controller node.now).cells.states) }
    requires callable { (e : ℕ) → e < (node_controller node.now).cells.states
        → 0 < (node_controller node.now).cells.t ((node_controller node.now).action node.now.n) s e
        → F.pre value_of e }
    requires value { (e : ℕ) (part : _) → e < (node_controller node.now).cells.states
        → 0 < (node_controller node.now).cells.t ((node_controller node.now).action node.now.n) s e
        → F.post value_of e part → IsEndValue (node_controller node.now) node.now.n e part }
    ensures { IsExpectedValue (node_controller node.now) node.now.n s result }
{
    let cells = node.input.cells;
    let a = node.action();
    let mut value: i128 = 0;
    let mut missing = None;
    let mut at = 0;
    while let Some(end) = next_end(cells, a, s, row, at) {
        let part = value_of(end.column);
        value += weigh(end.weight, part.value);
        missing = min_option(missing, part.missing);
        at = end.next;
    }
    PartialValue { value, missing }
}

/// Returns the next end state of positive weight when action `a` is taken in state `s`, from a place in the row on. If no row is
/// given, places are end states.
#[inline(always)]
pub fn next_end<C: Cells>(
    cells: &C,
    a: usize,
    s: usize,
    row: Option<Row<'_>>,
    at: usize,
) -> Option<Step>
    requires action { a < (C.table cells.now).actions }
    requires start { s < (C.table cells.now).states }
    requires row { ForSome row (IsRowOf ((C.table cells.now).t a s) (C.table cells.now).states) }
    ensures { IsStep ((C.table cells.now).t a s) (C.table cells.now).states row.entry at result }
{
    match row {
        Some(row) => row.step(at),
        None => first_weight(at, cells.states(), move |e| cells.t(a, s, e)),
    }
}

/// Returns the next observation of positive weight when action `a` ends in state `e`, from a place in the row on. If no row is
/// given, places are observations.
#[inline(always)]
pub fn next_observation<C: Cells>(
    cells: &C,
    a: usize,
    e: usize,
    row: Option<Row<'_>>,
    at: usize,
) -> Option<Step>
    requires action { a < (C.table cells.now).actions }
    requires end { e < (C.table cells.now).states }
    requires row { ForSome row (IsRowOf ((C.table cells.now).o a e) (C.table cells.now).observations) }
    ensures { IsStep ((C.table cells.now).o a e) (C.table cells.now).observations row.entry at result }
{
    match row {
        Some(row) => row.step(at),
        None => first_weight(at, cells.observations(), move |z| cells.o(a, e, z)),
    }
}

/// The cells of a certificate, where an observation for which node `n` has no successor earns nothing.
#[derive(Drop)]
pub(crate) struct FollowedCells<'a, C: Cells> {
    pub input: &'a CheckInput<'a, C>,
    pub n: usize,
    ghost node: { n < (input_controller input.now).nodes },
}

impl<C: Cells> Cells for FollowedCells<'_, C> {
    ghost table = { λ x. followed (input_controller x.input.now) x.n };

    ghost is_proper = { λ x. followed_is_proper (input_controller x.input.now) x.n x.input.now.proper.cells };

    ghost is_within_limits = { λ x. followed_is_within (input_controller x.input.now) x.n (C.is_within_limits x.input.now.cells.now) };

    fn states(&self) -> usize {
        self.input.cells.states()
    }

    fn actions(&self) -> usize {
        self.input.cells.actions()
    }

    fn observations(&self) -> usize {
        self.input.cells.observations()
    }

    fn discount(&self) -> u32 {
        self.input.cells.discount()
    }

    fn t_scale(&self) -> u64 {
        self.input.cells.t_scale()
    }

    fn o_scale(&self) -> u64 {
        self.input.cells.o_scale()
    }

    fn t(&self, a: usize, s: usize, e: usize) -> u64 {
        self.input.cells.t(a, s, e)
    }

    fn o(&self, a: usize, e: usize, z: usize) -> u64 {
        self.input.cells.o(a, e, z)
    }

    fn r(&self, a: usize, s: usize, e: usize, z: usize) -> i64 {
        match self.input.graph.next(self.n, z) {
            Some(_) => self.input.cells.r(a, s, e, z),
            None => 0,
        }
    }
}
