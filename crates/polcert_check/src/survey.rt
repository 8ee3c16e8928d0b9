//! The check of a policy certificate: its verdict, and the walk over all pairs of a node and a state.
ghost use Rattle.polcert_check.specs.Horizon.{Fits, controller_of, MeetsHorizon};
ghost use Rattle.polcert_check.specs.Verdict.{IsVerdict, NamesSmallAmount};
ghost use Rattle.std.specs.Prelude.{◌≡◌, ◌+◌, ◌<◌, ◌*◌, ◌≤◌, IfSome, None, ℕ, length};
ghost use Rattle.polcert_check.specs.Steps.CheckInput.{input_controller, checked_controller};
ghost use Rattle.polcert_check.specs.Steps.Findings.{IsFound, IsFoundBefore, IsPair, PassUntil};
ghost use Rattle.polcert_check.specs.Steps.Node.{node_controller};
ghost use Rattle.polcert_check.specs.Steps.Survey.{IsOfAction};
ghost use Rattle.polcert_policy.specs.Vectors.{AreProperVectors};
ghost use Rattle.polcert_check.specs.Steps.Ranges.{IsController, ValuesAreWithin};
ghost use Rattle.polcert_check.specs.Steps.Factored.{factored_reward, AreKnown, HasSameRows, IsPairVerdict};
ghost use Rattle.polcert_check.specs.Steps.Values.{AreEndValues, IsExpectedValue};

use crate::check_input::CheckInput;
use crate::end_values::{PartialValue, ReachedStates};
use crate::ends::EndValues;
use crate::expected_reward::{Earnings, UNKNOWN};
use crate::findings::{Findings, Mode, Side};
use crate::node::Node;
use crate::shortfall::pair_verdict;
use polcert_model::Cells;
use polcert_policy::{Graph, Vectors};

/// What a check finds: yes, or the first pair of a node and a state that doesn't pass, by node and then by state.
#[derive(Clone, Copy, Debug, PartialEq, Eq)]
pub enum Verdict {
    /// Every value is backed, from every node and state.
    Yes,
    /// The value of this node at this state is above what the next step backs, by this amount: in millionths, on the scale
    /// of the weights of one step times 1,000,000.
    Short {
        node: usize,
        state: usize,
        amount: i128,
    },
    /// This observation can be received at this node and state, and the node has no successor for it. It is the least such
    /// observation.
    NoSuccessor {
        node: usize,
        state: usize,
        observation: usize,
    },
}

/// Checks that the backup of one step reaches each value, so that every number of steps does. Returns the first pair of a node and a state
/// that fails, if one does. (The programs call `check_watched`.)
pub fn check<C: Cells>(cells: &C, graph: &Graph, vectors: &Vectors) -> Verdict
    requires fits { Fits (C.table cells.now) graph.now vectors.now }

    // Yes where every pair passes, else the first that doesn't, and why.
    ensures verdict { IsVerdict (controller_of (C.table cells.now) graph.now vectors.now) result }

    // The promise for every horizon, or that one step breaks it.
    ensures horizon { MeetsHorizon (controller_of (C.table cells.now) graph.now vectors.now) result }

    // How large an amount can be.
    ensures small { NamesSmallAmount (controller_of (C.table cells.now) graph.now vectors.now) result }
{
    check_watched(cells, graph, vectors, &mut NoProgress)
}

/// Checks as `check`, and notifies `progress` of each node when all of its pairs have passed.
pub fn check_watched<C: Cells, W: Progress>(
    cells: &C,
    graph: &Graph,
    vectors: &Vectors,
    progress: &mut W,
) -> Verdict
    requires fits { Fits (C.table cells.now) graph.now vectors.now }
    ensures verdict { IsVerdict (controller_of (C.table cells.now) graph.now vectors.now) result }
    ensures horizon { MeetsHorizon (controller_of (C.table cells.now) graph.now vectors.now) result }
    ensures small { NamesSmallAmount (controller_of (C.table cells.now) graph.now vectors.now) result }
{
    let input = CheckInput::new(Side::Below, cells, graph, vectors);
    survey(&input, Mode::Check, progress).first
}

/// The state of the walk: what it has found, and buffers that are reused for every action and node.
#[derive(Drop)]
struct SurveyState {
    earnings: Earnings,
    reached: ReachedStates,
    ends: EndValues,
    findings: Findings,
}

impl SurveyState {
    ghost use Rattle.std.specs.Prelude.{◌≡◌, ◌<◌, ◌≤◌, IfSome};
    ghost use Rattle.polcert_check.specs.Steps.CheckInput.{checked_controller};
    ghost use Rattle.polcert_check.specs.Steps.Factored.{IsPairVerdict};
    ghost use Rattle.polcert_check.specs.Steps.Findings.{PassUntil};
    ghost use Rattle.polcert_check.specs.Steps.Node.{node_controller};
    ghost use Rattle.polcert_check.specs.Steps.Survey.{IsOfAction, IsPrepared};
    ghost use Rattle.polcert_check.specs.Steps.Values.{AreEndValues};

    /// Computes what all nodes that take action `a` have in common, unless it is computed.
    fn prepare<C: Cells>(&mut self, cells: &C, a: usize)
        requires action { a < (C.table cells.now).actions }
        requires of_action { IsOfAction (C.table cells.now) a self.old }
        ensures prepared { IsPrepared (C.table cells.now) a self.new }
        ensures findings { self.new.findings ≡ self.old.findings }
    {
        if self.reached.is_known {
            return;
        }
        self.earnings.begin(cells, a, &mut self.ends.values);
        self.reached.find(cells, a);
    }

    /// Returns the first state from `from` on whose pair with the node does not pass, or has no verdict yet (`None`: ask `verdict_at`); or
    /// the number of states.
    fn first_failure<C: Cells>(&self, node: &Node<'_, C>, from: usize) -> StateVerdict
        requires from { from < (node_controller node.now).cells.states }
        requires prepared { IsPrepared (node_controller node.now).cells
            ((node_controller node.now).action node.now.n) self.now }
        requires ends { AreEndValues (node_controller node.now) node.now.n
            (node_controller node.now).cells.states self.now.ends }
        ensures from { from ≤ result.state }
        ensures within { result.state ≤ (node_controller node.now).cells.states }
        ensures passed { PassUntil (checked_controller node.now.input) node.now.n from result.state }
        ensures verdict { IfSome result.verdict
            (IsPairVerdict (checked_controller node.now.input) node.now.n result.state) }
    {
        let rewards = &self.earnings.rewards;
        let ends = &self.ends;
        if !ends.are_narrow || rewards[from] == UNKNOWN {
            return StateVerdict::unknown(from);
        }
        if self.reached.has_same_rows {
            let expected = ends.narrow_value(node, from);
            return first_failure(
                node,
                from,
                rewards,
                |s| value_of_same_row(node, from, expected, s),
            );
        }
        first_failure(node, from, rewards, |s| ends.narrow_value(node, s))
    }

    /// Returns the verdict on the pair of the node and a state: `known` if it has one, else a new one.
    fn verdict_at<C: Cells, W: Progress>(
        &mut self,
        node: &Node<'_, C>,
        known: StateVerdict,
        progress: &mut W,
    ) -> Verdict
        requires state { known.state < (node_controller node.now).cells.states }
        requires known { IfSome known.verdict
            (IsPairVerdict (checked_controller node.now.input) node.now.n known.state) }
        requires prepared { IsPrepared (node_controller node.now).cells
            ((node_controller node.now).action node.now.n) self.old }
        requires ends { AreEndValues (node_controller node.now) node.now.n
            (node_controller node.now).cells.states self.old.ends }
        ensures prepared { IsPrepared (node_controller node.now).cells
            ((node_controller node.now).action node.now.n) self.new }
        ensures ends { self.new.ends ≡ self.old.ends }
        ensures findings { self.new.findings ≡ self.old.findings }
        ensures verdict { IsPairVerdict (checked_controller node.now.input) node.now.n known.state
            result }
    {
        if let Some(verdict) = known.verdict {
            return verdict;
        }
        let s = known.state;
        let reward = self
            .earnings
            .reward_at(node.input.cells, node.action(), s, progress);
        let expected = self.ends.expected_value(node, s);
        pair_verdict(node, s, node.value_at(s), reward, expected)
    }
}

/// Returns the value that a node expects at state `s` if each state has the same row of T: `value`, which it expects at state `other`.
#[inline(always)]
fn value_of_same_row<C: Cells>(
    node: &Node<'_, C>,
    other: usize,
    value: PartialValue,
    s: usize,
) -> PartialValue
    requires same { HasSameRows (node_controller node.now).cells
        ((node_controller node.now).action node.now.n) }
    requires other { other < (node_controller node.now).cells.states }
    requires value { IsExpectedValue (node_controller node.now) node.now.n other value }
    requires start { s < (node_controller node.now).cells.states }
    ensures { IsExpectedValue (node_controller node.now) node.now.n s result }
{
    value
}

/// Checks the pairs of a node, until none of the rest can be the first that is looked for.
fn survey_node<C: Cells, W: Progress>(
    node: &Node<'_, C>,
    survey: &mut SurveyState,
    progress: &mut W,
)
    requires of_action { IsOfAction (node_controller node.now).cells
        ((node_controller node.now).action node.now.n) survey.old }
    requires found { IsFoundBefore (checked_controller node.now.input)
        ((node_controller node.now).action node.now.n) node.now.n 0 survey.old.findings }
    ensures of_action { IsOfAction (node_controller node.now).cells
        ((node_controller node.now).action node.now.n) survey.new }
    ensures found { IsFoundBefore (checked_controller node.now.input)
        ((node_controller node.now).action node.now.n) (node.now.n + 1) 0 survey.new.findings }
    ensures mode { survey.new.findings.mode ≡ survey.old.findings.mode }
{
    if survey.findings.is_settled(node.n) {
        return;
    }
    let cells = node.input.cells;
    let a = node.action();
    survey.prepare(cells, a);
    survey.ends.fill(node, &survey.reached);
    let states = cells.states();
    let mut s = 0;
    'pairs: while s < states {
        let failure = survey.first_failure(node, s);
        s = failure.state;
        if s < states {
            let verdict = survey.verdict_at(node, failure, progress);
            if survey.findings.note(node.n, verdict) {
                return;
            }
            s += 1;
        }
    }
    progress.node_done();
}

/// Checks the pairs of the nodes that take action `a`.
#[inline(never)]
fn survey_action<C: Cells, W: Progress>(
    input: &CheckInput<'_, C>,
    a: usize,
    survey: &mut SurveyState,
    progress: &mut W,
)
    requires found { IsFoundBefore (checked_controller input.now) a 0 0 survey.old.findings }
    ensures found { IsFoundBefore (checked_controller input.now) (a + 1) 0 0 survey.new.findings }
    ensures mode { survey.new.findings.mode ≡ survey.old.findings.mode }
{
    survey.reached.clear();
    for n in 0..input.graph.nodes() {
        if input.graph.action(n) == a {
            // (The node has a copy of its own, so that its parts are not looked up again at each step.)
            let own = CheckInput {
                cells: input.cells,
                graph: input.graph,
                vectors: input.vectors,
                side: input.side,
                successor_list: input.successor_list,
                value_list: input.value_list,
                observations: input.observations,
                states: input.states,
                step_scale: input.step_scale,
                discount: input.discount,
            };
            let node = Node { input: own, n };
            survey_node(&node, survey, progress);
        }
    }
}

/// Checks the pairs of all nodes and states, and returns what it finds. `progress` is notified of each node when all of its pairs have been
/// checked, and none of them is the first that is looked for.
pub(crate) fn survey<C: Cells, W: Progress>(
    input: &CheckInput<'_, C>,
    mode: Mode,
    progress: &mut W,
) -> Findings
    ensures found { IsFound (checked_controller input.now) (IsPair (checked_controller input.now)) result }
    ensures mode { result.mode ≡ mode }
{
    progress.begin(input.graph.nodes());
    let findings = Findings::new(mode);
    let mut survey = SurveyState {
        earnings: Earnings::new(),
        reached: ReachedStates::new(),
        ends: EndValues::new(),
        findings,
    };
    for a in 0..input.cells.actions() {
        survey_action(input, a, &mut survey, progress);
    }
    progress.end();
    survey.findings
}

/// A state, and the verdict on its pair with a node, or `None` if it isn't known yet.
#[derive(Clone, Copy)]
pub(crate) struct StateVerdict {
    pub state: usize,
    pub verdict: Option<Verdict>,
}

impl StateVerdict {
    /// Makes a state whose verdict isn't known.
    pub(crate) fn unknown(state: usize) -> Self
        ensures state { result.state ≡ state }
        ensures verdict { result.verdict ≡ None }
    {
        StateVerdict {
            state,
            verdict: None,
        }
    }
}

/// Returns the first state from `from` on whose pair with the node does not pass, where `value_of` gives what the node expects; with no
/// verdict the first whose reward is not known yet, or the number of states.
#[inline(never)]
pub(crate) fn first_failure<C: Cells, F: Fn(usize) -> PartialValue>(
    node: &Node<'_, C>,
    from: usize,
    rewards: &[i128],
    value_of: F,
) -> StateVerdict
    requires from { from < (node_controller node.now).cells.states }
    requires room { (node_controller node.now).cells.states ≤ length rewards.now }
    requires rewards { AreKnown (factored_reward (node_controller node.now).cells
        ((node_controller node.now).action node.now.n)) (node_controller node.now).cells.states rewards.now }
    requires callable { (s : ℕ) → s < (node_controller node.now).cells.states → F.pre value_of s }
    requires value { (s : ℕ) (part : _) → s < (node_controller node.now).cells.states
        → F.post value_of s part → IsExpectedValue (node_controller node.now) node.now.n s part }
    ensures from { from ≤ result.state }
    ensures within { result.state ≤ (node_controller node.now).cells.states }
    ensures passed { PassUntil (checked_controller node.now.input) node.now.n from result.state }
    ensures verdict { IfSome result.verdict
        (IsPairVerdict (checked_controller node.now.input) node.now.n result.state) }
{
    let states = node.input.cells.states();
    let mut state = from;
    'pairs: loop {
        // (These come first: what they have in common for all states is read once only if each iteration reads it.)
        let value = node.value_at(state);
        let expected = value_of(state);
        let reward = rewards[state];
        if reward == UNKNOWN {
            return StateVerdict::unknown(state);
        }
        let verdict = pair_verdict(node, state, value, reward, expected);
        match verdict {
            Verdict::Yes => {}
            Verdict::Short { .. } | Verdict::NoSuccessor { .. } => return StateVerdict {
                state,
                verdict: Some(verdict),
            },
        }
        state += 1;
        if state == states {
            return StateVerdict::unknown(state);
        }
    }
}

/// Is notified of how far a walk over the nodes of a graph is. No answer depends on it.
pub trait Progress {
    /// Notifies that a walk over this many nodes begins.
    fn begin(&mut self, nodes: usize);

    /// Notifies that the first `done` of `states` start states of a node are done. It is called for the first
    /// node of an action only: nodes after it share its rewards, which take most of the time.
    fn states_done(&mut self, done: usize, states: usize);

    /// Notifies that one more node is done.
    fn node_done(&mut self);

    /// Notifies that the walk ends, perhaps before its last node.
    fn end(&mut self);
}

/// Notifies nobody.
#[derive(Clone, Copy, Debug)]
pub struct NoProgress;

impl Progress for NoProgress {
    fn begin(&mut self, _nodes: usize) {}

    fn states_done(&mut self, _done: usize, _states: usize) {}

    fn node_done(&mut self) {}

    fn end(&mut self) {}
}
