//! A node of a certificate's graph.
ghost use Rattle.std.specs.Prelude.{◌≡◌, ◌<◌};
ghost use Rattle.polcert_policy.specs.Graphs.{IsBelow};
ghost use Rattle.polcert_check.specs.Steps.CheckInput.{input_controller};

use crate::check_input::CheckInput;
use polcert_model::Cells;

/// A certificate, and one of the nodes of its graph.
#[derive(Drop)]
pub(crate) struct Node<'a, C: Cells> {
    pub input: CheckInput<'a, C>,
    pub n: usize,
    ghost within: { n < (input_controller input).nodes },
}

impl<C: Cells> Node<'_, C> {
    ghost use Rattle.polcert_check.specs.Steps.Node.{node_controller};

    /// Returns the action that the node takes.
    #[inline]
    pub(crate) fn action(&self) -> usize
        ensures value { result ≡ (node_controller self.now).action self.now.n }
        ensures in_range { result < (node_controller self.now).cells.actions }
    {
        self.input.graph.action(self.n)
    }

    /// Returns the node that follows when observation `z` is received, if one does.
    #[inline]
    pub(crate) fn next(&self, z: usize) -> Option<usize>
        requires { z < (node_controller self.now).cells.observations }
        ensures value { result ≡ (node_controller self.now).next self.now.n z }
        ensures node { IsBelow (node_controller self.now).nodes result }
    {
        self.input.successor_list[self.n * self.input.observations + z].node()
    }

    /// Returns the value of node `m` at state `s`, in millionths.
    #[inline]
    pub(crate) fn value_of(&self, m: usize, s: usize) -> i64
        requires node { m < (node_controller self.now).nodes }
        requires state { s < (node_controller self.now).cells.states }
        ensures { result ≡ (node_controller self.now).value m s }
    {
        self.input.value_list[m * self.input.states + s]
    }

    /// Returns the node's value at state `s`, in millionths.
    #[inline]
    pub(crate) fn value_at(&self, s: usize) -> i64
        requires { s < (node_controller self.now).cells.states }
        ensures { result ≡ (node_controller self.now).value self.now.n s }
    {
        self.value_of(self.n, s)
    }
}
