//! Belief points: at each a weight for each state, and for each action a value and the points that are named.
ghost use Rattle.std.specs.Prelude.{◌≡◌, ◌<◌};
ghost use Rattle.polcert_cells.specs.BorrowedRows.{IsRowOf};
ghost use Rattle.polcert_policy.specs.Vectors.{IsInRange};
ghost use Rattle.polcert_policy.specs.Points.{PointValues, AreProperPoints, AreProperLists, point_count};
ghost use Rattle.polcert_policy.specs.Points.{point_weight, value_at, named_at};
ghost use Rattle.polcert_policy.specs.Graphs.{IsBelow};

use crate::graph::Successor;
use crate::points_reading::PointsReading;
use crate::weight_rows::WeightRows;
use polcert_cells::Row;
use std::marker::Model;

/// Belief points, read for this many states, actions and observations: each with a weight for each state, and for each action a value and
/// for each observation the point that covers the belief after it, or none. Weights and values are in millionths. What is kept is
/// proportional to the weights above 0, the values and the names.
pub struct PointSet {
    states: usize,
    actions: usize,
    observations: usize,
    rows: WeightRows,
    values: Vec<i64>,
    names: Vec<Successor>,
}

// (Written by hand so that callers prove one drop.)
impl Drop for PointSet {
    fn drop(self) {
        let PointSet {
            states: _,
            actions: _,
            observations: _,
            rows: _,
            values: _,
            names: _,
        } = self;
    }
}

impl Model for PointSet {
    ghost use Rattle.polcert_policy.specs.Points.{PointValues, AreProperLists};

    ghost Value = { PointValues };

    ghost view = { λ p. record {
      states = p.states;
      actions = p.actions;
      observations = p.observations;
      rows = p.rows.rows;
      values = p.values.items;
      names = p.names.items;
    } };

    ghost invariant = { λ p.
        AreProperLists p.states p.actions p.observations p.rows.rows p.values.items p.names.items };
}

impl PointSet {
    /// Returns the points that were read.
    pub(crate) fn of(reading: PointsReading) -> Self
        requires { AreProperLists reading.states reading.actions reading.observations
            reading.rows.rows reading.values.items reading.names.items }
        ensures { result ≡ (let p : PointValues =
            record {
              states = reading.states;
              actions = reading.actions;
              observations = reading.observations;
              rows = reading.rows.rows;
              values = reading.values.items;
              names = reading.names.items;
            } in p) }
    {
        PointSet {
            states: reading.states,
            actions: reading.actions,
            observations: reading.observations,
            rows: reading.rows,
            values: reading.values,
            names: reading.names,
        }
    }

    /// Returns how many points there are: at most 10,000.
    pub fn count(&self) -> usize
        ensures count { result ≡ point_count self.now }
        ensures proper { AreProperPoints self.now }
    {
        self.rows.len()
    }

    /// Returns how many states the points were read for.
    pub fn states(&self) -> usize
        ensures { result ≡ self.now.states }
    {
        self.states
    }

    /// Returns how many actions the points were read for.
    pub fn actions(&self) -> usize
        ensures { result ≡ self.now.actions }
    {
        self.actions
    }

    /// Returns how many observations the points were read for.
    pub fn observations(&self) -> usize
        ensures { result ≡ self.now.observations }
    {
        self.observations
    }

    /// Returns the weight of each state at point `i`, in millionths. They sum to at least 1 and at most 1,000,000.
    pub fn weights(&self, i: usize) -> Row<'_>
        requires { i < point_count self.now }
        ensures { IsRowOf (point_weight self.now i) self.now.states result }
    {
        Row::Sparse(self.rows.row(i))
    }

    /// Returns the value of action `a` at point `i`, in millionths: at most 10,000,000 in size.
    pub fn value(&self, i: usize, a: usize) -> i64
        requires point { i < point_count self.now }
        requires action { a < self.now.actions }
        ensures value { result ≡ value_at self.now i a }
        ensures in_range { IsInRange result }
    {
        self.values[i * self.actions + a]
    }

    /// Returns the point that is named to cover the belief after action `a` and observation `z` at point `i`, if one is.
    pub fn next(&self, i: usize, a: usize, z: usize) -> Option<usize>
        requires point { i < point_count self.now }
        requires action { a < self.now.actions }
        requires observation { z < self.now.observations }
        ensures value { result ≡ named_at self.now i a z }
        ensures point { IsBelow (point_count self.now) result }
    {
        self.names[(i * self.actions + a) * self.observations + z].node()
    }
}
