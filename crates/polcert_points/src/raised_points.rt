//! Points whose values are all raised by one constant, as a check reads them.
ghost use Rattle.std.specs.Prelude.{◌≡◌, ◌≤◌};
ghost use Rattle.polcert_points.specs.PointTable.{IsProperPointTable, table_of_set};
ghost use Rattle.polcert_points_form.specs.RaisedSet.{CanRaisePoints, HasAllValues, raised_set};

use crate::belief_points::BeliefPoints;
use polcert_cells::Row;
use polcert_policy::PointSet;

/// Points of a set, each value raised by one constant, of which it is known that the values stay in range.
#[derive(Clone, Copy)]
pub struct RaisedPoints<'a> {
    set: &'a PointSet,
    by: u64,
    ghost all_values: { HasAllValues set.now },
    ghost small: { by ≤ 20_000_000_000_000 },
    ghost room: { CanRaisePoints set.now by },
    ghost proper: { IsProperPointTable (table_of_set (raised_set set.now by)) },
}

impl<'a> RaisedPoints<'a> {
    /// Returns the points of a set, each value raised by `by` millionths.
    pub fn new(set: &'a PointSet, by: u64) -> Self
        requires all_values { HasAllValues set.now }
        requires small { by ≤ 20_000_000_000_000 }
        requires room { CanRaisePoints set.now by }
        ensures set { result.set ≡ set.entry }
        ensures by { result.by ≡ by }
    {
        let _count = set.count();
        RaisedPoints { set, by }
    }
}

impl BeliefPoints for RaisedPoints<'_> {
    ghost table = { λ p. table_of_set (raised_set p.set.now p.by) };

    ghost is_proper = { λ p. p.proper };

    fn count(&self) -> usize {
        self.set.count()
    }

    fn states(&self) -> usize {
        self.set.states()
    }

    fn actions(&self) -> usize {
        self.set.actions()
    }

    fn observations(&self) -> usize {
        self.set.observations()
    }

    fn weights(&self, i: usize) -> Row<'_> {
        self.set.weights(i)
    }

    fn value(&self, i: usize, a: usize) -> i64 {
        self.set.value(i, a) + self.by as i64
    }

    fn next(&self, i: usize, a: usize, z: usize) -> Option<usize> {
        self.set.next(i, a, z)
    }
}
