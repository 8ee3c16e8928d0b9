//! Points that were read, as a check reads them.
ghost use Rattle.std.specs.Prelude.{◌≡◌};
ghost use Rattle.polcert_points.specs.PointTable.{IsProperPointTable, table_of_set};

use crate::belief_points::BeliefPoints;
use polcert_cells::Row;
use polcert_policy::PointSet;

/// Points that were read, of which it is known that weights and values lie within their limits, and that named points are points.
#[derive(Clone, Copy)]
pub struct ReadPoints<'a> {
    set: &'a PointSet,
    ghost proper: { IsProperPointTable (table_of_set set.now) },
}

impl<'a> ReadPoints<'a> {
    /// Returns the points of a set as a check reads them.
    pub fn of(set: &'a PointSet) -> Self
        ensures { result.set ≡ set.entry }
    {
        let _count = set.count();
        ReadPoints { set }
    }
}

impl BeliefPoints for ReadPoints<'_> {
    ghost table = { λ p. table_of_set p.set.now };

    ghost is_proper = { λ p. p.proper };

    fn count(&self) -> usize {
        self.set.count()
    }

    fn states(&self) -> usize {
        self.set.states()
    }

    fn actions(&self) -> usize {
        self.set.actions()
    }

    fn observations(&self) -> usize {
        self.set.observations()
    }

    fn weights(&self, i: usize) -> Row<'_> {
        self.set.weights(i)
    }

    fn value(&self, i: usize, a: usize) -> i64 {
        self.set.value(i, a)
    }

    fn next(&self, i: usize, a: usize, z: usize) -> Option<usize> {
        self.set.next(i, a, z)
    }
}
