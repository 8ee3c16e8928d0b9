//! By how much the backup of an action at a point is above its value.
use crate::belief::{clear_belief, fill_arrivals, list_cells};
use crate::belief_points::BeliefPoints;
use crate::best_worth::mass_of;
use crate::checked_points::CheckedPoints;
use crate::compare::excess;
use crate::later::following_worth;
use crate::point_reward::{point_reward, point_value_at_scale};
use polcert_cells::{Cell, Cells, Row};
use polcert_check::one_step::RewardBuffer;

impl<C: Cells, P: BeliefPoints> CheckedPoints<'_, C, P> {
    ghost use Rattle.std.specs.Prelude.{◌≡◌, ◌<◌, length};
    ghost use Rattle.polcert_points.specs.Points.{Covers};
    ghost use Rattle.polcert_points.specs.PointRaise.{point_excess};
    ghost use Rattle.polcert_points.specs.PointCheck.{AreCoversBy, IsRoundedUp};
    ghost use Rattle.polcert_points.specs.PointTable.{charge_at};

    /// Returns by how much the backup of action `a` at point `i` is above its value: in millionths, on the scale of the weights of one step
    /// times the mass of the point, rounded up. So it is above 0 exactly if the inequality fails there. The rest are buffers.
    // (Six parameters: four buffers, which are borrowed apart.)
    pub(crate) fn point_excess(
        &self,
        i: usize,
        a: usize,
        arrivals: &mut [u64],
        ends: &mut [Cell],
        belief: &mut [u128],
        rewards: &mut RewardBuffer,
    ) -> i128
        requires point { i < (P.table self.now.points.now).points.count }
        requires action { a < (C.table self.now.cells.now).actions }
        requires arrivals { length arrivals.old ≡ (C.table self.now.cells.now).states }
        requires ends { length ends.old ≡ (C.table self.now.cells.now).states }
        requires belief { length belief.old ≡ (C.table self.now.cells.now).states }
        ensures { (covers : Covers) → AreCoversBy (C.table self.now.cells.now)
            (P.table self.now.points.now).points (P.table self.now.points.now).next covers →
            IsRoundedUp (point_excess (C.table self.now.cells.now)
            (charge_at (P.table self.now.points.now) self.now.charges.now)
            (P.table self.now.points.now).points covers i a) result }
    {
        let reward = point_reward(self, i, a, rewards);
        fill_arrivals(self, i, a, arrivals);
        let count = list_cells(arrivals, ends);
        clear_belief(belief);
        let after = following_worth(self, i, a, Row::Sparse(&ends[..count]), belief);
        let worth = point_value_at_scale(
            self.cells,
            mass_of(self.points, i),
            self.points.value(i, a),
        );
        excess(reward, after, self.cells.discount(), worth)
    }
}
