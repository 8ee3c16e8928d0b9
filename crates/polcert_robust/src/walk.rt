//! The walk over all pairs of a node and a state that ends at the first that fails: for the checks.
ghost use Rattle.std.specs.Prelude.{◌≡◌, IsFalse, IsTrue};
ghost use Rattle.polcert_check.specs.declared.survey.Verdict.TheVariants.{Yes};
ghost use Rattle.polcert_robust.specs.RobustVerdict.{IsRobustVerdict};
ghost use Rattle.polcert_robust.specs.Steps.Pairs.{near_controller, near_table};

use crate::buffers::PairBuffers;
use crate::known_rewards::{KnownRewards, MOST_LISTED, list_end_rewards};
use crate::pair::{Pair, robust_pair_verdict};
use crate::robust_input::RobustInput;
use polcert_cells::{Cells, RewardCell};
use polcert_check::{Progress, Verdict};

/// Returns whether the verdict is a no.
fn is_no(verdict: Verdict) -> bool
    ensures no { IsTrue result → verdict ≡ Yes → ⊥ }
    ensures yes { IsFalse result → verdict ≡ Yes }
{
    match verdict {
        Verdict::Yes => false,
        Verdict::Short { .. } | Verdict::NoSuccessor { .. } => true,
    }
}

/// Returns the verdict on the first pair that is not robust, by node and then by state, or yes. `progress` is notified of each node
/// before it.
pub(crate) fn first_robust_failure<C: Cells, W: Progress>(
    input: &RobustInput<'_, C>,
    buffers: &mut PairBuffers,
    progress: &mut W,
) -> Verdict
    ensures { IsRobustVerdict (near_table input.now) (near_controller input.now) result }
{
    progress.begin(input.graph.nodes());
    let mut known = KnownRewards::new();
    let mut listed = [RewardCell {
        observation: 0,
        reward: 0,
    }; MOST_LISTED];
    for n in 0..input.graph.nodes() {
        let a = input.graph.action(n);
        let have_rewards = known.have_same_rewards(input.cells, a);
        buffers.ends.reset(input.cells.states(), have_rewards);
        for s in 0..input.cells.states() {
            let constant = known.constant_reward(input.cells, a, s, have_rewards);
            let common = list_end_rewards(input.cells, a, s, have_rewards, constant, &mut listed);
            let pair = Pair {
                input: &*input,
                n,
                s,
                constant,
                common,
                listed: &listed,
            };
            let verdict = robust_pair_verdict(&pair, buffers);
            if is_no(verdict) {
                progress.end();
                return verdict;
            }
        }
        progress.node_done();
    }
    progress.end();
    Verdict::Yes
}
