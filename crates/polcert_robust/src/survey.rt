//! The walk over all pairs that finds their greatest shortfall: for lowering and raising.
ghost use Rattle.std.specs.Prelude.{IfErr, IfOk};
ghost use Rattle.polcert_robust.specs.RobustLower.{IsNotMendedRobustly};
ghost use Rattle.polcert_robust.specs.Steps.Moves.{CanMoveBy};
ghost use Rattle.polcert_robust.specs.Steps.Pairs.{near_controller, near_table};
ghost use Rattle.polcert_robust.specs.Steps.Surveys.{IsSurveyedBefore};

use crate::buffers::PairBuffers;
use crate::findings::{RobustFindings, lack_of, with_finding};
use crate::known_rewards::{KnownRewards, MOST_LISTED, list_end_rewards};
use crate::pair::{Pair, robust_pair_verdict};
use crate::robust_input::RobustInput;
use polcert_cells::{Cells, RewardCell};
use polcert_check::{LowerFault, Progress, Verdict};

/// Returns what is found at all pairs, or the first that may lack an observation. `progress` is notified of each node before it.
pub(crate) fn survey_robust<C: Cells, W: Progress>(
    input: &RobustInput<'_, C>,
    buffers: &mut PairBuffers,
    progress: &mut W,
) -> Result<RobustFindings, LowerFault>
    ensures found { IfOk result
        (IsSurveyedBefore (near_table input.now) (near_controller input.now)
        (near_controller input.now).nodes 0) }
    ensures refused { IfErr result (IsNotMendedRobustly (near_table input.now) (near_controller input.now)
        (CanMoveBy input.now.side input.now.vectors.now)) }
{
    progress.begin(input.graph.nodes());
    let mut findings = RobustFindings {
        first: Verdict::Yes,
        worst: 0,
    };
    let mut known = KnownRewards::new();
    let mut listed = [RewardCell {
        observation: 0,
        reward: 0,
    }; MOST_LISTED];
    for n in 0..input.graph.nodes() {
        let a = input.graph.action(n);
        let have_rewards = known.have_same_rewards(input.cells, a);
        buffers.ends.reset(input.cells.states(), have_rewards);
        for s in 0..input.cells.states() {
            let constant = known.constant_reward(input.cells, a, s, have_rewards);
            let common = list_end_rewards(input.cells, a, s, have_rewards, constant, &mut listed);
            let pair = Pair {
                input: &*input,
                n,
                s,
                constant,
                common,
                listed: &listed,
            };
            let verdict = robust_pair_verdict(&pair, buffers);
            if let Some(fault) = lack_of(verdict) {
                progress.end();
                return Err(fault);
            }
            findings = with_finding(findings, verdict);
        }
        progress.node_done();
    }
    progress.end();
    Ok(findings)
}
