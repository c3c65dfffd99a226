// The true plan of a model's plan, over the proved call.
ghost use Rattle.promises.specs.C.{words, TruePlanC};

use crate::choices;

// The true plan of a plan's arrays for a job block, its model, and a sizes block, in the two output arrays. The answer has 3 words: the node
// count, the used length and the used width.
#[unsafe(no_mangle)]
pub extern "C" fn planner_true_plan(
    block: &[u8],
    choices: u32,
    sizes: &[u8],
    kinds: &[u8],
    operands: &[u16],
    true_kinds: &mut [u8],
    positions: &mut [u32],
    answer: &mut [u64],
) -> u32
    ensures { TruePlanC (words choices answer.old answer.new result) block.now sizes.now (kinds.now, operands.now) (true_kinds.old, positions.old) (true_kinds.new, positions.new) }
{
    let c = match choices::start(answer.len(), 3, choices) {
        Ok(c) => c,
        Err(stop) => return u32::from(stop),
    };
    let a = planner::true_plan(block, c, sizes, kinds, operands, true_kinds, positions);
    answer_words::put_answer(&a, answer)
}
