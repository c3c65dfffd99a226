// The bound of one plate by multipliers in place of demands, over the proved call.
ghost use Rattle.promises.specs.Call.{lent};
ghost use Rattle.promises.specs.C.{words, LagrangianC};

use crate::choices;

// The bound of a job block, weights and multipliers. The answer has 5 words: the Lagrangian bound, the lowered job's bound, capacity, and the
// numbers of normal lengths and widths.
#[unsafe(no_mangle)]
pub extern "C" fn planner_bound_lagrangian(
    block: &[u8],
    choices: u32,
    weights: &[u8],
    multipliers: &[u32],
    lengths: &mut [u16],
    widths: &mut [u16],
    table: &mut [u64],
    answer: &mut [u64],
) -> u32
    ensures { LagrangianC (words choices answer.old answer.new result) block.now weights.now multipliers.now (lent lengths.old widths.old table.old) (lent lengths.new widths.new table.new) }
{
    let c = match choices::start(answer.len(), 5, choices) {
        Ok(c) => c,
        Err(stop) => return u32::from(stop),
    };
    let a = planner::bound_lagrangian(block, c, weights, multipliers, lengths, widths, table);
    answer_words::put_answer(&a, answer)
}
