// The exact answer for short orders: optimum, states, the numbers of normal positions and the node count, and the plan in the two arrays.
// Thin over `exact::exact`.
ghost use Rattle.promises.specs.Call.{lent};
ghost use Rattle.promises.specs.C.{words, ExactC};

use crate::choices;

// The optimum of a job block and the plan that earns it, in the two plan arrays. The answer has 5 words: optimum, number of states, the
// numbers of normal lengths and widths, and the node count.
#[unsafe(no_mangle)]
pub extern "C" fn planner_exact(
    block: &[u8],
    choices: u32,
    lengths: &mut [u16],
    widths: &mut [u16],
    table: &mut [u64],
    kinds: &mut [u8],
    operands: &mut [u16],
    answer: &mut [u64],
) -> u32
    ensures { ExactC (words choices answer.old answer.new result) block.now (lent lengths.old widths.old table.old, (kinds.old, operands.old)) (lent lengths.new widths.new table.new, (kinds.new, operands.new)) }
{
    let c = match choices::start(answer.len(), 5, choices) {
        Ok(c) => c,
        Err(stop) => return u32::from(stop),
    };
    let a = planner::exact(block, c, lengths, widths, table, kinds, operands);
    answer_words::put_answer(&a, answer)
}
