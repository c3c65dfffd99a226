// Whole orders: the plates that an order needs, over the proved call.
ghost use Rattle.promises.specs.Call.{lent};
ghost use Rattle.promises.specs.C.{words, NeededC};

use crate::choices;

// The plates that the whole order of a job block needs, beside other plates that earn at most `other`. The answer has 3 words: plates needed,
// bound, and the order's worth.
#[unsafe(no_mangle)]
pub extern "C" fn planner_plates_needed(
    block: &[u8],
    choices: u32,
    weights: &[u8],
    other: u64,
    lengths: &mut [u16],
    widths: &mut [u16],
    table: &mut [u64],
    answer: &mut [u64],
) -> u32
    ensures { NeededC (words choices answer.old answer.new result) block.now weights.now other (lent lengths.old widths.old table.old) (lent lengths.new widths.new table.new) }
{
    let c = match choices::start(answer.len(), 3, choices) {
        Ok(c) => c,
        Err(stop) => return u32::from(stop),
    };
    let a = planner::plates_needed(block, c, weights, other, lengths, widths, table);
    answer_words::put_answer(&a, answer)
}
