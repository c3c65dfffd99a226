// The call that finds weights for a job: the least bound met, the rounds run and 64 weights, and each round's plan in the two written
// arrays. Thin over `rounds::find_weights`.
ghost use Rattle.promises.specs.Call.{lent};
ghost use Rattle.promises.specs.C.{words, FindC};

use crate::choices;

// Weights found for a job block, with the profit of a lent plan as the lower figure; each round's plan stands in the two written arrays.
// The answer has 66 words: the least bound met, the rounds run, and the weights of 64 kinds that first gave the bound.
#[unsafe(no_mangle)]
pub extern "C" fn planner_find_weights(
    block: &[u8],
    choices: u32,
    kinds: &[u8],
    operands: &[u16],
    lengths: &mut [u16],
    widths: &mut [u16],
    table: &mut [u64],
    written_kinds: &mut [u8],
    written_operands: &mut [u16],
    answer: &mut [u64],
) -> u32
    ensures { FindC (words choices answer.old answer.new result) block.now (kinds.now, operands.now) (lent lengths.old widths.old table.old, (written_kinds.old, written_operands.old)) (lent lengths.new widths.new table.new, (written_kinds.new, written_operands.new)) }
{
    let c = match choices::start(answer.len(), 66, choices) {
        Ok(c) => c,
        Err(stop) => return u32::from(stop),
    };
    let a = planner::find_weights(
        block,
        c,
        kinds,
        operands,
        lengths,
        widths,
        table,
        written_kinds,
        written_operands,
    );
    answer_words::put_answer(&a, answer)
}
