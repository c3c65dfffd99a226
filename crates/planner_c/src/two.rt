// The bound of two weights a kind: the bound, both capacities and the numbers of normal positions. Thin over `two_bound::bound_two`.
ghost use Rattle.promises.specs.Call.{lent};
ghost use Rattle.promises.specs.C.{words, TwoC};

use crate::choices;

// The bound of a job block and two weights a kind. The answer has 5 words: bound, both capacities, and the numbers of normal lengths and
// widths.
#[unsafe(no_mangle)]
pub extern "C" fn planner_bound_two(
    block: &[u8],
    choices: u32,
    first: &[u8],
    second: &[u8],
    lengths: &mut [u16],
    widths: &mut [u16],
    table: &mut [u64],
    answer: &mut [u64],
) -> u32
    ensures { TwoC (words choices answer.old answer.new result) block.now first.now second.now (lent lengths.old widths.old table.old) (lent lengths.new widths.new table.new) }
{
    let c = match choices::start(answer.len(), 5, choices) {
        Ok(c) => c,
        Err(stop) => return u32::from(stop),
    };
    let a = planner::bound_two(block, c, first, second, lengths, widths, table);
    answer_words::put_answer(&a, answer)
}
