// The bound of a job block and weights, the certificate that holds a plan against it, and the plan behind it.
ghost use Rattle.promises.specs.Call.{lent};
ghost use Rattle.promises.specs.C.{words, BoundC, CertifyC, WriteC};

use crate::choices;

// The bound of a job block and weights. The answer has 4 words: bound, capacity, and the numbers of normal lengths and widths.
#[unsafe(no_mangle)]
pub extern "C" fn planner_bound(
    block: &[u8],
    choices: u32,
    weights: &[u8],
    lengths: &mut [u16],
    widths: &mut [u16],
    table: &mut [u64],
    answer: &mut [u64],
) -> u32
    ensures { BoundC (words choices answer.old answer.new result) block.now weights.now (lent lengths.old widths.old table.old) (lent lengths.new widths.new table.new) }
{
    let c = match choices::start(answer.len(), 4, choices) {
        Ok(c) => c,
        Err(stop) => return u32::from(stop),
    };
    let a = planner::bound(block, c, weights, lengths, widths, table);
    answer_words::put_answer(&a, answer)
}

// The certificate of a plan for a job block and weights. The answer has 3 words: the gap, which is 0 for a best plan, the bound and the
// profit.
#[unsafe(no_mangle)]
pub extern "C" fn planner_certify(
    block: &[u8],
    choices: u32,
    weights: &[u8],
    kinds: &[u8],
    operands: &[u16],
    lengths: &mut [u16],
    widths: &mut [u16],
    table: &mut [u64],
    answer: &mut [u64],
) -> u32
    ensures { CertifyC (words choices answer.old answer.new result) block.now weights.now (kinds.now, operands.now) (lent lengths.old widths.old table.old) (lent lengths.new widths.new table.new) }
{
    let c = match choices::start(answer.len(), 3, choices) {
        Ok(c) => c,
        Err(stop) => return u32::from(stop),
    };
    let a = planner::certify(block, c, weights, kinds, operands, lengths, widths, table);
    answer_words::put_answer(&a, answer)
}

// The plan behind the bound of a job block and weights, in the two plan arrays. The answer has 5 words: bound, capacity, the numbers of
// normal lengths and widths, and the node count.
#[unsafe(no_mangle)]
pub extern "C" fn planner_write_plan(
    block: &[u8],
    choices: u32,
    weights: &[u8],
    lengths: &mut [u16],
    widths: &mut [u16],
    table: &mut [u64],
    kinds: &mut [u8],
    operands: &mut [u16],
    answer: &mut [u64],
) -> u32
    ensures { WriteC (words choices answer.old answer.new result) block.now weights.now (lent lengths.old widths.old table.old, (kinds.old, operands.old)) (lent lengths.new widths.new table.new, (kinds.new, operands.new)) }
{
    let c = match choices::start(answer.len(), 5, choices) {
        Ok(c) => c,
        Err(stop) => return u32::from(stop),
    };
    let a = planner::write_plan(block, c, weights, lengths, widths, table, kinds, operands);
    answer_words::put_answer(&a, answer)
}
