// The calls within a limit on the stages of a plan: check, bound and certificate. Thin over `staged_plan`, `staged_bound` and
// `staged_certificate`.
ghost use Rattle.promises.specs.Call.{lent};
ghost use Rattle.promises.specs.C.{words, StagedC, StagedCertifyC, StagedCheckC};

use crate::choices;

// The check of a plan's arrays for a job block within a limit. The answer has 70 words: the plan check's, then the plan's stages.
#[unsafe(no_mangle)]
pub extern "C" fn planner_check_plan_staged(
    block: &[u8],
    choices: u32,
    limit: u32,
    kinds: &[u8],
    operands: &[u16],
    answer: &mut [u64],
) -> u32
    ensures { StagedCheckC (words choices answer.old answer.new result) block.now limit kinds.now operands.now }
{
    let c = match choices::start(answer.len(), 70, choices) {
        Ok(c) => c,
        Err(stop) => return u32::from(stop),
    };
    let a = planner::check_plan_staged(block, c, limit, kinds, operands);
    answer_words::put_answer(&a, answer)
}

// The staged bound of a job block, weights and a limit. The answer has 4 words: bound, capacity, and the numbers of normal lengths and
// widths.
#[unsafe(no_mangle)]
pub extern "C" fn planner_bound_staged(
    block: &[u8],
    choices: u32,
    weights: &[u8],
    limit: u32,
    lengths: &mut [u16],
    widths: &mut [u16],
    table: &mut [u64],
    answer: &mut [u64],
) -> u32
    ensures { StagedC (words choices answer.old answer.new result) block.now weights.now limit (lent lengths.old widths.old table.old) (lent lengths.new widths.new table.new) }
{
    let c = match choices::start(answer.len(), 4, choices) {
        Ok(c) => c,
        Err(stop) => return u32::from(stop),
    };
    let a = planner::bound_staged(block, c, weights, limit, lengths, widths, table);
    answer_words::put_answer(&a, answer)
}

// The certificate of a plan for a job block, weights and a limit. The answer has 3 words: the gap, which is 0 for a plan that is best among
// those within the limit, the bound and the profit.
#[unsafe(no_mangle)]
pub extern "C" fn planner_certify_staged(
    block: &[u8],
    choices: u32,
    weights: &[u8],
    limit: u32,
    kinds: &[u8],
    operands: &[u16],
    lengths: &mut [u16],
    widths: &mut [u16],
    table: &mut [u64],
    answer: &mut [u64],
) -> u32
    ensures { StagedCertifyC (words choices answer.old answer.new result) block.now weights.now limit (kinds.now, operands.now) (lent lengths.old widths.old table.old) (lent lengths.new widths.new table.new) }
{
    let c = match choices::start(answer.len(), 3, choices) {
        Ok(c) => c,
        Err(stop) => return u32::from(stop),
    };
    let a = planner::certify_staged(
        block, c, weights, limit, kinds, operands, lengths, widths, table,
    );
    answer_words::put_answer(&a, answer)
}
