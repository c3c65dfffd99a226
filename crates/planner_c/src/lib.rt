// The C interface: exported functions, thin over the proved calls. Each returns 0 and puts the call's values at the front of the
// answer words, or returns the refusal's number and puts its place in the first word. Where the answer has fewer words than the
// function states it returns 100, where the word of choices has a bit that is no choice 101, and changes nothing. Here are the checks of
// a plan and the neat plan.
#![tactic(auto)]

mod bounds;
mod choices;
mod found;
mod lagrangian;
mod models;
mod racks;
mod sawing;
mod short;
mod staged;
mod true_plans;
mod two;
mod whole_orders;

ghost use Rattle.promises.specs.C.{words, BlockC, CheckC, NeatC};

// The check of a plan's arrays for a job block. The answer has 69 words: profit, the areas of pieces, waste nodes and trim, the copies of
// 64 kinds, and the area of the sawdust.
#[unsafe(no_mangle)]
pub extern "C" fn planner_check_plan(
    block: &[u8],
    choices: u32,
    kinds: &[u8],
    operands: &[u16],
    answer: &mut [u64],
) -> u32
    ensures { CheckC (words choices answer.old answer.new result) block.now kinds.now operands.now }
{
    let c = match choices::start(answer.len(), 69, choices) {
        Ok(c) => c,
        Err(stop) => return u32::from(stop),
    };
    let a = planner::check_plan(block, c, kinds, operands);
    answer_words::put_answer(&a, answer)
}

// The same for a plan block.
#[unsafe(no_mangle)]
pub extern "C" fn planner_check_plan_block(
    block: &[u8],
    choices: u32,
    plan: &[u8],
    answer: &mut [u64],
) -> u32
    ensures { BlockC (words choices answer.old answer.new result) block.now plan.now }
{
    let c = match choices::start(answer.len(), 69, choices) {
        Ok(c) => c,
        Err(stop) => return u32::from(stop),
    };
    let a = planner::check_plan_block(block, c, plan);
    answer_words::put_answer(&a, answer)
}

// The neat plan of a plan's arrays for a job block, in the two output arrays. The answer has 1 word: the node count.
#[unsafe(no_mangle)]
pub extern "C" fn planner_neat_plan(
    block: &[u8],
    choices: u32,
    kinds: &[u8],
    operands: &[u16],
    neat_kinds: &mut [u8],
    neat_operands: &mut [u16],
    answer: &mut [u64],
) -> u32
    ensures { NeatC (words choices answer.old answer.new result) block.now kinds.now operands.now (neat_kinds.old, neat_operands.old) (neat_kinds.new, neat_operands.new) }
{
    let c = match choices::start(answer.len(), 1, choices) {
        Ok(c) => c,
        Err(stop) => return u32::from(stop),
    };
    let a = planner::neat_plan(block, c, kinds, operands, neat_kinds, neat_operands);
    answer_words::put_answer(&a, answer)
}
