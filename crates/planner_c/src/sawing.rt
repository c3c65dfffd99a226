// The saw's calls: the check of a plan, whose prices it does not read, and the part of a plan's arrays that belongs to a node, by one
// function for both arrays.
ghost use Rattle.std.specs.Prelude.{◌≡◌, List, [], ℕ, length};
ghost use Rattle.promises.specs.declared.Part.{Part};
ghost use Rattle.promises.specs.Refusals.{verdict_of};
ghost use Rattle.promises.specs.Saw.{part_outcome};
ghost use Rattle.promises.specs.C.{words, InC, SawC, SawKindsC, SawOperandsC};
ghost use Rattle.saw.specs.Saw.{saw_answer};
ghost use Rattle.saw.specs.Parts.{part_by};

use crate::choices;

// The saw's check of a plan's arrays for a job block, whose prices it does not read. The answer has 68 words: the areas of pieces, waste
// nodes and trim, the copies of 64 kinds, and the area of the sawdust.
#[unsafe(no_mangle)]
pub extern "C" fn planner_saw_check(
    block: &[u8],
    choices: u32,
    kinds: &[u8],
    operands: &[u16],
    answer: &mut [u64],
) -> u32
    ensures { SawC (words choices answer.old answer.new result) block.now (kinds.now, operands.now) }
{
    let c = match choices::start(answer.len(), 68, choices) {
        Ok(c) => c,
        Err(stop) => return u32::from(stop),
    };
    let a = planner::saw_check(block, c, kinds, operands);
    answer_words::put_answer(&a, answer)
}

// The part of a node in an array of so many entries, as both functions below answer it.
fn put_node_part(
    block: &[u8],
    choices: u32,
    kinds: &[u8],
    operands: &[u16],
    count: usize,
    node: u64,
    answer: &mut [u64],
) -> u32
    requires { length kinds.now ≡ length operands.now → count ≡ length kinds.now }
    ensures { InC {A = Part} {L = List ℕ} 2 part_outcome (words choices answer.old answer.new result) [] []
        (λ c p. p ≡ part_by (verdict_of (saw_answer block.now c kinds.now operands.now)) kinds.now count node) }
{
    let c = match choices::start(answer.len(), 2, choices) {
        Ok(c) => c,
        Err(stop) => return u32::from(stop),
    };
    let part = saw::node_part(block, c, kinds, operands, count, node as usize);
    answer_words::put_answer(&Ok(part), answer)
}

// The part of the kinds that belongs to a node of a plan that the saw passes and all below it; empty, at the array's end, where the plan
// does not pass or the node is past it. The answer has 2 words: the part's first entry and the number of its entries.
#[unsafe(no_mangle)]
pub extern "C" fn planner_saw_kinds(
    block: &[u8],
    choices: u32,
    kinds: &[u8],
    operands: &[u16],
    node: u64,
    answer: &mut [u64],
) -> u32
    ensures { SawKindsC (words choices answer.old answer.new result) block.now (kinds.now, operands.now) node }
{
    put_node_part(block, choices, kinds, operands, kinds.len(), node, answer)
}

// The part of the operands that belongs to it.
#[unsafe(no_mangle)]
pub extern "C" fn planner_saw_operands(
    block: &[u8],
    choices: u32,
    kinds: &[u8],
    operands: &[u16],
    node: u64,
    answer: &mut [u64],
) -> u32
    ensures { SawOperandsC (words choices answer.old answer.new result) block.now (kinds.now, operands.now) node }
{
    put_node_part(
        block,
        choices,
        kinds,
        operands,
        operands.len(),
        node,
        answer,
    )
}
