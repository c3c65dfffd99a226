// The check that a job is a model of true sizes, over the proved call.
ghost use Rattle.promises.specs.C.{words, ModelC};

use crate::choices;

// Whether a job block is a model of a sizes block. The answer has 1 word, for the place of a refusal.
#[unsafe(no_mangle)]
pub extern "C" fn planner_check_model(
    block: &[u8],
    choices: u32,
    sizes: &[u8],
    answer: &mut [u64],
) -> u32
    ensures { ModelC (words choices answer.old answer.new result) block.now sizes.now }
{
    let c = match choices::start(answer.len(), 1, choices) {
        Ok(c) => c,
        Err(stop) => return u32::from(stop),
    };
    let a = planner::check_model(block, c, sizes);
    answer_words::put_answer(&a, answer)
}
