// The check of a rack of plates over three slices of one length: plate lengths, plate widths and the profits, which a pass writes. Thin over
// `rack::check_plates`.
ghost use Rattle.promises.specs.C.{words, RackC};

use crate::choices;
use promises::Refusal;

// The plans of a rack of plates for a job block: lengths and widths of the plates, and their profits, which a pass writes. The answer has
// 1 word, for the place of a refusal.
#[unsafe(no_mangle)]
pub extern "C" fn planner_check_rack(
    block: &[u8],
    choices: u32,
    lengths: &[u16],
    widths: &[u16],
    profits: &mut [u64],
    kinds: &[u8],
    operands: &[u16],
    answer: &mut [u64],
) -> u32
    ensures { RackC (words choices answer.old answer.new result) block.now (record { lengths = lengths.entry.now; widths = widths.now; kinds = kinds.now; operands = operands.now }) profits.old profits.new }
{
    let c = match choices::start(answer.len(), 1, choices) {
        Ok(c) => c,
        Err(stop) => return u32::from(stop),
    };
    if profits.len() != lengths.len() {
        return answer_words::refuse(Refusal::RackSize, answer);
    }
    let a = planner::check_plates(block, c, lengths, widths, kinds, operands);
    answer_words::put_profits(&a, profits, answer)
}
