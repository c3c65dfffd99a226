// The bound printer: splits the input into an old job block and weights, and prints the bound and the plan behind it, or the refusal.
// What decides is proved here or in the crates below: where the job ends, the plan with its profit, whether it is best.
#![tactic(auto)]

ghost use Rattle.std.specs.Prelude.{◌≡◌, ◌≤◌, length, IfOk};
ghost use Rattle.job.specs.Weights.{block_job};
ghost use Rattle.plan.specs.Calls.{JobPasses};
ghost use Rattle.bound.specs.Bound.{lent};
ghost use Rattle.printer.specs.Printer.{job_end, DemandsKept, JudgesPlan};

use job::{read_job, read_u16};
use plan::check_plan;
use promises::{Choices, Refusal, WriteReport};
use std::io;
use std::io::Read;
use writer::write_plan;

// Where the job, an old block, ends in the input.
pub fn job_end(input: &[u8]) -> usize
    ensures { (result ≡ job_end input.now) × (result ≤ length input.now) }
{
    let all = input.len();
    if all < 6 {
        return all;
    }
    let end = 6 + 10 * (read_u16(input, 4) as usize);
    if all < end {
        return all;
    }
    end
}

// Whether two arrays are a plan of the job that keeps every demand.
pub fn keeps_demands(block: &[u8], choices: Choices, kinds: &[u8], operands: &[u16]) -> bool
    ensures { DemandsKept (JobPasses block.now choices) (block_job block.now choices) kinds.now operands.now result }
{
    check_plan(block, choices, kinds, operands).is_ok()
}

// What is said of a written plan: the writing call's report, the plan's profit, and whether it is best, which is whether it keeps every
// demand.
#[derive(Clone, Copy, Drop)]
pub struct Judged {
    pub report: WriteReport,
    pub profit: u64,
    pub best: bool,
}

// The plan of a job block and weights, written into the two arrays, and what is said of it; or the refusal.
pub fn judge_plan(
    block: &[u8],
    choices: Choices,
    weights: &[u8],
    lengths: &mut [u16],
    widths: &mut [u16],
    table: &mut [u64],
    kinds: &mut [u8],
    operands: &mut [u16],
) -> Result<Judged, Refusal>
    ensures { JudgesPlan block.now choices weights.now (lent lengths.old widths.old table.old)
        kinds.old operands.old kinds.new operands.new result }
{
    let report = write_plan(
        block, choices, weights, lengths, widths, table, kinds, operands,
    )?;
    let nodes = report.nodes as usize;
    let best = keeps_demands(block, choices, &kinds[..nodes], &operands[..nodes]);
    Ok(Judged {
        report,
        profit: report.bound,
        best,
    })
}

// A word of a line.
fn print_word(rt: &impl Print, word: &[u8]) -> io::Result<()> {
    rt.write_all(word)
}

// A number in decimal.
fn print_number(rt: &impl Print, n: u64) -> io::Result<()> {
    rt.print(n)
}

// A number of 16 bits.
fn print_small(rt: &impl Print, n: u16) -> io::Result<()> {
    print_number(rt, n as u64)
}

// A number of 8 bits.
fn print_byte(rt: &impl Print, n: u8) -> io::Result<()> {
    print_number(rt, n as u64)
}

// The line of a refusal.
fn print_refusal(rt: &impl Print, r: Refusal) -> io::Result<()> {
    print_word(rt, b"refused ")?;
    print_small(rt, refusal::number(r))?;
    print_word(rt, b" place ")?;
    print_number(rt, refusal::place(r))?;
    print_word(rt, b"\n")
}

// The line of the plate's sides and the number of kinds.
fn print_plate(rt: &impl Print, block: &[u8], choices: Choices) -> io::Result<()> {
    let Ok(job) = read_job(block, choices) else {
        return Ok(());
    };
    print_word(rt, b"plate ")?;
    print_small(rt, job.length)?;
    print_word(rt, b" ")?;
    print_small(rt, job.width)?;
    print_word(rt, b" pieces ")?;
    print_small(rt, job.count)?;
    print_word(rt, b"\n")
}

// A weight after a space.
fn print_weight(rt: &impl Print, weight: u8) -> io::Result<()> {
    print_word(rt, b" ")?;
    print_byte(rt, weight)
}

// The weights, one after another.
fn print_each(rt: &impl Print, weights: &[u8]) -> io::Result<()> {
    for weight in weights {
        print_weight(rt, *weight)?;
    }
    Ok(())
}

// The line of the weights and the capacity.
fn print_weights(rt: &impl Print, weights: &[u8], capacity: u16) -> io::Result<()> {
    print_word(rt, b"weights")?;
    print_each(rt, weights)?;
    print_word(rt, b" capacity ")?;
    print_small(rt, capacity)?;
    print_word(rt, b"\n")
}

// The line of the bound.
fn print_bound(rt: &impl Print, bound: u64) -> io::Result<()> {
    print_word(rt, b"bound ")?;
    print_number(rt, bound)?;
    print_word(rt, b"\n")
}

// The line of a node: kind, operand.
fn print_node(rt: &impl Print, kind: u8, operand: u16) -> io::Result<()> {
    print_byte(rt, kind)?;
    print_word(rt, b" ")?;
    print_small(rt, operand)?;
    print_word(rt, b"\n")
}

// One line a node.
fn print_nodes(rt: &impl Print, kinds: &[u8], operands: &[u16]) -> io::Result<()>
    requires { length kinds.now ≡ length operands.now }
{
    for (kind, operand) in kinds.iter().zip(operands) {
        print_node(rt, *kind, *operand)?;
    }
    Ok(())
}

// The line of the plan's profit and of its standing.
fn print_profit(rt: &impl Print, profit: u64, best: bool) -> io::Result<()> {
    print_word(rt, b"profit ")?;
    print_number(rt, profit)?;
    if best {
        print_word(rt, b" best\n")
    } else {
        print_word(rt, b" relaxed\n")
    }
}

// The lines of a written plan.
fn print_report(
    rt: &impl Print,
    block: &[u8],
    choices: Choices,
    weights: &[u8],
    judged: Judged,
    kinds: &[u8],
    operands: &[u16],
) -> io::Result<()>
    requires { length kinds.now ≡ length operands.now }
{
    print_plate(rt, block, choices)?;
    print_weights(rt, weights, judged.report.capacity)?;
    print_bound(rt, judged.report.bound)?;
    print_nodes(rt, kinds, operands)?;
    print_profit(rt, judged.profit, judged.best)
}

// The bound and the plan of a job block and weights, or the refusal.
fn print_answer(rt: &impl Print, block: &[u8], choices: Choices, weights: &[u8]) -> io::Result<()> {
    let mut lengths = [0u16; 1001];
    let mut widths = [0u16; 1001];
    let mut table = [0u64; 8192];
    let mut kinds = [0u8; 4095];
    let mut operands = [0u16; 4095];
    let answer = judge_plan(
        block,
        choices,
        weights,
        &mut lengths,
        &mut widths,
        &mut table,
        &mut kinds,
        &mut operands,
    );
    match answer {
        Err(r) => print_refusal(rt, r),
        Ok(judged) => {
            let nodes = judged.report.nodes as usize;
            print_report(
                rt,
                block,
                choices,
                weights,
                judged,
                &kinds[..nodes],
                &operands[..nodes],
            )
        }
    }
}

// The bound and the plan of an input: an old job block, then its weights. No piece is turned.
pub fn print_plan(rt: &impl Print, input: &[u8]) -> io::Result<()> {
    let end = job_end(input);
    let choices = Choices {
        turning: false,
        full_demand: false,
        old_block: true,
        grain: false,
    };
    print_answer(rt, &input[..end], choices, &input[end..])
}

// Fills the bytes from a reader, until they are full or the input ends, and answers how many there are.
fn read_full(input: &mut impl Read, bytes: &mut [u8; 711]) -> io::Result<usize>
    ensures { IfOk result (λ n. n ≤ 711) }
{
    let mut n: usize = 0;
    while n < 711 {
        let got = input.read(&mut bytes[n..])?;
        if got == 0 {
            return Ok(n);
        }
        n += got;
    }
    Ok(n)
}

// The same of what a reader gives: at most 711 bytes, until these are full or the input ends.
pub fn print_input(rt: &impl Print, input: &mut impl Read) -> io::Result<()> {
    let mut buffer = [0u8; 711];
    let n = read_full(input, &mut buffer)?;
    print_plan(rt, &buffer[..n])
}
