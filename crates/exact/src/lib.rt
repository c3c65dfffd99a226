// The exact call for short orders: the optimum over the remaining copies of every kind, and the plan that earns it. A state is a number in
// mixed radix, a digit a kind, kind 0 lowest. Refusals 1 to 7, 27, 35, 30 and 19 to 21.
#![tactic(auto)]

ghost use Rattle.std.specs.Prelude.{◌≡◌, ◌+◌, ◌-◌, ◌<◌, length};
ghost use Rattle.cutting.specs.Job.{InRange, widened};
ghost use Rattle.cutting.specs.Sides.{rect_of};
ghost use Rattle.cutting.specs.Exact.{exact_figure};
ghost use Rattle.cutting.specs.Listed.{listed_weight, pieces_job};
ghost use Rattle.promises.specs.Refusals.{passed};
ghost use Rattle.job.specs.Block.{job_of};
ghost use Rattle.table.specs.States.{figure_at};
ghost use Rattle.states.specs.States.{under};
ghost use Rattle.bound.specs.Bound.{lent};
ghost use Rattle.exact.specs.Exact.{ExactLeaves, ExactPromises};
ghost use Rattle.exact.specs.Clauses.{StatesCounted, stride, Statable, Stated, Countable, Filled, Short, exact_of, job_report, job_plan, room_verdict, Drawn};

use cutting::Sides;
use pieces::{list_pieces, plate_of};
use promises::{BoundReport, Choices, ExactReport, JobRecord, Refusal, WriteReport};
use refusal::refuse_if;
use state_fill::fill_states;
use storage::{Layout, lay_out};
use writer::{Sawing, plan_of_pieces, table_of};

// The last state of an order, one below the product of the demands, each plus 1: refusal 30 where the product is above 4,096. Lists for each
// kind the number of states of the kinds up to it.
fn count_states(job: JobRecord, blocks: &mut [u32; 64]) -> Result<u16, Refusal>
    requires { InRange (job_of job) × (length blocks.old ≡ 64) }
    ensures { StatesCounted (job_of job) blocks.new result }
{
    let mut product: u32 = 1;
    for k in 0..job.count as usize {
        product *= job.demands[k] as u32 + 1;
        refuse_if(4096 < product, Refusal::DemandProduct)?;
        blocks[k] = product;
    }
    Ok((product - 1) as u16)
}

// The state of one copy of a kind: the number of states of the kinds below it.
fn one_copy(blocks: &[u32], kind: usize) -> u32
    requires { kind < length blocks.now }
    ensures { result ≡ stride blocks.now kind }
{
    if kind == 0 {
        return 1;
    }
    blocks[kind - 1]
}

// Each piece gets the state of one copy of its kind for its weight.
fn put_states(pieces: &mut [u32; 640], count: u16, blocks: &[u32])
    requires { Statable pieces.old count blocks.now }
    ensures { Stated count (stride blocks.now) pieces.old pieces.new }
{
    for i in 0..count as usize {
        let at = 5 * i;
        let kind = (pieces[at + 4] / 2) as usize;
        pieces[at + 3] = one_copy(blocks, kind);
    }
}

// The last state of an order and its last digit.
#[derive(Clone, Copy, Drop)]
struct Last {
    state: u16,
    digit: usize,
}

// The figures of pieces on a plate over the states up to the last: refusals 19 and 20, then the lists, the floors of both sides, the table
// and the report.
fn states_of_pieces(
    plate: Sides,
    count: u16,
    pieces: &[u32; 640],
    last: Last,
    blocks: &[u32],
    lengths: &mut [u16],
    widths: &mut [u16],
    floors: &mut [u16],
    table: &mut [u64],
) -> Result<BoundReport, Refusal>
    requires { Countable (pieces_job (rect_of plate) count pieces.now) blocks.now last.digit last.state floors.old }
    ensures { Filled (pieces_job (rect_of plate) count pieces.now) (figure_at (pieces_job (rect_of plate) count pieces.now) (under blocks.now last.digit) (listed_weight pieces.now)) last.state
        (lent lengths.old widths.old table.old)
        (lent lengths.new widths.new table.new) floors.new result }
{
    let q = last.state;
    let cell = (q as u32) + 1;
    let room = table.len();
    let Layout { size, words } = lay_out(
        plate, count, pieces, q, cell, lengths, widths, floors, room,
    )?;
    fill_states(
        size,
        last.digit,
        cell as usize,
        blocks,
        pieces,
        &lengths[..],
        &widths[..],
        &floors[..],
        table,
    );
    Ok(BoundReport {
        bound: table[words - 1],
        capacity: q,
        length_count: size.rows,
        columns: size.columns,
    })
}

// What the writing of the plan reports, as this call says it.
fn exact_of(written: WriteReport) -> ExactReport
    ensures { result ≡ exact_of written }
{
    ExactReport {
        optimum: written.bound,
        states: written.capacity as u32 + 1,
        length_count: written.length_count,
        columns: written.columns,
        nodes: written.nodes,
    }
}

// The optimum and the plan of a short order that was read, q its last state: refusals 19 to 21, or lists, table and plan.
fn exact_accepted(
    job: JobRecord,
    q: u16,
    blocks: &[u32; 64],
    normal_lengths: &mut [u16],
    normal_widths: &mut [u16],
    table: &mut [u64],
    kinds: &mut [u8],
    operands: &mut [u16],
) -> Result<ExactReport, Refusal>
    requires { Short (job_of job) blocks.now q }
    ensures memory { ExactLeaves passed (widened (job_of job)) (exact_figure (widened (job_of job))) q
        (lent normal_lengths.old normal_widths.old table.old) (lent normal_lengths.new normal_widths.new table.new) }
    ensures plan { Drawn (room_verdict (job_of job) q (lent normal_lengths.old normal_widths.old table.old) kinds.old operands.old)
        (job_report (job_of job) q) (job_plan (job_of job) q) kinds.old operands.old kinds.new operands.new result }
{
    let plate = plate_of(job);
    let weights = [0u8; 64];
    let mut pieces = [0u32; 640];
    let count = list_pieces(job, &weights, &mut pieces);
    put_states(&mut pieces, count, &blocks[..]);
    let d = job.count as usize - 1;
    let mut floors = [0u16; 2042];
    let report = states_of_pieces(
        plate,
        count,
        &pieces,
        Last { state: q, digit: d },
        &blocks[..],
        normal_lengths,
        normal_widths,
        &mut floors,
        table,
    )?;
    let sawing = Sawing {
        size: table_of(plate, count, report),
        report,
        d,
        kerf: job.kerf,
    };
    let written = plan_of_pieces(
        sawing,
        &pieces,
        &normal_lengths[..],
        &normal_widths[..],
        &floors[..],
        &table[..],
        &blocks[..],
        kinds,
        operands,
    )?;
    Ok(exact_of(written))
}

// The optimum of a job block and the plan that earns it, in preorder in the two plan arrays. No guillotine tree on the plate that keeps
// every demand earns more. Where a check refuses, the plan arrays are untouched.
pub fn exact(
    block: &[u8],
    choices: Choices,
    lengths: &mut [u16],
    widths: &mut [u16],
    table: &mut [u64],
    kinds: &mut [u8],
    operands: &mut [u16],
) -> Result<ExactReport, Refusal>
    ensures { ExactPromises block.now choices (lent lengths.old widths.old table.old)
        (lent lengths.new widths.new table.new) kinds.old operands.old kinds.new operands.new result }
{
    let job = job::read_job(block, choices)?;
    let mut blocks = [0u32; 64];
    let last = count_states(job, &mut blocks)?;
    exact_accepted(job, last, &blocks, lengths, widths, table, kinds, operands)
}
