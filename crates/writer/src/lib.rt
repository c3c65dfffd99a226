// The writing call: the plan behind the bound, written from a filled table in preorder into two lent arrays, where its nodes fit them.
#![tactic(auto)]

mod nodes;

ghost use Rattle.std.specs.Prelude.{◌≡◌, ◌||◌, ltb};
ghost use Rattle.cutting.specs.Limits.{most_nodes};
ghost use Rattle.cutting.specs.Job.{widened, plan_under};
ghost use Rattle.job.specs.Block.{with_full_demand, job_of};
ghost use Rattle.job.specs.Weights.{weight_in};
ghost use Rattle.promises.specs.Refusals.{passed};
ghost use Rattle.bound.specs.Bound.{lent, Leaves, bound_report};
ghost use Rattle.writer.specs.Clauses.{table_of, Readable, sawn_plan, Weighed, room_verdict, Planned};
ghost use Rattle.writer.specs.Write.{reported, nodes_verdict, WritePromises};

use bound::bound_of_pieces;
use cutting::Sides;
use job::Acceptance;
use nodes::list_nodes;
use pieces::{list_pieces, plate_of};
use promises::{BoundReport, Choices, JobRecord, Refusal, WriteReport};
use refusal::refuse_if;
use table::TableSize;

// Whether a plan needs above 4,095 nodes, or more than an array of m or of n entries holds.
fn too_long(nodes: u64, m: usize, n: usize) -> bool
    ensures { result ≡ (ltb most_nodes nodes || ltb m nodes) || ltb n nodes }
{
    4095 < nodes || (m as u64) < nodes || (n as u64) < nodes
}

// The bound's report with the number of the plan's nodes.
fn with_nodes(report: BoundReport, nodes: u64) -> WriteReport
    ensures { result ≡ reported report nodes }
{
    WriteReport {
        bound: report.bound,
        capacity: report.capacity,
        length_count: report.length_count,
        columns: report.columns,
        nodes,
    }
}

// What a plan is read from, beside lists and table: the table's size, the bound's report, the last digit of the states and the kerf that
// the plan loses at each cut.
#[derive(Clone, Copy, Drop)]
pub struct Sawing {
    pub size: TableSize,
    pub report: BoundReport,
    pub d: usize,
    pub kerf: u16,
}

// The plan of pieces whose lists, floors and table are filled, over the states of the digits up to d: refusal 21 with the nodes needed, or
// the plan in preorder.
pub fn plan_of_pieces(
    sawing: Sawing,
    pieces: &[u32; 640],
    normal_lengths: &[u16],
    normal_widths: &[u16],
    floors: &[u16],
    table: &[u64],
    blocks: &[u32],
    kinds: &mut [u8],
    operands: &mut [u16],
) -> Result<WriteReport, Refusal>
    requires { Readable sawing blocks.now pieces.now normal_lengths.now normal_widths.now floors.now table.now }
    ensures { Planned (nodes_verdict (sawn_plan sawing blocks.now pieces.now) kinds.old operands.old) sawing.report (sawn_plan sawing blocks.now pieces.now)
        kinds.old operands.old kinds.new operands.new result }
{
    let mut own_kinds = [0u8; 4095];
    let mut own_operands = [0u16; 4095];
    let count = list_nodes(
        &mut own_kinds[..],
        &mut own_operands[..],
        sawing,
        pieces,
        normal_lengths,
        normal_widths,
        floors,
        table,
        blocks,
    );
    let nodes = count as u64;
    refuse_if(
        too_long(nodes, kinds.len(), operands.len()),
        Refusal::PlanLong(nodes),
    )?;
    kinds[..count].copy_from_slice(&own_kinds[..count]);
    operands[..count].copy_from_slice(&own_operands[..count]);
    Ok(with_nodes(sawing.report, nodes))
}

// The size of the table that a report is of.
pub fn table_of(plate: Sides, count: u16, report: BoundReport) -> TableSize
    ensures { result ≡ table_of plate count report }
{
    TableSize {
        length: plate.length,
        width: plate.width,
        count,
        rows: report.length_count,
        columns: report.columns,
        capacity: report.capacity,
    }
}

// The plan of a job that was read and weights that were accepted: refusals 19 to 21, or lists, table and plan.
fn write_accepted(
    job: JobRecord,
    weights: &[u8],
    q: u16,
    normal_lengths: &mut [u16],
    normal_widths: &mut [u16],
    table: &mut [u64],
    kinds: &mut [u8],
    operands: &mut [u16],
) -> Result<WriteReport, Refusal>
    requires { Weighed (job_of job) weights.now q }
    ensures memory { Leaves passed (widened (job_of job)) (weight_in weights.now) q
        (lent normal_lengths.old normal_widths.old table.old) (lent normal_lengths.new normal_widths.new table.new) }
    ensures plan { Planned (room_verdict (widened (job_of job)) q (lent normal_lengths.old normal_widths.old table.old) (plan_under (job_of job) (weight_in weights.now) q) kinds.old operands.old)
        (bound_report (widened (job_of job)) (weight_in weights.now) q) (plan_under (job_of job) (weight_in weights.now) q) kinds.old operands.old kinds.new operands.new result }
{
    let plate = plate_of(job);
    let mut pieces = [0u32; 640];
    let count = list_pieces(job, weights, &mut pieces);
    let blocks = [(q as u32) + 1; 1];
    let mut floors = [0u16; 2042];
    let report = bound_of_pieces(
        plate,
        count,
        &pieces,
        q,
        normal_lengths,
        normal_widths,
        &mut floors,
        table,
    )?;
    let sawing = Sawing {
        size: table_of(plate, count, report),
        report,
        d: 0,
        kerf: job.kerf,
    };
    plan_of_pieces(
        sawing,
        &pieces,
        &normal_lengths[..],
        &normal_widths[..],
        &floors[..],
        &table[..],
        &blocks,
        kinds,
        operands,
    )
}

// The plan behind the bound of a job block and weights, in preorder in the two plan arrays. Lists and table are left as the bound call
// leaves them; where a check refuses, the plan arrays are untouched.
pub fn write_plan(
    block: &[u8],
    choices: Choices,
    weights: &[u8],
    lengths: &mut [u16],
    widths: &mut [u16],
    table: &mut [u64],
    kinds: &mut [u8],
    operands: &mut [u16],
) -> Result<WriteReport, Refusal>
    ensures { WritePromises block.now choices weights.now (lent lengths.old widths.old table.old)
        (lent lengths.new widths.new table.new) kinds.old operands.old kinds.new operands.new result }
{
    let Acceptance { job, capacity } = job::accept(block, choices, weights)?;
    write_accepted(
        job, weights, capacity, lengths, widths, table, kinds, operands,
    )
}

// The same with the capacity of the full demands, whatever the choices say of it.
pub fn write_plan_full_demand(
    block: &[u8],
    mut choices: Choices,
    weights: &[u8],
    lengths: &mut [u16],
    widths: &mut [u16],
    table: &mut [u64],
    kinds: &mut [u8],
    operands: &mut [u16],
) -> Result<WriteReport, Refusal>
    ensures { WritePromises block.now (with_full_demand choices) weights.now (lent lengths.old widths.old table.old)
        (lent lengths.new widths.new table.new) kinds.old operands.old kinds.new operands.new result }
{
    choices.full_demand = true;
    write_plan(
        block, choices, weights, lengths, widths, table, kinds, operands,
    )
}
