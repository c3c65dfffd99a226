// The bound call: a job block and weights are accepted or refused, the normal positions of both sides go into the lent lists, the
// figures into the lent table, and the table's last word is the bound. Refusals 1 to 9, 27, 35, 19 and 20.
#![tactic(auto)]

ghost use Rattle.cutting.specs.Sides.{rect_of};
ghost use Rattle.cutting.specs.Job.{widened};
ghost use Rattle.cutting.specs.Listed.{listed_weight, pieces_job};
ghost use Rattle.job.specs.Block.{with_full_demand, job_of};
ghost use Rattle.job.specs.Weights.{weight_in};
ghost use Rattle.bound.specs.Bound.{lent, BoundPromises};
ghost use Rattle.table.specs.Clauses.{size_job, Fillable, FilledBy};
ghost use Rattle.bound.specs.Clauses.{Boundable, Bounded, RecordBoundable, RecordBounded};

use cutting::Sides;
use job::Acceptance;
use pieces::{list_pieces, plate_of};
use promises::{BoundReport, Choices, JobRecord, Refusal};
use storage::{Layout, lay_out};
use table::TableSize;

// The figures of pieces, into a table that is long enough: the fill for one share or for many.
pub fn fill_table(
    size: TableSize,
    pieces: &[u32; 640],
    normal_lengths: &[u16],
    normal_widths: &[u16],
    floors: &[u16],
    table: &mut [u64],
)
    requires { Fillable size pieces.now normal_lengths.now normal_widths.now floors.now table.old }
    ensures { FilledBy (size_job size pieces.now) (listed_weight pieces.now) size.capacity table.old table.new }
{
    if size.capacity == 0 {
        row_fill::fill(size, pieces, normal_lengths, normal_widths, floors, table);
    } else {
        state_fill::fill_weighed(size, pieces, normal_lengths, normal_widths, floors, table);
    }
}

// The bound of pieces on a plate at a capacity: refusals 19 and 20, then the lists, the floors of both sides, the table and the report. The
// 2,042 entries for the floors are lent, so that a caller who goes on to write the plan has them.
pub fn bound_of_pieces(
    plate: Sides,
    count: u16,
    pieces: &[u32; 640],
    q: u16,
    lengths: &mut [u16],
    widths: &mut [u16],
    floors: &mut [u16],
    table: &mut [u64],
) -> Result<BoundReport, Refusal>
    requires { Boundable (pieces_job (rect_of plate) count pieces.now) q floors.old }
    ensures { Bounded (pieces_job (rect_of plate) count pieces.now) (listed_weight pieces.now) q
        (lent lengths.old widths.old table.old)
        (lent lengths.new widths.new table.new) floors.new result }
{
    let cell = (q as u32) + 1;
    let room = table.len();
    let Layout { size, words } = lay_out(
        plate, count, pieces, q, cell, lengths, widths, floors, room,
    )?;
    fill_table(size, pieces, &lengths[..], &widths[..], &floors[..], table);
    Ok(BoundReport {
        bound: table[words - 1],
        capacity: q,
        length_count: size.rows,
        columns: size.columns,
    })
}

// The bound of a job record in range and of its weights at a capacity: refusals 19 and 20, then the lists, the table and the report.
pub fn bound_of_record(
    job: JobRecord,
    weights: &[u8],
    q: u16,
    lengths: &mut [u16],
    widths: &mut [u16],
    table: &mut [u64],
) -> Result<BoundReport, Refusal>
    requires { RecordBoundable (job_of job) q weights.now }
    ensures { RecordBounded (widened (job_of job)) (weight_in weights.now) q
        (lent lengths.old widths.old table.old)
        (lent lengths.new widths.new table.new) result }
{
    let mut pieces = [0u32; 640];
    let count = list_pieces(job, weights, &mut pieces);
    let mut floors = [0u16; 2042];
    bound_of_pieces(
        plate_of(job),
        count,
        &pieces,
        q,
        lengths,
        widths,
        &mut floors,
        table,
    )
}

// The bound of a job block and weights. An answered bound is exact: the most that a guillotine tree within the answered capacity earns,
// and no tree that keeps the demands earns more.
pub fn bound(
    block: &[u8],
    choices: Choices,
    weights: &[u8],
    lengths: &mut [u16],
    widths: &mut [u16],
    table: &mut [u64],
) -> Result<BoundReport, Refusal>
    ensures { BoundPromises block.now choices weights.now (lent lengths.old widths.old table.old)
        (lent lengths.new widths.new table.new) result }
{
    let Acceptance { job, capacity } = job::accept(block, choices, weights)?;
    bound_of_record(job, weights, capacity, lengths, widths, table)
}

// The same with the capacity of the full demands, whatever the choices say of it: demand times weight over all kinds.
pub fn bound_full_demand(
    block: &[u8],
    mut choices: Choices,
    weights: &[u8],
    lengths: &mut [u16],
    widths: &mut [u16],
    table: &mut [u64],
) -> Result<BoundReport, Refusal>
    ensures { BoundPromises block.now (with_full_demand choices) weights.now (lent lengths.old widths.old table.old)
        (lent lengths.new widths.new table.new) result }
{
    choices.full_demand = true;
    bound(block, choices, weights, lengths, widths, table)
}
