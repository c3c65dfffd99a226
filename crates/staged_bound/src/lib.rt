// The staged bound call: the bound within a limit on the stages of a plan, the greater of length first and width first at the limit.
// Refusals 1 to 9, 27, 35, 22, 19 and 20.
#![tactic(auto)]

ghost use Rattle.std.specs.Prelude.{◌≡◌, length};
ghost use Rattle.cutting.specs.Sides.{rect_of};
ghost use Rattle.cutting.specs.Listed.{listed_weight, pieces_job};
ghost use Rattle.table.specs.Clauses.{size_job, StagedFillable, StagedBy};
ghost use Rattle.job.specs.Block.{with_full_demand};
ghost use Rattle.bound.specs.Bound.{lent};
ghost use Rattle.staged_bound.specs.Staged.{StagedPromises};
ghost use Rattle.staged_bound.specs.Clauses.{Stageable, Staged};

use cutting::Sides;
use job::Acceptance;
use pieces::{list_pieces, plate_of};
use promises::{BoundReport, Choices, Refusal};
use refusal::refuse_if;
use stages::limit_outside;
use storage::{Layout, lay_out};
use table::TableSize;

// The figures of pieces in every block up to a limit, into a table that is long enough: the fill for one share or for many.
fn fill_table(
    size: TableSize,
    limit: usize,
    pieces: &[u32; 640],
    normal_lengths: &[u16],
    normal_widths: &[u16],
    floors: &[u16],
    table: &mut [u64],
)
    requires { StagedFillable size limit pieces.now normal_lengths.now normal_widths.now floors.now table.old }
    ensures { StagedBy (size_job size pieces.now) (listed_weight pieces.now) limit size.capacity table.old table.new }
{
    if size.capacity == 0 {
        stage_rows::fill(
            size,
            limit,
            pieces,
            normal_lengths,
            normal_widths,
            floors,
            table,
        );
    } else {
        stage_fill::fill(
            size,
            limit,
            pieces,
            normal_lengths,
            normal_widths,
            floors,
            table,
        );
    }
}

// The staged bound of pieces on a plate at a capacity and a limit: refusals 19 and 20, then the lists, the floors of both sides, the
// table and the report.
pub fn bound_of_pieces(
    plate: Sides,
    count: u16,
    pieces: &[u32; 640],
    q: u16,
    limit: usize,
    lengths: &mut [u16],
    widths: &mut [u16],
    floors: &mut [u16],
    table: &mut [u64],
) -> Result<BoundReport, Refusal>
    requires { Stageable (pieces_job (rect_of plate) count pieces.now) q limit × (length floors.old ≡ 2042) }
    ensures { Staged (pieces_job (rect_of plate) count pieces.now) (listed_weight pieces.now) limit q
        (lent lengths.old widths.old table.old)
        (lent lengths.new widths.new table.new) result }
{
    let cell = (2 * (limit as u32) + 1) * ((q as u32) + 1);
    let room = table.len();
    let Layout { size, words } = lay_out(
        plate, count, pieces, q, cell, lengths, widths, floors, room,
    )?;
    fill_table(
        size,
        limit,
        pieces,
        &lengths[..],
        &widths[..],
        &floors[..],
        table,
    );
    let last = words - 1;
    let before = last - storage::words(size.rows, size.columns, (q as u32) + 1) as usize;
    Ok(BoundReport {
        bound: table[before].max(table[last]),
        capacity: q,
        length_count: size.rows,
        columns: size.columns,
    })
}

// The staged bound of a job block, weights and a limit. An answered bound is exact: the most that a guillotine tree within the limit and
// the answered capacity earns, and no tree within the limit that keeps the demands earns more.
pub fn bound_staged(
    block: &[u8],
    choices: Choices,
    weights: &[u8],
    limit: u32,
    lengths: &mut [u16],
    widths: &mut [u16],
    table: &mut [u64],
) -> Result<BoundReport, Refusal>
    ensures { StagedPromises block.now choices weights.now limit (lent lengths.old widths.old table.old)
        (lent lengths.new widths.new table.new) result }
{
    let Acceptance { job, capacity } = job::accept(block, choices, weights)?;
    refuse_if(limit_outside(limit), Refusal::StageLimit)?;
    let mut pieces = [0u32; 640];
    let count = list_pieces(job, weights, &mut pieces);
    let mut floors = [0u16; 2042];
    bound_of_pieces(
        plate_of(job),
        count,
        &pieces,
        capacity,
        limit as usize,
        lengths,
        widths,
        &mut floors,
        table,
    )
}

// The same with the capacity of the full demands, whatever the choices say of it: demand times weight over all kinds.
pub fn bound_staged_full_demand(
    block: &[u8],
    mut choices: Choices,
    weights: &[u8],
    limit: u32,
    lengths: &mut [u16],
    widths: &mut [u16],
    table: &mut [u64],
) -> Result<BoundReport, Refusal>
    ensures { StagedPromises block.now (with_full_demand choices) weights.now limit (lent lengths.old widths.old table.old)
        (lent lengths.new widths.new table.new) result }
{
    choices.full_demand = true;
    bound_staged(block, choices, weights, limit, lengths, widths, table)
}
