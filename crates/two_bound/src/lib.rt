// The bound call of two weights a kind: two capacities, of which each cut shares out both, and a word of the table for each pair of
// shares. Refusals 1 to 9, 27, 35, 24, 25, 19 and 20.
#![tactic(auto)]

ghost use Rattle.std.specs.Prelude.{◌≡◌, ◌≤◌};
ghost use Rattle.cutting.specs.Limits.{most_pairs};
ghost use Rattle.cutting.specs.Job.{InRange};
ghost use Rattle.cutting.specs.Sides.{rect_of};
ghost use Rattle.cutting.specs.Listed.{listed_weight, pieces_job};
ghost use Rattle.job.specs.Block.{job_of, with_full_demand};
ghost use Rattle.job.specs.Weights.{weight_in};
ghost use Rattle.table.specs.Two.{pair_count};
ghost use Rattle.table.specs.States.{figure_pair, pair_state};
ghost use Rattle.table.specs.Clauses.{size_job, TwoFillable, TwoBy};
ghost use Rattle.bound.specs.Bound.{lent};
ghost use Rattle.two_bound.specs.Two.{TwoPromises};
ghost use Rattle.two_bound.specs.Clauses.{weighed_two, Statable, Stated, Pairable, Paired};

use bound::fill_table;
use cutting::Sides;
use job::check_weights;
use pieces::{list_pieces, plate_of};
use promises::{Choices, JobRecord, Refusal, TwoReport};
use refusal::refuse_if;
use state_fill::fill_two;
use storage::{Layout, lay_out};
use table::TableSize;

// The capacities of both weights.
#[derive(Clone, Copy, Drop)]
struct Capacities {
    first: u16,
    second: u16,
}

// The capacities of two lists of weights, or refusal 8, 24, 9 or 25.
fn weigh_two(job: JobRecord, first: &[u8], second: &[u8]) -> Result<Capacities, Refusal>
    requires { InRange (job_of job) }
    ensures { result ≡ weighed_two (job_of job) first.now second.now }
{
    let count = job.count as usize;
    refuse_if(first.len() != count, Refusal::WeightCount)?;
    refuse_if(second.len() != count, Refusal::SecondCount)?;
    let q = check_weights(job, first)?;
    let s = check_weights(job, second)?;
    refuse_if(
        65536 < ((q as u32) + 1) * ((s as u32) + 1),
        Refusal::CapacityProduct,
    )?;
    Ok(Capacities {
        first: q,
        second: s,
    })
}

// The number of the state of a piece with two weights: one past all pairs where the second is above its capacity.
#[tactic(auto, unfolding(table::specs::States::own_state))]
fn state_of(first: u8, second: u8, q: u16, s: u16) -> u32
    requires { pair_count q s ≤ most_pairs }
    ensures { result ≡ pair_state q s (λ i. first) (λ i. second) 0 }
{
    let fast = (s as u32) + 1;
    if (second as u32) < fast {
        (first as u32) * fast + (second as u32)
    } else {
        ((q as u32) + 1) * fast
    }
}

// Each piece gets the number of its state for its weight.
fn put_states(pieces: &mut [u32; 640], count: u16, first: &[u8], second: &[u8], most: Capacities)
    requires { Statable pieces.old count first.now second.now most.first most.second }
    ensures { Stated count (weight_in first.now) (weight_in second.now) most.first most.second pieces.old pieces.new }
{
    for i in 0..count {
        let at = 5 * (i as usize);
        let kind = (pieces[at + 4] / 2) as usize;
        pieces[at + 3] = state_of(first[kind], second[kind], most.first, most.second);
    }
}

// The figures of pieces, into a table that is long enough. Where the second capacity is 0, the pairs are the shares of the first.
fn fill_pairs(
    size: TableSize,
    second: u16,
    pieces: &[u32; 640],
    normal_lengths: &[u16],
    normal_widths: &[u16],
    floors: &[u16],
    table: &mut [u64],
)
    requires { TwoFillable size second pieces.now normal_lengths.now normal_widths.now floors.now table.old }
    ensures { TwoBy (size_job size pieces.now) (figure_pair (size_job size pieces.now) size.capacity second (listed_weight pieces.now)) size.capacity second table.old table.new }
{
    if second == 0 {
        fill_table(size, pieces, normal_lengths, normal_widths, floors, table);
        return;
    }
    fill_two(
        size,
        second,
        pieces,
        normal_lengths,
        normal_widths,
        floors,
        table,
    );
}

// The bound of pieces on a plate at two capacities: refusals 19 and 20, then the lists, the floors of both sides, the table and the
// report.
fn two_of_pieces(
    plate: Sides,
    count: u16,
    pieces: &[u32; 640],
    most: Capacities,
    lengths: &mut [u16],
    widths: &mut [u16],
    floors: &mut [u16],
    table: &mut [u64],
) -> Result<TwoReport, Refusal>
    requires { Pairable (pieces_job (rect_of plate) count pieces.now) most.first most.second floors.old }
    ensures { Paired (pieces_job (rect_of plate) count pieces.now) (figure_pair (pieces_job (rect_of plate) count pieces.now) most.first most.second (listed_weight pieces.now)) most.first most.second
        (lent lengths.old widths.old table.old)
        (lent lengths.new widths.new table.new) result }
{
    let q = most.first;
    let s = most.second;
    let cell = ((q as u32) + 1) * ((s as u32) + 1);
    let room = table.len();
    let Layout { size, words } = lay_out(
        plate, count, pieces, q, cell, lengths, widths, floors, room,
    )?;
    fill_pairs(
        size,
        s,
        pieces,
        &lengths[..],
        &widths[..],
        &floors[..],
        table,
    );
    Ok(TwoReport {
        bound: table[words - 1],
        first_capacity: q,
        second_capacity: s,
        length_count: size.rows,
        columns: size.columns,
    })
}

// The bound of a job block and two weights a kind. An answered bound is exact: the most that a guillotine tree within both answered
// capacities earns, and no tree that keeps the demands earns more.
pub fn bound_two(
    block: &[u8],
    choices: Choices,
    first: &[u8],
    second: &[u8],
    lengths: &mut [u16],
    widths: &mut [u16],
    table: &mut [u64],
) -> Result<TwoReport, Refusal>
    ensures { TwoPromises block.now choices first.now second.now (lent lengths.old widths.old table.old)
        (lent lengths.new widths.new table.new) result }
{
    let job = job::read_job(block, choices)?;
    let most = weigh_two(job, first, second)?;
    let mut pieces = [0u32; 640];
    let count = list_pieces(job, first, &mut pieces);
    put_states(&mut pieces, count, first, second, most);
    let mut floors = [0u16; 2042];
    two_of_pieces(
        plate_of(job),
        count,
        &pieces,
        most,
        lengths,
        widths,
        &mut floors,
        table,
    )
}

// The same with the capacities of the full demands, whatever the choices say of them: demand times weight over all kinds.
pub fn bound_two_full_demand(
    block: &[u8],
    mut choices: Choices,
    first: &[u8],
    second: &[u8],
    lengths: &mut [u16],
    widths: &mut [u16],
    table: &mut [u64],
) -> Result<TwoReport, Refusal>
    ensures { TwoPromises block.now (with_full_demand choices) first.now second.now (lent lengths.old widths.old table.old)
        (lent lengths.new widths.new table.new) result }
{
    choices.full_demand = true;
    bound_two(block, choices, first, second, lengths, widths, table)
}
