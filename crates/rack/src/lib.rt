// A rack of plates for one order: plans stand one after another in the two arrays, each is checked on its own plate, and their copies add
// up against one demand. The job's own plate is not read.
#![tactic(auto)]

ghost use Rattle.std.specs.Prelude.{◌≡◌, [], ◌∷◌, ◌+◌, ◌≤◌, ◌<◌, length, take};
ghost use Rattle.cutting.specs.Limits.{most_kinds};
ghost use Rattle.refusal.specs.Refusals.{first_refusal};
ghost use Rattle.job.specs.Block.{job_of};
ghost use Rattle.plan.specs.Walk.{Walkable, Held};
ghost use Rattle.rack.specs.Check.{most_plates, plate_at, rack_size_check, plate_checks, rack_checks, own_answer, plans_answer};
ghost use Rattle.rack.specs.Promises.{PlatesPromises};
ghost use Rattle.rack.specs.Plates.{OneEach, TotalsAfter};
ghost use Rattle.rack.specs.Records.{lengths_of, widths_of, paid, RackPromises};

use idle::idle_cut;
use job::{check_block, read_record, sides_outside};
use plan::{TreeWalk, check_left, check_whole, walk_tree};
use promises::{Choices, JobRecord, Plate, Refusal};
use refusal::refuse_if;

// Refusal 28.
fn check_size(lengths: &[u16], widths: &[u16]) -> Result<(), Refusal>
    ensures { result ≡ first_refusal (rack_size_check lengths.now widths.now ∷ []) }
{
    let n = lengths.len();
    refuse_if(n != widths.len(), Refusal::RackSize)?;
    refuse_if(n < 1 || 16 < n, Refusal::RackSize)
}

// Refusal 2, of each plate in the rack's order.
fn check_sides(lengths: &[u16], widths: &[u16]) -> Result<(), Refusal>
    requires { OneEach lengths.now widths.now }
    ensures { result ≡ first_refusal (plate_checks (plate_at lengths.now widths.now) (length lengths.now)) }
{
    for i in 0..lengths.len() {
        let outside = sides_outside(lengths[i], widths[i]);
        refuse_if(outside, Refusal::RackSide(i as u16))?;
    }
    Ok(())
}

// What stands before any plan: refusals 28, 1, 3, 27, 4 to 7, 35, 2, 10 and 11.
fn check_before(
    block: &[u8],
    choices: Choices,
    lengths: &[u16],
    widths: &[u16],
    kinds: &[u8],
    operands: &[u16],
) -> Result<(), Refusal>
    ensures { result ≡ first_refusal (rack_checks block.now choices lengths.now widths.now kinds.now operands.now) }
{
    check_size(lengths, widths)?;
    check_block(block, choices, false, true)?;
    check_sides(lengths, widths)?;
    check_whole(kinds, operands)
}

// One plan from node `first` on, by its own checks: refusals 12 to 17 and 36, and 26 at its end. `waiting_lengths` and
// `waiting_widths` hold the rectangles that wait; what stood in them is not read.
fn check_own(
    job: JobRecord,
    kinds: &[u8],
    operands: &[u16],
    first: usize,
    waiting_lengths: &mut [u16; 4096],
    waiting_widths: &mut [u16; 4096],
) -> Result<TreeWalk, Refusal>
    requires { Walkable kinds.now operands.now × (job.count ≤ most_kinds) × (first ≤ length kinds.now) × Held waiting_lengths.old waiting_widths.old }
    ensures { (result ≡ own_answer (job_of job) kinds.now operands.now first) × Held waiting_lengths.new waiting_widths.new }
{
    let tree = walk_tree(job, kinds, operands, first, waiting_lengths, waiting_widths)?;
    idle_cut(&kinds[first..tree.past], first)?;
    Ok(tree)
}

// Refusal 29, of one plate; where it passes, its own copies are in the totals.
fn add_copies(
    totals: &mut [u16; 64],
    own: &[u16; 64],
    demands: &[u16; 64],
    count: u16,
    plate: u16,
) -> Result<(), Refusal>
    requires { count ≤ most_kinds }
    ensures { TotalsAfter count demands.now plate totals.old own.now totals.new result }
{
    for j in 0..count {
        let k = j as usize;
        let total = totals[k] as u32 + own[k] as u32;
        refuse_if((demands[k] as u32) < total, Refusal::RackDemand(plate))?;
        totals[k] = total as u16;
    }
    Ok(())
}

// The plans in the rack's order: refusals 12 to 17, 36, 26 and 29 of each, and 18 after the last.
fn check_plans(
    job: JobRecord,
    lengths: &[u16],
    widths: &[u16],
    kinds: &[u8],
    operands: &[u16],
) -> Result<[u64; 16], Refusal>
    requires { OneEach lengths.now widths.now × Walkable kinds.now operands.now × (job.count ≤ most_kinds) }
    ensures { result ≡ plans_answer (job_of job) (plate_at lengths.now widths.now) (length lengths.now) kinds.now operands.now }
{
    let mut totals = [0u16; 64];
    let mut profits = [0u64; 16];
    let mut waiting_lengths = [0u16; 4096];
    let mut waiting_widths = [0u16; 4096];
    let mut k: usize = 0;
    for i in 0..lengths.len() {
        let tree = check_own(
            JobRecord {
                length: lengths[i],
                width: widths[i],
                ..job
            },
            kinds,
            operands,
            k,
            &mut waiting_lengths,
            &mut waiting_widths,
        )?;
        add_copies(
            &mut totals,
            &tree.report.copies,
            &job.demands,
            job.count,
            i as u16,
        )?;
        profits[i] = tree.report.profit;
        k = tree.past;
    }
    check_left(kinds.len(), k)?;
    Ok(profits)
}

// A rack of plates, by the arrays of their sides, checked for a job block: refusals 28, 1, 3, 27, 4 to 7, 35, 2, 10 and 11; then plan after
// plan 12 to 17, 36, 26 and 29; then 18.
pub fn check_plates(
    block: &[u8],
    choices: Choices,
    lengths: &[u16],
    widths: &[u16],
    kinds: &[u8],
    operands: &[u16],
) -> Result<[u64; 16], Refusal>
    ensures { PlatesPromises block.now choices lengths.now widths.now kinds.now operands.now result }
{
    check_before(block, choices, lengths, widths, kinds, operands)?;
    check_plans(
        read_record(block, choices),
        lengths,
        widths,
        kinds,
        operands,
    )
}

// Reads the sides of a rack's plates into the first entries of two arrays.
fn read_sides(rack: &[Plate], lengths: &mut [u16; 16], widths: &mut [u16; 16])
    requires { length rack.now ≤ most_plates }
    ensures { (take (length rack.now) lengths.new ≡ lengths_of rack.now) × (take (length rack.now) widths.new ≡ widths_of rack.now) }
{
    for i in 0..rack.len() {
        lengths[i] = rack[i].length;
        widths[i] = rack[i].width;
    }
}

// Writes the profits into the records of their plates.
fn settle(rack: &mut [Plate], profits: [u64; 16])
    requires { length rack.old ≤ most_plates }
    ensures { rack.new ≡ paid rack.old profits (length rack.old) }
{
    for i in 0..rack.len() {
        rack[i].profit = profits[i];
    }
}

// A rack of plates checked for a job block as `check_plates` does; where it passes, the profit of each plan is in its plate's record, and else
// no record is changed.
pub fn check_rack(
    block: &[u8],
    choices: Choices,
    rack: &mut [Plate],
    kinds: &[u8],
    operands: &[u16],
) -> Result<(), Refusal>
    ensures { RackPromises block.now choices rack.old rack.new kinds.now operands.now result }
{
    let n = rack.len();
    refuse_if(16 < n, Refusal::RackSize)?;
    let mut lengths = [0u16; 16];
    let mut widths = [0u16; 16];
    read_sides(rack, &mut lengths, &mut widths);
    let profits = check_plates(block, choices, &lengths[..n], &widths[..n], kinds, operands)?;
    settle(rack, profits);
    Ok(())
}
