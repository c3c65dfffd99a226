// How many plates a whole order needs: the bound of one plate, what the order is worth at the job's prices, and the least number of plates
// whose bounds come to that, beside what other plates earn. The numbers and the memory of the bound call.
#![tactic(auto)]

ghost use Rattle.std.specs.Prelude.{◌≡◌, length};
ghost use Rattle.cutting.specs.Limits.{most_kinds};
ghost use Rattle.job.specs.Block.{job_of};
ghost use Rattle.job.specs.Weights.{weight_in};
ghost use Rattle.bound.specs.Bound.{lent};
ghost use Rattle.plates_needed.specs.Plates.{NeededPromises};
ghost use Rattle.plates_needed.specs.Clauses.{Countable, Counted};

use bound::bound_of_record;
use job::Acceptance;
use promises::{Choices, JobRecord, PlatesReport, Refusal};

// The plates that the order of a record in range needs: refusals 19 and 20, then the lists, the table and the report.
fn plates_of_record(
    job: JobRecord,
    weights: &[u8],
    other: u64,
    q: u16,
    lengths: &mut [u16],
    widths: &mut [u16],
    table: &mut [u64],
) -> Result<PlatesReport, Refusal>
    requires { Countable (job_of job) q weights.now × (length job.prices ≡ most_kinds) }
    ensures { Counted (job_of job) (weight_in weights.now) other q
        (lent lengths.old widths.old table.old)
        (lent lengths.new widths.new table.new) result }
{
    let b = bound_of_record(job, weights, q, lengths, widths, table)?;
    let worth = orders::worth(job.count, &job.demands, &job.prices);
    Ok(PlatesReport {
        plates: orders::plates(b.bound, worth, other),
        bound: b.bound,
        worth,
    })
}

// The plates that the whole order of a job block needs beside other plates that earn at most `other` in all. No fewer hold it.
pub fn plates_needed(
    block: &[u8],
    choices: Choices,
    weights: &[u8],
    other: u64,
    lengths: &mut [u16],
    widths: &mut [u16],
    table: &mut [u64],
) -> Result<PlatesReport, Refusal>
    ensures { NeededPromises block.now choices weights.now other
        (lent lengths.old widths.old table.old)
        (lent lengths.new widths.new table.new) result }
{
    let Acceptance { job, capacity } = job::accept(block, choices, weights)?;
    plates_of_record(job, weights, other, capacity, lengths, widths, table)
}
