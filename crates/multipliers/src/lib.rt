// A bound of one plate by multipliers in place of demands: each price is lowered by its multiplier, and the lowered job's bound with demand
// times multiplier beside it bounds what a tree that keeps the demands earns. Refusals 1 to 9, 27, 35, 37, 38, 19 and 20.
#![tactic(auto)]

ghost use Rattle.std.specs.Prelude.{◌≡◌, [], ◌∷◌, ◌-◌, ◌≤◌, ◌<◌, length};
ghost use Rattle.cutting.specs.Limits.{most_kinds};
ghost use Rattle.refusal.specs.Refusals.{first_refusal};
ghost use Rattle.job.specs.Block.{each_kind, job_of};
ghost use Rattle.job.specs.Weights.{weight_in};
ghost use Rattle.bound.specs.Bound.{lent};
ghost use Rattle.multipliers.specs.Multipliers as by;
ghost use Rattle.multipliers.specs.Multipliers.{multiplier_in, multiplier_check, multiplier_checks, LagrangianPromises};
ghost use Rattle.multipliers.specs.Clauses.{PricesLowered, Multipliable, Multiplied};

use bound::bound_of_record;
use job::Acceptance;
use orders::worth;
use promises::{Choices, JobRecord, LagrangianReport, Refusal};
use refusal::refuse_if;

// Refusals 37 and 38.
fn check_multipliers(multipliers: &[u32], n: u16) -> Result<(), Refusal>
    ensures { result ≡ first_refusal (multiplier_checks n multipliers.now) }
{
    refuse_if(multipliers.len() != n as usize, Refusal::MultiplierCount)?;
    for (i, multiplier) in multipliers.iter().enumerate() {
        refuse_if(1000000 < *multiplier, Refusal::Multiplier(i as u16))?;
    }
    Ok(())
}

// Lowers the prices: each less its multiplier, 0 where that is more.
fn lower_prices(prices: &mut [u32; 64], multipliers: &[u32])
    requires { (length prices.old ≡ most_kinds) × (length multipliers.now ≤ most_kinds) }
    ensures { PricesLowered multipliers.now prices.old prices.new }
{
    for (i, multiplier) in multipliers.iter().enumerate() {
        prices[i] = prices[i].saturating_sub(*multiplier);
    }
}

// The record of the lowered job.
fn lowered(job: JobRecord, multipliers: &[u32]) -> JobRecord
    requires { (length job.prices ≡ most_kinds) × (length multipliers.now ≤ most_kinds) }
    ensures { job_of result ≡ by.lowered (multiplier_in multipliers.now) (job_of job) }
{
    let mut prices = job.prices;
    lower_prices(&mut prices, multipliers);
    JobRecord { prices, ..job }
}

// The bound of a record in range and of its weights and multipliers: refusals 19 and 20, then the lists, the table and the report.
fn lagrangian_of_record(
    job: JobRecord,
    weights: &[u8],
    multipliers: &[u32],
    q: u16,
    lengths: &mut [u16],
    widths: &mut [u16],
    table: &mut [u64],
) -> Result<LagrangianReport, Refusal>
    requires { Multipliable (job_of job) q weights.now multipliers.now × (length job.prices ≡ most_kinds) }
    ensures { Multiplied (job_of job) (multiplier_in multipliers.now) (weight_in weights.now) q
        (lent lengths.old widths.old table.old)
        (lent lengths.new widths.new table.new) result }
{
    let low = lowered(job, multipliers);
    let b = bound_of_record(low, weights, q, lengths, widths, table)?;
    let more = worth(job.count, &job.demands, multipliers);
    Ok(LagrangianReport {
        lagrangian: b.bound + more,
        lowered: b,
    })
}

// The bound of a job block, weights and multipliers. No tree that keeps the demands earns more than the Lagrangian bound.
pub fn bound_lagrangian(
    block: &[u8],
    choices: Choices,
    weights: &[u8],
    multipliers: &[u32],
    lengths: &mut [u16],
    widths: &mut [u16],
    table: &mut [u64],
) -> Result<LagrangianReport, Refusal>
    ensures { LagrangianPromises block.now choices weights.now multipliers.now
        (lent lengths.old widths.old table.old)
        (lent lengths.new widths.new table.new) result }
{
    let Acceptance { job, capacity } = job::accept(block, choices, weights)?;
    check_multipliers(multipliers, job.count)?;
    lagrangian_of_record(job, weights, multipliers, capacity, lengths, widths, table)
}
