// The certificate: a checked plan's profit against the bound. "Best" is a statement about every guillotine tree that keeps the demands
// (specs/Promises). The call hands on the first refusal met, 1 to 20, 26, 27, 35 or 36, and leaves lists and table as the bound call does.
#![tactic(auto)]

ghost use Rattle.std.specs.Prelude.{◌≡◌, ◌≤◌};
ghost use Rattle.job.specs.Block.{with_full_demand};
ghost use Rattle.bound.specs.Bound.{lent};
ghost use Rattle.certificate.specs.Certificate.{compared};
ghost use Rattle.certificate.specs.Promises.{CertifyPromises};

use promises::{Certificate, Choices, Refusal};

// The certificate of a profit and a bound: best where they are equal, otherwise the gap.
pub fn compare(profit: u64, bound: u64) -> Certificate
    requires { profit ≤ bound }
    ensures { result ≡ compared profit bound }
{
    if profit == bound {
        return Certificate::Best(profit);
    }
    Certificate::Gap(profit, bound - profit)
}

// Certifies a plan for a job block and weights: "best" exactly when the checked profit equals the bound, otherwise the gap. The job's,
// the weights' and the plan's answers are taken apart in the table's order, then the storage is checked; the first refusal met is handed on.
pub fn certify(
    block: &[u8],
    choices: Choices,
    weights: &[u8],
    kinds: &[u8],
    operands: &[u16],
    lengths: &mut [u16],
    widths: &mut [u16],
    table: &mut [u64],
) -> Result<Certificate, Refusal>
    ensures { CertifyPromises block.now choices weights.now kinds.now operands.now (lent lengths.old widths.old table.old)
        (lent lengths.new widths.new table.new) result }
{
    let read = job::read_job(block, choices);
    let Ok(job) = read else {
        return Err(read.unwrap_err());
    };
    let weighed = job::check_weights(job, weights);
    let Ok(capacity) = weighed else {
        return Err(weighed.unwrap_err());
    };
    let walked = plan::check_nodes(job, kinds, operands);
    let Ok(plan) = walked else {
        return Err(walked.unwrap_err());
    };
    let most = bound::bound_of_record(job, weights, capacity, lengths, widths, table)?;
    Ok(compare(plan.profit, most.bound))
}

// The same with the capacity of the full demands, whatever the choices say of it: for certificates that were filed with it.
pub fn certify_full_demand(
    block: &[u8],
    mut choices: Choices,
    weights: &[u8],
    kinds: &[u8],
    operands: &[u16],
    lengths: &mut [u16],
    widths: &mut [u16],
    table: &mut [u64],
) -> Result<Certificate, Refusal>
    ensures { CertifyPromises block.now (with_full_demand choices) weights.now kinds.now operands.now (lent lengths.old widths.old table.old)
        (lent lengths.new widths.new table.new) result }
{
    choices.full_demand = true;
    certify(
        block, choices, weights, kinds, operands, lengths, widths, table,
    )
}
