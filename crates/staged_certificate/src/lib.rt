// The staged certificate: a checked plan's profit against the staged bound. "Best" is a statement about every guillotine tree within the
// limit that keeps the demands (specs/Certificate). The call hands on the first refusal met, 1 to 20, 22, 23, 26, 27, 35 or 36, and leaves
// lists and table as the staged bound call does.
#![tactic(auto)]

ghost use Rattle.job.specs.Block.{with_full_demand};
ghost use Rattle.bound.specs.Bound.{lent};
ghost use Rattle.staged_certificate.specs.Certificate.{CertifyStagedPromises};

use certificate::compare;
use job::Acceptance;
use pieces::{list_pieces, plate_of};
use promises::{Certificate, Choices, Refusal};
use refusal::refuse_if;
use staged_plan::check_within;
use stages::limit_outside;

// Certifies a plan for a job block, weights and a limit: "best" exactly when the checked profit equals the staged bound, otherwise the
// gap.
pub fn certify_staged(
    block: &[u8],
    choices: Choices,
    weights: &[u8],
    limit: u32,
    kinds: &[u8],
    operands: &[u16],
    lengths: &mut [u16],
    widths: &mut [u16],
    table: &mut [u64],
) -> Result<Certificate, Refusal>
    ensures { CertifyStagedPromises block.now choices weights.now limit kinds.now operands.now (lent lengths.old widths.old table.old)
        (lent lengths.new widths.new table.new) result }
{
    let Acceptance { job, capacity } = job::accept(block, choices, weights)?;
    refuse_if(limit_outside(limit), Refusal::StageLimit)?;
    let plan = check_within(job, limit as u8, kinds, operands)?;
    let mut pieces = [0u32; 640];
    let count = list_pieces(job, weights, &mut pieces);
    let mut floors = [0u16; 2042];
    let most = staged_bound::bound_of_pieces(
        plate_of(job),
        count,
        &pieces,
        capacity,
        limit as usize,
        lengths,
        widths,
        &mut floors,
        table,
    )?;
    Ok(compare(plan.report.profit, most.bound))
}

// The same with the capacity of the full demands, whatever the choices say of it: demand times weight over all kinds.
pub fn certify_staged_full_demand(
    block: &[u8],
    mut choices: Choices,
    weights: &[u8],
    limit: u32,
    kinds: &[u8],
    operands: &[u16],
    lengths: &mut [u16],
    widths: &mut [u16],
    table: &mut [u64],
) -> Result<Certificate, Refusal>
    ensures { CertifyStagedPromises block.now (with_full_demand choices) weights.now limit kinds.now operands.now (lent lengths.old widths.old table.old)
        (lent lengths.new widths.new table.new) result }
{
    choices.full_demand = true;
    certify_staged(
        block, choices, weights, limit, kinds, operands, lengths, widths, table,
    )
}
