// The calls of the library. Each hands on to the crate that does its work and promises its instance of crate `promises`, in one line: specs/ there
// is all that a reader has to believe. proofs/ has the laws from what the inner crates promise to these instances.
#![tactic(auto)]

ghost use Rattle.std.proofs.Math.Option.{none, some};
ghost use Rattle.promises.specs.Plan.{kinds_of, operands_of};
ghost use Rattle.promises.specs.Systems.{one_weight, within_stages};
ghost use Rattle.promises.specs.Block.{with_full_demand, with_old_block, weight_in};
ghost use Rattle.promises.specs.Call.{lent};
ghost use Rattle.promises.specs.Calls.{ReadPromises, CheckPromises, BlockPromises, StagedCheckPromises, NeatPromises, BoundPromises, WritePromises, CertifyPromises, StagedPromises, TwoPromises, ExactPromises};
ghost use Rattle.promises.specs.Rounds.{FindPromises};
ghost use Rattle.promises.specs.Rack.{PlatesPromises};
ghost use Rattle.promises.specs.Saw.{SawReadPromises, SawPromises, HandsBack};
ghost use Rattle.promises.specs.True.{ModelPromises, TruePromises};
ghost use Rattle.promises.specs.Orders.{NeededPromises, LagrangianPromises};

use promises::{
    BoundReport, Certificate, Choices, ExactReport, JobRecord, LagrangianReport, PlatesReport,
    Refusal, Report, SawReport, StagedReport, TrueReport, TwoReport, WeightsFound, WriteReport,
};

// A job block, read or refused.
pub fn read_job(block: &[u8], choices: Choices) -> Result<JobRecord, Refusal>
    ensures { ReadPromises block.now choices result }
{
    job::read_job(block, choices)
}

// An old job block, whatever the choices say of it; its kerf is 0.
pub fn read_old_job(block: &[u8], choices: Choices) -> Result<JobRecord, Refusal>
    ensures { ReadPromises block.now (with_old_block choices) result }
{
    job::read_old_job(block, choices)
}

// A plan's arrays checked for a job block.
pub fn check_plan(
    block: &[u8],
    choices: Choices,
    kinds: &[u8],
    operands: &[u16],
) -> Result<Report, Refusal>
    ensures { CheckPromises block.now choices kinds.now operands.now result }
{
    plan::check_plan(block, choices, kinds, operands)
}

// A plan block checked for a job block.
pub fn check_plan_block(block: &[u8], choices: Choices, plan: &[u8]) -> Result<Report, Refusal>
    ensures { BlockPromises block.now choices plan.now result }
{
    plan::check_plan_block(block, choices, plan)
}

// A plan's arrays checked for a job block within a limit on stages.
pub fn check_plan_staged(
    block: &[u8],
    choices: Choices,
    limit: u32,
    kinds: &[u8],
    operands: &[u16],
) -> Result<StagedReport, Refusal>
    ensures { StagedCheckPromises block.now choices limit kinds.now operands.now result }
{
    staged_plan::check_plan_staged(block, choices, limit, kinds, operands)
}

// The neat plan of a plan's arrays, in the two output arrays.
pub fn neat_plan(
    block: &[u8],
    choices: Choices,
    kinds: &[u8],
    operands: &[u16],
    neat_kinds: &mut [u8],
    neat_operands: &mut [u16],
) -> Result<u64, Refusal>
    ensures { NeatPromises block.now choices kinds.now operands.now (neat_kinds.old, neat_operands.old) (neat_kinds.new, neat_operands.new) result }
{
    neat::neat_plan(block, choices, kinds, operands, neat_kinds, neat_operands)
}

// The bound of a job block and weights.
pub fn bound(
    block: &[u8],
    choices: Choices,
    weights: &[u8],
    lengths: &mut [u16],
    widths: &mut [u16],
    table: &mut [u64],
) -> Result<BoundReport, Refusal>
    ensures { BoundPromises block.now choices weights.now (lent lengths.old widths.old table.old) (lent lengths.new widths.new table.new) result }
{
    bound::bound(block, choices, weights, lengths, widths, table)
}

// The same with the capacity of the full demands, whatever the choices say of it.
pub fn bound_full_demand(
    block: &[u8],
    choices: Choices,
    weights: &[u8],
    lengths: &mut [u16],
    widths: &mut [u16],
    table: &mut [u64],
) -> Result<BoundReport, Refusal>
    ensures { BoundPromises block.now (with_full_demand choices) weights.now (lent lengths.old widths.old table.old) (lent lengths.new widths.new table.new) result }
{
    bound::bound_full_demand(block, choices, weights, lengths, widths, table)
}

// The bound within a limit on stages.
pub fn bound_staged(
    block: &[u8],
    choices: Choices,
    weights: &[u8],
    limit: u32,
    lengths: &mut [u16],
    widths: &mut [u16],
    table: &mut [u64],
) -> Result<BoundReport, Refusal>
    ensures { StagedPromises block.now choices weights.now limit (lent lengths.old widths.old table.old) (lent lengths.new widths.new table.new) result }
{
    staged_bound::bound_staged(block, choices, weights, limit, lengths, widths, table)
}

// The same with the capacity of the full demands, whatever the choices say of it.
pub fn bound_staged_full_demand(
    block: &[u8],
    choices: Choices,
    weights: &[u8],
    limit: u32,
    lengths: &mut [u16],
    widths: &mut [u16],
    table: &mut [u64],
) -> Result<BoundReport, Refusal>
    ensures { StagedPromises block.now (with_full_demand choices) weights.now limit (lent lengths.old widths.old table.old) (lent lengths.new widths.new table.new) result }
{
    staged_bound::bound_staged_full_demand(block, choices, weights, limit, lengths, widths, table)
}

// The bound of two weights a kind.
pub fn bound_two(
    block: &[u8],
    choices: Choices,
    first: &[u8],
    second: &[u8],
    lengths: &mut [u16],
    widths: &mut [u16],
    table: &mut [u64],
) -> Result<TwoReport, Refusal>
    ensures { TwoPromises block.now choices first.now second.now (lent lengths.old widths.old table.old) (lent lengths.new widths.new table.new) result }
{
    two_bound::bound_two(block, choices, first, second, lengths, widths, table)
}

// The same with the capacity of the full demands, whatever the choices say of it.
pub fn bound_two_full_demand(
    block: &[u8],
    choices: Choices,
    first: &[u8],
    second: &[u8],
    lengths: &mut [u16],
    widths: &mut [u16],
    table: &mut [u64],
) -> Result<TwoReport, Refusal>
    ensures { TwoPromises block.now (with_full_demand choices) first.now second.now (lent lengths.old widths.old table.old) (lent lengths.new widths.new table.new) result }
{
    two_bound::bound_two_full_demand(block, choices, first, second, lengths, widths, table)
}

// The bound by multipliers in place of demands.
pub fn bound_lagrangian(
    block: &[u8],
    choices: Choices,
    weights: &[u8],
    multipliers: &[u32],
    lengths: &mut [u16],
    widths: &mut [u16],
    table: &mut [u64],
) -> Result<LagrangianReport, Refusal>
    ensures { LagrangianPromises block.now choices weights.now multipliers.now (lent lengths.old widths.old table.old) (lent lengths.new widths.new table.new) result }
{
    multipliers::bound_lagrangian(block, choices, weights, multipliers, lengths, widths, table)
}

// The plates that a whole order needs, beside other plates that earn at most `other` in all.
pub fn plates_needed(
    block: &[u8],
    choices: Choices,
    weights: &[u8],
    other: u64,
    lengths: &mut [u16],
    widths: &mut [u16],
    table: &mut [u64],
) -> Result<PlatesReport, Refusal>
    ensures { NeededPromises block.now choices weights.now other (lent lengths.old widths.old table.old) (lent lengths.new widths.new table.new) result }
{
    plates_needed::plates_needed(block, choices, weights, other, lengths, widths, table)
}

// The plan behind the bound, in the two plan arrays.
pub fn write_plan(
    block: &[u8],
    choices: Choices,
    weights: &[u8],
    lengths: &mut [u16],
    widths: &mut [u16],
    table: &mut [u64],
    kinds: &mut [u8],
    operands: &mut [u16],
) -> Result<WriteReport, Refusal>
    ensures { WritePromises block.now choices weights.now (lent lengths.old widths.old table.old) (lent lengths.new widths.new table.new) (kinds.old, operands.old) (kinds.new, operands.new) result }
{
    writer::write_plan(
        block, choices, weights, lengths, widths, table, kinds, operands,
    )
}

// The same with the capacity of the full demands, whatever the choices say of it.
pub fn write_plan_full_demand(
    block: &[u8],
    choices: Choices,
    weights: &[u8],
    lengths: &mut [u16],
    widths: &mut [u16],
    table: &mut [u64],
    kinds: &mut [u8],
    operands: &mut [u16],
) -> Result<WriteReport, Refusal>
    ensures { WritePromises block.now (with_full_demand choices) weights.now (lent lengths.old widths.old table.old) (lent lengths.new widths.new table.new) (kinds.old, operands.old) (kinds.new, operands.new) result }
{
    writer::write_plan_full_demand(
        block, choices, weights, lengths, widths, table, kinds, operands,
    )
}

// The optimum of a short order and the plan that earns it, in the two plan arrays.
pub fn exact(
    block: &[u8],
    choices: Choices,
    lengths: &mut [u16],
    widths: &mut [u16],
    table: &mut [u64],
    kinds: &mut [u8],
    operands: &mut [u16],
) -> Result<ExactReport, Refusal>
    ensures { ExactPromises block.now choices (lent lengths.old widths.old table.old) (lent lengths.new widths.new table.new) (kinds.old, operands.old) (kinds.new, operands.new) result }
{
    exact::exact(block, choices, lengths, widths, table, kinds, operands)
}

// The certificate of a plan: best, or the gap.
pub fn certify(
    block: &[u8],
    choices: Choices,
    weights: &[u8],
    kinds: &[u8],
    operands: &[u16],
    lengths: &mut [u16],
    widths: &mut [u16],
    table: &mut [u64],
) -> Result<Certificate, Refusal>
    ensures { CertifyPromises none (one_weight (weight_in weights.now)) block.now choices weights.now (kinds.now, operands.now) (lent lengths.old widths.old table.old) (lent lengths.new widths.new table.new) result }
{
    certificate::certify(
        block, choices, weights, kinds, operands, lengths, widths, table,
    )
}

// The same with the capacity of the full demands, whatever the choices say of it.
pub fn certify_full_demand(
    block: &[u8],
    choices: Choices,
    weights: &[u8],
    kinds: &[u8],
    operands: &[u16],
    lengths: &mut [u16],
    widths: &mut [u16],
    table: &mut [u64],
) -> Result<Certificate, Refusal>
    ensures { CertifyPromises none (one_weight (weight_in weights.now)) block.now (with_full_demand choices) weights.now (kinds.now, operands.now) (lent lengths.old widths.old table.old) (lent lengths.new widths.new table.new) result }
{
    certificate::certify_full_demand(
        block, choices, weights, kinds, operands, lengths, widths, table,
    )
}

// The certificate of a plan within a limit on stages.
pub fn certify_staged(
    block: &[u8],
    choices: Choices,
    weights: &[u8],
    limit: u32,
    kinds: &[u8],
    operands: &[u16],
    lengths: &mut [u16],
    widths: &mut [u16],
    table: &mut [u64],
) -> Result<Certificate, Refusal>
    ensures { CertifyPromises (some limit) (within_stages (weight_in weights.now) limit) block.now choices weights.now (kinds.now, operands.now) (lent lengths.old widths.old table.old) (lent lengths.new widths.new table.new) result }
{
    staged_certificate::certify_staged(
        block, choices, weights, limit, kinds, operands, lengths, widths, table,
    )
}

// The same with the capacity of the full demands, whatever the choices say of it.
pub fn certify_staged_full_demand(
    block: &[u8],
    choices: Choices,
    weights: &[u8],
    limit: u32,
    kinds: &[u8],
    operands: &[u16],
    lengths: &mut [u16],
    widths: &mut [u16],
    table: &mut [u64],
) -> Result<Certificate, Refusal>
    ensures { CertifyPromises (some limit) (within_stages (weight_in weights.now) limit) block.now (with_full_demand choices) weights.now (kinds.now, operands.now) (lent lengths.old widths.old table.old) (lent lengths.new widths.new table.new) result }
{
    staged_certificate::certify_staged_full_demand(
        block, choices, weights, limit, kinds, operands, lengths, widths, table,
    )
}

// Weights found in rounds, with the profit of a lent plan as the lower figure.
pub fn find_weights(
    block: &[u8],
    choices: Choices,
    kinds: &[u8],
    operands: &[u16],
    lengths: &mut [u16],
    widths: &mut [u16],
    table: &mut [u64],
    written_kinds: &mut [u8],
    written_operands: &mut [u16],
) -> Result<WeightsFound, Refusal>
    ensures { FindPromises block.now choices (kinds.now, operands.now) (lent lengths.old widths.old table.old, (written_kinds.old, written_operands.old)) (lent lengths.new widths.new table.new, (written_kinds.new, written_operands.new)) result }
{
    rounds::find_weights(
        block,
        choices,
        kinds,
        operands,
        lengths,
        widths,
        table,
        written_kinds,
        written_operands,
    )
}

// The same with the capacity of the full demands, whatever the choices say of it.
pub fn find_weights_full_demand(
    block: &[u8],
    choices: Choices,
    kinds: &[u8],
    operands: &[u16],
    lengths: &mut [u16],
    widths: &mut [u16],
    table: &mut [u64],
    written_kinds: &mut [u8],
    written_operands: &mut [u16],
) -> Result<WeightsFound, Refusal>
    ensures { FindPromises block.now (with_full_demand choices) (kinds.now, operands.now) (lent lengths.old widths.old table.old, (written_kinds.old, written_operands.old)) (lent lengths.new widths.new table.new, (written_kinds.new, written_operands.new)) result }
{
    rounds::find_weights_full_demand(
        block,
        choices,
        kinds,
        operands,
        lengths,
        widths,
        table,
        written_kinds,
        written_operands,
    )
}

// A rack of plates, by the arrays of their sides, checked for a job block.
pub fn check_plates(
    block: &[u8],
    choices: Choices,
    lengths: &[u16],
    widths: &[u16],
    kinds: &[u8],
    operands: &[u16],
) -> Result<[u64; 16], Refusal>
    ensures { PlatesPromises block.now choices (record { lengths = lengths.entry.now; widths = widths.now; kinds = kinds.now; operands = operands.now }) result }
{
    rack::check_plates(block, choices, lengths, widths, kinds, operands)
}

// A job block as the saw reads it: no price is read.
pub fn read_saw_job(block: &[u8], choices: Choices) -> Result<JobRecord, Refusal>
    ensures { SawReadPromises block.now choices result }
{
    saw::read_saw_job(block, choices)
}

// A plan's arrays checked by the saw, which learns no price.
pub fn saw_check(
    block: &[u8],
    choices: Choices,
    kinds: &[u8],
    operands: &[u16],
) -> Result<SawReport, Refusal>
    ensures { SawPromises block.now choices (kinds.now, operands.now) result }
{
    saw::saw_check(block, choices, kinds, operands)
}

// The part of the kinds that belongs to a node and all below it.
pub fn node_kinds<'a, 'b, 'c>(
    block: &'b [u8],
    choices: Choices,
    kinds: &'a [u8],
    operands: &'c [u16],
    node: usize,
) -> &'a [u8]
    ensures { HandsBack 1 kinds_of block.now choices (kinds.now, operands.now) node kinds.entry result }
{
    saw::node_kinds(block, choices, kinds, operands, node)
}

// The part of the operands that belongs to it.
pub fn node_operands<'a, 'b, 'c>(
    block: &'b [u8],
    choices: Choices,
    kinds: &'c [u8],
    operands: &'a [u16],
    node: usize,
) -> &'a [u16]
    ensures { HandsBack 2 operands_of block.now choices (kinds.now, operands.now) node operands.entry result }
{
    saw::node_operands(block, choices, kinds, operands, node)
}

// Whether a job block is a model of a sizes block.
pub fn check_model(block: &[u8], choices: Choices, sizes: &[u8]) -> Result<(), Refusal>
    ensures { ModelPromises block.now choices sizes.now result }
{
    model::check_model(block, choices, sizes)
}

// The true plan of a model's plan, in the two output arrays.
pub fn true_plan(
    block: &[u8],
    choices: Choices,
    sizes: &[u8],
    kinds: &[u8],
    operands: &[u16],
    true_kinds: &mut [u8],
    positions: &mut [u32],
) -> Result<TrueReport, Refusal>
    ensures { TruePromises block.now choices sizes.now (kinds.now, operands.now) (true_kinds.old, positions.old) (true_kinds.new, positions.new) result }
{
    true_plan::true_plan(
        block, choices, sizes, kinds, operands, true_kinds, positions,
    )
}
