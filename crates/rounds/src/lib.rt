// The weight rounds: weights found for a job from all weights 0, in at most 18 rounds, each a writing call (specs/Rounds). The steps
// between the rounds are those of crate `weight_steps`.
#![tactic(auto)]

mod copies;

ghost use Rattle.std.specs.Prelude.{◌≡◌, ◌||◌, ℕ, ◌+◌, ◌≤◌, ◌<◌, ltb, eqb};
ghost use Rattle.cutting.specs.Job.{bound_of};
ghost use Rattle.refusal.specs.Refusals.{passed, first_refusal};
ghost use Rattle.job.specs.Block.{with_full_demand, job_checks, record_of, job_of, entries};
ghost use Rattle.job.specs.Weights.{block_job, weight_in};
ghost use Rattle.rounds.specs.Rounds.{lent_all, next_weight, run_answer, RunLeaves, FindPromises};
ghost use Rattle.rounds.specs.Clauses.{Made, stops_with, following, better};

use promises::{Choices, JobRecord, Refusal, WeightsFound};
use weight_steps::next_weights;

// The best answer with round k: the first round's own, and a later one's where its bound is less.
fn count_round(found: WeightsFound, k: u16, bound: u64, weights: [u8; 64]) -> WeightsFound
    requires { k < 18 }
    ensures { result ≡ better (eqb k 0 || ltb bound found.bound) bound weights (k + 1) found }
{
    let rounds = k + 1;
    if k == 0 || bound < found.bound {
        return WeightsFound {
            bound,
            rounds,
            weights,
        };
    }
    WeightsFound { rounds, ..found }
}

// The tests at the end of a round, in their order: the weights of the next one, or none where the run stops.
fn next_round(
    job: JobRecord,
    round: u16,
    lower: u64,
    bound: u64,
    weights: &[u8; 64],
    kinds: &[u8],
    operands: &[u16],
    nodes: usize,
) -> Option<[u8; 64]>
    requires { Made (job_of job) lower round bound nodes (weight_in weights.now) kinds.now operands.now }
    ensures { result ≡ following (stops_with (job_of job) lower round (weight_in weights.now))
        (entries (next_weight (job_of job) lower round (weight_in weights.now)) job.count) }
{
    let copies = copies::count_copies(kinds, operands, nodes);
    if copies::keep_demands(&copies, &job.demands, job.count) {
        return None;
    }
    if round == 17 {
        return None;
    }
    let next = next_weights(
        weights,
        &copies,
        &job.demands,
        job.count,
        round,
        bound - lower,
    );
    let n = job.count as usize;
    match job::check_weights(job, &next[..n]) {
        Ok(_) => Some(next),
        Err(_) => None,
    }
}

// The rounds of a job that was read and a lower figure, over the lent memory of the writing call.
fn run_rounds(
    block: &[u8],
    choices: Choices,
    job: JobRecord,
    lower: u64,
    lengths: &mut [u16],
    widths: &mut [u16],
    table: &mut [u64],
    kinds: &mut [u8],
    operands: &mut [u16],
) -> Result<WeightsFound, Refusal>
    requires { (job ≡ record_of block.now choices) × (first_refusal (job_checks block.now choices) ≡ passed) × ((weight : ℕ → ℕ) → lower ≤ bound_of (block_job block.now choices) weight) }
    ensures answers { result ≡ run_answer (block_job block.now choices) lower (lent_all lengths.old widths.old table.old kinds.old operands.old) }
    ensures memory { RunLeaves (block_job block.now choices) lower
        (lent_all lengths.old widths.old table.old kinds.old operands.old)
        (lent_all lengths.new widths.new table.new kinds.new operands.new) }
{
    let n = job.count as usize;
    let mut weights = [0u8; 64];
    let mut found = WeightsFound {
        bound: 0,
        rounds: 0,
        weights,
    };
    for k in 0..18u16 {
        let used = &weights[..n];
        let written = writer::write_plan(
            block, choices, used, lengths, widths, table, kinds, operands,
        );
        let report = match written {
            Ok(report) => report,
            Err(r) if k == 0 => return Err(r),
            Err(_) => return Ok(found),
        };
        found = count_round(found, k, report.bound, weights);
        let turn = next_round(
            job,
            k,
            lower,
            report.bound,
            &weights,
            kinds,
            operands,
            report.nodes as usize,
        );
        let Some(next) = turn else {
            return Ok(found);
        };
        weights = next;
    }
    Ok(found)
}

// Weights found for a job block, with the profit of a lent plan as the lower figure. Refusals 1 to 7, 27 and 35, the plan's 10 to 18, 36
// and 26, then 19, 20 and 21 of round 0; later refusals end the run. Each round leaves lent memory as a writing call of its own would, over
// the last. No guillotine tree on the plate that keeps every demand earns more than the answered bound.
pub fn find_weights(
    block: &[u8],
    choices: Choices,
    kinds: &[u8],
    operands: &[u16],
    lengths: &mut [u16],
    widths: &mut [u16],
    table: &mut [u64],
    written_kinds: &mut [u8],
    written_operands: &mut [u16],
) -> Result<WeightsFound, Refusal>
    ensures { FindPromises block.now choices kinds.now operands.now
        (lent_all lengths.old widths.old table.old written_kinds.old written_operands.old)
        (lent_all lengths.new widths.new table.new written_kinds.new written_operands.new) result }
{
    let job = job::read_job(block, choices)?;
    let report = plan::check_nodes(job, kinds, operands)?;
    run_rounds(
        block,
        choices,
        job,
        report.profit,
        lengths,
        widths,
        table,
        written_kinds,
        written_operands,
    )
}

// The same with the capacity of the full demands, whatever the choices say of it.
pub fn find_weights_full_demand(
    block: &[u8],
    mut choices: Choices,
    kinds: &[u8],
    operands: &[u16],
    lengths: &mut [u16],
    widths: &mut [u16],
    table: &mut [u64],
    written_kinds: &mut [u8],
    written_operands: &mut [u16],
) -> Result<WeightsFound, Refusal>
    ensures { FindPromises block.now (with_full_demand choices) kinds.now operands.now
        (lent_all lengths.old widths.old table.old written_kinds.old written_operands.old)
        (lent_all lengths.new widths.new table.new written_kinds.new written_operands.new) result }
{
    choices.full_demand = true;
    find_weights(
        block,
        choices,
        kinds,
        operands,
        lengths,
        widths,
        table,
        written_kinds,
        written_operands,
    )
}
