// The check of a plan within a limit on its stages: refusals 1 to 7, 27 and 35, 22, 10 to 18, 36, 26 and 23.
#![tactic(auto)]

ghost use Rattle.std.specs.Prelude.{◌≡◌, ◌≤◌};
ghost use Rattle.cutting.specs.Limits.{most_limit};
ghost use Rattle.cutting.specs.Job.{InRange};
ghost use Rattle.job.specs.Block.{job_of};
ghost use Rattle.job.specs.Weights.{block_job};
ghost use Rattle.staged_plan.specs.Check.{within_answer, LimitPasses, staged_check_answer, staged_before_idle, staged_check_outcome, staged_check_said, ChecksStaged};

use job::read_job;
use plan::check_nodes;
use promises::{Choices, JobRecord, Refusal, StagedReport};
use refusal::refuse_if;
use stages::{limit_outside, stages_within};

// A plan's arrays checked for a job that was read, within a limit: refusals 10 to 18, 36 and 26, then 23.
pub fn check_within(
    job: JobRecord,
    limit: u8,
    kinds: &[u8],
    operands: &[u16],
) -> Result<StagedReport, Refusal>
    requires { InRange (job_of job) × (1 ≤ limit) × (limit ≤ most_limit) }
    ensures { result ≡ within_answer (job_of job) limit kinds.now operands.now }
{
    let report = check_nodes(job, kinds, operands)?;
    let stages = stages_within(kinds, limit)?;
    Ok(StagedReport { report, stages })
}

// A plan's arrays checked for a job block within a limit.
pub fn check_plan_staged(
    block: &[u8],
    choices: Choices,
    limit: u32,
    kinds: &[u8],
    operands: &[u16],
) -> Result<StagedReport, Refusal>
    ensures answers { result ≡ staged_check_answer block.now choices limit kinds.now operands.now }
    ensures outcome { staged_check_outcome result ≡ staged_check_said block.now choices limit kinds.now operands.now }
    ensures trees { ChecksStaged (LimitPasses block.now choices limit) (block_job block.now choices) limit kinds.now operands.now (staged_before_idle block.now choices limit kinds.now operands.now) result }
{
    let job = read_job(block, choices)?;
    refuse_if(limit_outside(limit), Refusal::StageLimit)?;
    check_within(job, limit as u8, kinds, operands)
}
