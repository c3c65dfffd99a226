// The check of a plan drawn by anybody: refusals 10 to 18, 36 and 26, and what a passed plan reports. The nodes are read once, in their order,
// with a list of the rectangles that wait to be filled, so that no plan needs more stack than another; then once more for idle cuts.
#![tactic(auto)]

ghost use Rattle.std.specs.Prelude.{◌≡◌, List, [], ◌∷◌, ◌++◌, ℕ, ◌+◌, ◌*◌, ◌-◌, ◌≤◌, ◌<◌, length, take, drop, get_or};
ghost use Rattle.cutting.specs.Limits.{most_kinds, most_nodes};
ghost use Rattle.cutting.specs.Sides.{rect_of, sides_of};
ghost use Rattle.cutting.specs.Job.{Job, InRange};
ghost use Rattle.refusal.specs.Refusals.{first_refusal};
ghost use Rattle.job.specs.Block.{job_of};
ghost use Rattle.job.specs.Weights.{block_job};
ghost use Rattle.plan.specs.Plan.{parts, plan_report, empty_report, nodes_in, tree_walk, left_check, walk, plan_checks, walk_answer, plan_answer};
ghost use Rattle.plan.specs.Walk.{waiting, no_sums, rules_of, entry_at, Held, Opens, Walkable};
ghost use Rattle.plan.specs.Trees.{ChecksPlan};
ghost use Rattle.plan.specs.Calls.{arrays_answer, arrays_before_idle, plan_count, plan_kinds, plan_operands, plan_block_answer, block_answer, block_before_idle, JobPasses, BlockPasses, plan_outcome, arrays_said, block_said};

use cutting::{Sides, first_part, second_part};
use idle::idle_cut;
use job::{read_job, read_u16};
use node::{NodeEntry, Rules, Tally, check_node, decode};
use promises::{Choices, JobRecord, Node, Refusal, Report};
use refusal::refuse_if;

// What the walk over one tree gives: its report, and the number of the node after its last.
#[derive(Clone, Copy, Drop)]
pub struct TreeWalk {
    pub report: Report,
    pub past: usize,
}

// The sums before any node.
fn no_sums() -> Tally
    ensures { result ≡ no_sums }
{
    Tally {
        profit: 0,
        pieces: 0,
        waste: 0,
        trim: 0,
        sawdust: 0,
    }
}

// What a job that was read says of every node.
fn rules_of(job: JobRecord) -> Rules
    ensures { result ≡ rules_of job }
{
    Rules {
        count: job.count,
        turning: job.turning,
        kerf: job.kerf,
    }
}

// Node k of a plan's arrays.
fn entry(kinds: &[u8], operands: &[u16], k: usize) -> NodeEntry
    requires { Walkable kinds.now operands.now × (k < length kinds.now) }
    ensures { result ≡ entry_at kinds.now operands.now k }
{
    NodeEntry {
        at: k as u16,
        kind: kinds[k],
        operand: operands[k],
    }
}

// The next rectangle of n that wait, the last one.
pub fn next_room(lengths: &[u16; 4096], widths: &[u16; 4096], n: usize) -> Sides
    requires { (1 ≤ n) × (n ≤ 4096) }
    ensures { result ≡ sides_of (get_or lengths.now (n - 1) 0, get_or widths.now (n - 1) 0) }
{
    let top = n - 1;
    Sides {
        length: lengths[top],
        width: widths[top],
    }
}

// The next rectangle is taken from the list of n that wait, and the parts that its node leaves are put there, the first part last.
fn leave_parts(
    node: Node,
    kerf: u16,
    room: Sides,
    lengths: &mut [u16; 4096],
    widths: &mut [u16; 4096],
    n: usize,
) -> usize
    requires { Opens kerf node (rect_of room) lengths.old widths.old n }
    ensures { (waiting lengths.new widths.new result ≡ parts kerf node (rect_of room) ++ waiting lengths.old widths.old (n - 1)) × (result ≤ n + 1) × Held lengths.new widths.new }
{
    let top = n - 1;
    match node {
        Node::Waste | Node::Piece(_) | Node::Turned(_) => top,
        Node::Cut(d, x) => {
            let first = first_part(d, x, room);
            let second = second_part(d, x, kerf, room);
            lengths[top] = second.length;
            widths[top] = second.width;
            lengths[n] = first.length;
            widths[n] = first.width;
            n + 1
        }
    }
}

// A tree walked to its end, before node k.
fn end_tree(k: usize, t: Tally, copies: [u16; 64]) -> TreeWalk
    ensures { result ≡ record { report = plan_report t copies; past = k } }
{
    TreeWalk {
        report: Report {
            profit: t.profit,
            copies,
            pieces: t.pieces,
            waste: t.waste,
            trim: t.trim,
            sawdust: t.sawdust,
        },
        past: k,
    }
}

// After the last node: a rectangle that waits has no node, and else the tree passes.
fn finish(n: usize, k: usize, t: Tally, copies: [u16; 64]) -> Result<TreeWalk, Refusal>
    requires { k ≤ most_nodes }
    ensures { (J : Job) (lengths widths : List ℕ) → result ≡ tree_walk J k [] (waiting lengths widths n) (plan_report t copies) }
{
    refuse_if(0 < n, Refusal::NodeMissing(k as u16))?;
    Ok(end_tree(k, t, copies))
}

// The walk over one tree, from node `first` and the plate on: refusals 12 to 17 and 36. `waiting_lengths` and `waiting_widths` hold
// the rectangles that wait; what stood in them is not read.
pub fn walk_tree(
    job: JobRecord,
    kinds: &[u8],
    operands: &[u16],
    first: usize,
    waiting_lengths: &mut [u16; 4096],
    waiting_widths: &mut [u16; 4096],
) -> Result<TreeWalk, Refusal>
    requires { Walkable kinds.now operands.now × (job.count ≤ most_kinds) × (first ≤ length kinds.now) × Held waiting_lengths.old waiting_widths.old }
    ensures { (result ≡ tree_walk (job_of job) first (drop first (nodes_in kinds.now operands.now)) ((job_of job).plate ∷ []) empty_report) × Held waiting_lengths.new waiting_widths.new }
{
    let rules = rules_of(job);
    let mut copies = [0u16; 64];
    waiting_lengths[0] = job.length;
    waiting_widths[0] = job.width;
    let mut n: usize = 1;
    let mut t = no_sums();
    for k in first..kinds.len() {
        if n < 1 {
            return Ok(end_tree(k, t, copies));
        }
        let e = entry(kinds, operands, k);
        let room = next_room(waiting_lengths, waiting_widths, n);
        t = check_node(
            &job.lengths,
            &job.widths,
            &job.prices,
            &job.demands,
            &job.grains,
            &mut copies,
            rules,
            e,
            room,
            t,
        )?;
        let node = decode(e.kind, e.operand);
        n = leave_parts(node, job.kerf, room, waiting_lengths, waiting_widths, n);
    }
    finish(n, kinds.len(), t, copies)
}

// Refusal 18, of n nodes, after the walks have ended before node k.
pub fn check_left(n: usize, k: usize) -> Result<(), Refusal>
    requires { n ≤ most_nodes }
    ensures { result ≡ first_refusal (left_check n k ∷ []) }
{
    if k < n {
        return Err(Refusal::NodeLeft(k as u16));
    }
    Ok(())
}

// The walk over a plan's nodes from the plate on: refusals 12 to 18 and 36.
fn walk_nodes(job: JobRecord, kinds: &[u8], operands: &[u16]) -> Result<Report, Refusal>
    requires { Walkable kinds.now operands.now × (job.count ≤ most_kinds) }
    ensures { result ≡ walk (job_of job) 0 (nodes_in kinds.now operands.now) ((job_of job).plate ∷ []) empty_report }
{
    let mut waiting_lengths = [0u16; 4096];
    let mut waiting_widths = [0u16; 4096];
    let tree = walk_tree(
        job,
        kinds,
        operands,
        0,
        &mut waiting_lengths,
        &mut waiting_widths,
    )?;
    check_left(kinds.len(), tree.past)?;
    Ok(tree.report)
}

// Refusals 10 and 11: the plan as a whole.
pub fn check_whole(kinds: &[u8], operands: &[u16]) -> Result<(), Refusal>
    ensures { result ≡ first_refusal (plan_checks kinds.now operands.now) }
{
    let count = kinds.len();
    refuse_if(count != operands.len(), Refusal::PlanLength)?;
    refuse_if(count < 1 || 4095 < count, Refusal::NodeCount)
}

// A plan's arrays checked for a job that was read: refusals 10 to 18 and 36.
fn check_walk(job: JobRecord, kinds: &[u8], operands: &[u16]) -> Result<Report, Refusal>
    requires { InRange (job_of job) }
    ensures { result ≡ walk_answer (job_of job) kinds.now operands.now }
{
    check_whole(kinds, operands)?;
    walk_nodes(job, kinds, operands)
}

// A plan's arrays checked for a job that was read: refusals 10 to 18 and 36, then 26.
pub fn check_nodes(job: JobRecord, kinds: &[u8], operands: &[u16]) -> Result<Report, Refusal>
    requires { InRange (job_of job) }
    ensures { result ≡ plan_answer (job_of job) kinds.now operands.now }
{
    let report = check_walk(job, kinds, operands)?;
    idle_cut(kinds, 0)?;
    Ok(report)
}

// A plan's arrays checked for a job block: refusals 1 to 7, 27 and 35, then 10 to 18, 36 and 26.
pub fn check_plan(
    block: &[u8],
    choices: Choices,
    kinds: &[u8],
    operands: &[u16],
) -> Result<Report, Refusal>
    ensures answers { result ≡ arrays_answer block.now choices kinds.now operands.now }
    ensures outcome { plan_outcome result ≡ arrays_said block.now choices kinds.now operands.now }
    ensures trees { ChecksPlan (JobPasses block.now choices) (block_job block.now choices) kinds.now operands.now (arrays_before_idle block.now choices kinds.now operands.now) result }
{
    let job = read_job(block, choices)?;
    check_nodes(job, kinds, operands)
}

// Reads the operands of a plan block into the first entries of the array.
fn read_operands(plan: &[u8], count: usize, operands: &mut [u16; 4095])
    requires { (count ≡ plan_count plan.now) × (length plan.now ≡ 2 + 3 * count) × (count ≤ most_nodes) × (length operands.old ≡ most_nodes) }
    ensures { (take count operands.new ≡ plan_operands plan.now) × (length operands.new ≡ most_nodes) }
{
    for i in 0..count {
        operands[i] = read_u16(plan, 2 + count + 2 * i);
    }
}

// A plan block checked for a job that was read: refusals 10 to 18, 36 and 26.
fn check_block(job: JobRecord, plan: &[u8]) -> Result<Report, Refusal>
    requires { InRange (job_of job) }
    ensures { result ≡ plan_block_answer (job_of job) plan.now }
{
    refuse_if(plan.len() < 2, Refusal::PlanLength)?;
    let count = read_u16(plan, 0) as usize;
    let end = 2 + count;
    refuse_if(plan.len() != end + 2 * count, Refusal::PlanLength)?;
    refuse_if(4095 < count, Refusal::NodeCount)?;
    let mut operands = [0u16; 4095];
    read_operands(plan, count, &mut operands);
    check_nodes(job, &plan[2..end], &operands[..count])
}

// A plan block checked for a job block: refusals 1 to 7, 27 and 35, then 10 to 18, 36 and 26.
pub fn check_plan_block(block: &[u8], choices: Choices, plan: &[u8]) -> Result<Report, Refusal>
    ensures answers { result ≡ block_answer block.now choices plan.now }
    ensures outcome { plan_outcome result ≡ block_said block.now choices plan.now }
    ensures trees { ChecksPlan (JobPasses block.now choices × BlockPasses plan.now) (block_job block.now choices) (plan_kinds plan.now) (plan_operands plan.now) (block_before_idle block.now choices plan.now) result }
{
    let job = read_job(block, choices)?;
    check_block(job, plan)
}
