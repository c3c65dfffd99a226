// The true plan of a model's plan: its neat plan by the true sizes, found by the neat plan's own scan. The plan is checked for the model
// first. One scan finds its used size, so that it is known before anything is written whether it fits the true plate; a second one writes.
#![tactic(auto)]

ghost use Rattle.std.specs.Prelude.{◌≡◌, true, map, ◌-◌, ◌≤◌, ◌<◌, length, get_or};
ghost use Rattle.cutting.specs.Limits.{most_kinds};
ghost use Rattle.cutting.specs.Lists.{only, over};
ghost use Rattle.cutting.specs.Preorder.{kind_of, operand_of};
ghost use Rattle.cutting.specs.Job.{InRange};
ghost use Rattle.job.specs.Block.{job_of};
ghost use Rattle.sizes.specs.Sizes.{true_job, TrueRange};
ghost use Rattle.plan.specs.Plan.{nodes_in};
ghost use Rattle.plan.specs.Trees.{trees_in, tree_in};
ghost use Rattle.neat.specs.Scan.{as_used, Numbered, node_size, remains, put_when, neat_nodes, told_of, Scannable, Writable};
ghost use Rattle.true_plan.specs.TruePlan.{true_checked, TruePromises};
ghost use Rattle.true_plan.specs.Calls.{true_laid, true_plate, TruePlanned};

use job::read_job;
use neat::{Entry, Used, advance, count_pieces, nodes_for, turned, used_at};
use node::decode;
use plan::check_nodes;
use promises::{Choices, JobRecord, Node, Refusal, TrueReport};
use sizes::{TrueSizes, read_sizes};

// The true size of a kind.
fn size_at(lengths: &[u32; 64], widths: &[u32; 64], i: u16) -> Used
    requires { i < most_kinds }
    ensures { result ≡ as_used (get_or lengths.now i 0, get_or widths.now i 0) }
{
    let at = i as usize;
    Used {
        length: lengths[at],
        width: widths[at],
    }
}

// The true size of a node's piece as it lies, and nothing for another node.
fn true_size(lengths: &[u32; 64], widths: &[u32; 64], node: Node) -> Used
    requires { Numbered node }
    ensures { result ≡ as_used (node_size lengths.now widths.now node) }
{
    match node {
        Node::Waste => Used {
            length: 0,
            width: 0,
        },
        Node::Piece(i) => size_at(lengths, widths, i),
        Node::Turned(i) => turned(size_at(lengths, widths, i)),
        Node::Cut(_, _) => Used {
            length: 0,
            width: 0,
        },
    }
}

// The used size of a plan at the true sizes, as it is told.
fn used_size(sizes: TrueSizes, kinds: &[u8], operands: &[u16]) -> Used
    requires { Scannable sizes.kerf (true_laid sizes) kinds.now operands.now × (1 ≤ length (trees_in (nodes_in kinds.now operands.now))) }
    ensures { result ≡ as_used (told_of sizes.kerf (true_laid sizes) (tree_in kinds.now operands.now)) }
{
    let lengths = sizes.lengths;
    let widths = sizes.widths;
    let kerf = sizes.kerf;
    let mut used_lengths = [0u32; 2049];
    let mut used_widths = [0u32; 2049];
    let mut n: usize = 0;
    let mut k = kinds.len();
    while 0 < k {
        k -= 1;
        let node = decode(kinds[k], operands[k]);
        let size = true_size(&lengths, &widths, node);
        let s = advance(node, size, kerf, &mut used_lengths, &mut used_widths, n);
        n = s.below + 1;
    }
    used_at(&used_lengths, &used_widths, n)
}

// An entry that remains is put before place o, where what was written last begins.
fn put(kinds: &mut [u8], positions: &mut [u32], o: usize, entry: Entry) -> usize
    requires { remains entry.kind ≡ true → (0 < o) × (o ≤ length kinds.old) × (o ≤ length positions.old) }
    ensures { (result ≡ o - only (remains entry.kind) 1) × (kinds.new ≡ put_when (remains entry.kind) kinds.old (o - 1) entry.kind) × (positions.new ≡ put_when (remains entry.kind) positions.old (o - 1) entry.operand) }
{
    if entry.kind == 0 {
        return o;
    }
    let at = o - 1;
    kinds[at] = entry.kind;
    positions[at] = entry.operand;
    at
}

// The true plan of a plan with a piece, in the first entries of the two output arrays.
fn write_nodes(
    sizes: TrueSizes,
    kinds: &[u8],
    operands: &[u16],
    true_kinds: &mut [u8],
    positions: &mut [u32],
    needed: usize,
)
    requires { Writable sizes.kerf (true_laid sizes) (true_plate sizes) kinds.now operands.now true_kinds.old positions.old needed }
    ensures kinds { true_kinds.new ≡ over (map (λ n. kind_of n) (neat_nodes sizes.kerf (true_laid sizes) (trees_in (nodes_in kinds.now operands.now)))) true_kinds.old }
    ensures operands { positions.new ≡ over (map (λ n. operand_of n) (neat_nodes sizes.kerf (true_laid sizes) (trees_in (nodes_in kinds.now operands.now)))) positions.old }
{
    let lengths = sizes.lengths;
    let widths = sizes.widths;
    let kerf = sizes.kerf;
    let mut used_lengths = [0u32; 2049];
    let mut used_widths = [0u32; 2049];
    let mut n: usize = 0;
    let mut o = needed;
    let mut k = kinds.len();
    while 0 < k {
        k -= 1;
        let node = decode(kinds[k], operands[k]);
        let size = true_size(&lengths, &widths, node);
        let s = advance(node, size, kerf, &mut used_lengths, &mut used_widths, n);
        n = s.below + 1;
        o = put(true_kinds, positions, o, s.entry);
    }
}

// The true plan of a plan's arrays for a model and sizes that were read: refusals 10 to 18, 26, 34 and 21.
fn true_nodes(
    job: JobRecord,
    sizes: TrueSizes,
    kinds: &[u8],
    operands: &[u16],
    true_kinds: &mut [u8],
    positions: &mut [u32],
) -> Result<TrueReport, Refusal>
    requires { InRange (job_of job) × TrueRange (true_job (job_of job) sizes) }
    ensures { TruePlanned (true_checked (job_of job) (true_job (job_of job) sizes) kinds.now operands.now true_kinds.old positions.old) (true_job (job_of job) sizes) (tree_in kinds.now operands.now)
        true_kinds.old positions.old true_kinds.new positions.new result }
{
    check_nodes(job, kinds, operands)?;
    let used = used_size(sizes, kinds, operands);
    if sizes.length < used.length {
        return Err(Refusal::TrueMisfit(0));
    }
    if sizes.width < used.width {
        return Err(Refusal::TrueMisfit(1));
    }
    let pieces = count_pieces(kinds);
    let needed = nodes_for(pieces);
    if true_kinds.len() < needed {
        return Err(Refusal::PlanLong(needed as u64));
    }
    if positions.len() < needed {
        return Err(Refusal::PlanLong(needed as u64));
    }
    if pieces == 0 {
        true_kinds[0] = 0;
        positions[0] = 0;
        return Ok(TrueReport {
            nodes: 1,
            length: 0,
            width: 0,
        });
    }
    write_nodes(sizes, kinds, operands, true_kinds, positions, needed);
    Ok(TrueReport {
        nodes: needed as u64,
        length: used.length as u64,
        width: used.width as u64,
    })
}

// The true plan of a plan's arrays for a job block and a sizes block, in the first entries of the two output arrays: the same pieces, every
// cut at the true used size of its first part. The plan is checked for the job block, its model, first; where a check refuses, the output
// arrays are untouched.
pub fn true_plan(
    block: &[u8],
    choices: Choices,
    sizes: &[u8],
    kinds: &[u8],
    operands: &[u16],
    true_kinds: &mut [u8],
    positions: &mut [u32],
) -> Result<TrueReport, Refusal>
    ensures { TruePromises block.now choices sizes.now kinds.now operands.now true_kinds.old positions.old true_kinds.new positions.new result }
{
    let job = read_job(block, choices)?;
    let true_sizes = read_sizes(sizes, job.count)?;
    true_nodes(job, true_sizes, kinds, operands, true_kinds, positions)
}
