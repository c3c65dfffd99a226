// The saw beside the office: it reads the same job block without its prices, checks a plan and reports copies and areas, and hands back
// the part of the caller's arrays that belongs to a node and all below it. No answer depends on a price.
#![tactic(auto)]

ghost use Rattle.std.specs.Prelude.{◌≡◌, ◌+◌, ◌≤◌, ◌<◌, ◌^◌, length};
ghost use Rattle.cutting.specs.Preorder.{kinds_of, operands_of};
ghost use Rattle.job.specs.Block.{job_outcome};
ghost use Rattle.refusal.specs.Refusals.{passed, verdict_of};
ghost use Rattle.saw.specs.Saw.{saw_read, saw_read_said, without_profit, saw_answer, saw_outcome, saw_said, NeverSix, SawChecks};
ghost use Rattle.saw.specs.Prices.{AtAnyPrices, PricesFree, BesideOffice};
ghost use Rattle.saw.specs.Parts.{left_after, end_of, part_by, HandsBack};

use job::{check_block, read_unpriced};
use node::decode;
use plan::check_nodes;
use promises::{Choices, JobRecord, Node, Part, Refusal, Report, SawReport};

// A job block as the saw reads it, or refused with 1 to 5, 7, 27 or 35: no price is read, and in the record every price is 0.
pub fn read_saw_job(block: &[u8], choices: Choices) -> Result<JobRecord, Refusal>
    ensures answers { result ≡ saw_read block.now choices }
    ensures outcome { job_outcome result ≡ saw_read_said block.now choices }
    ensures blind { AtAnyPrices choices block.now (λ z. result ≡ saw_read z choices) }
    ensures free { verdict_of result ≡ passed → PricesFree choices block.now }
    ensures unpriced { NeverSix (verdict_of result) }
{
    check_block(block, choices, true, false)?;
    Ok(read_unpriced(block, choices))
}

// A plan check's report without its profit.
fn without_profit(report: Report) -> SawReport
    ensures { result ≡ without_profit report }
{
    let copies = report.copies;
    SawReport {
        copies,
        pieces: report.pieces,
        waste: report.waste,
        trim: report.trim,
        sawdust: report.sawdust,
    }
}

// A plan's arrays checked by the saw: refusals 1 to 5, 7, 27 and 35, then 10 to 18, 36 and 26.
pub fn saw_check(
    block: &[u8],
    choices: Choices,
    kinds: &[u8],
    operands: &[u16],
) -> Result<SawReport, Refusal>
    ensures answers { result ≡ saw_answer block.now choices kinds.now operands.now }
    ensures outcome { saw_outcome result ≡ saw_said block.now choices kinds.now operands.now }
    ensures trees { SawChecks block.now choices kinds.now operands.now result }
    ensures blind { AtAnyPrices choices block.now (λ z. result ≡ saw_answer z choices kinds.now operands.now) }
    ensures office { BesideOffice block.now choices kinds.now operands.now result }
{
    let job = read_saw_job(block, choices)?;
    let report = check_nodes(job, kinds, operands)?;
    Ok(without_profit(report))
}

// The trees left to read after a node, where so many were before it.
fn left_after(node: Node, left: usize) -> usize
    requires { (0 < left) × (left < 2 ^ 63) }
    ensures { (result ≡ left_after node left) × (result ≤ left + 1) }
{
    match node {
        Node::Waste | Node::Piece(_) | Node::Turned(_) => left - 1,
        Node::Cut(_, _) => left + 1,
    }
}

// One past the last entry of the tree at a node.
fn tree_end(kinds: &[u8], node: usize) -> usize
    requires { node ≤ length kinds.now }
    ensures { (result ≡ end_of kinds.now node) × (node ≤ result) × (result ≤ length kinds.now) }
{
    let mut left: usize = 1;
    for i in node..kinds.len() {
        if left < 1 {
            return i;
        }
        left = left_after(decode(kinds[i], 0), left);
    }
    kinds.len()
}

// For the two calls below and for C: the part of a node in one of the two arrays, which has `count` entries: empty, at the array's end,
// where the plan does not pass or the node is past it.
pub fn node_part(
    block: &[u8],
    choices: Choices,
    kinds: &[u8],
    operands: &[u16],
    count: usize,
    node: usize,
) -> Part
    requires { length kinds.now ≡ length operands.now → count ≡ length kinds.now }
    ensures { (result ≡ part_by (verdict_of (saw_answer block.now choices kinds.now operands.now)) kinds.now count node) × (result.first ≤ result.past) × (result.past ≤ count) }
{
    let none = Part {
        first: count,
        past: count,
    };
    let Ok(_) = saw_check(block, choices, kinds, operands) else {
        return none;
    };
    if count <= node {
        return none;
    }
    Part {
        first: node,
        past: tree_end(kinds, node),
    }
}

// The part of the kinds that belongs to a node and all below it.
pub fn node_kinds<'a, 'b, 'c>(
    block: &'b [u8],
    choices: Choices,
    kinds: &'a [u8],
    operands: &'c [u16],
    node: usize,
) -> &'a [u8]
    ensures part { HandsBack 1 kinds_of block.now choices kinds.now operands.now node kinds.entry result }
{
    let part = node_part(block, choices, kinds, operands, kinds.len(), node);
    &kinds[part.first..part.past]
}

// The part of the operands that belongs to it.
pub fn node_operands<'a, 'b, 'c>(
    block: &'b [u8],
    choices: Choices,
    kinds: &'c [u8],
    operands: &'a [u16],
    node: usize,
) -> &'a [u16]
    ensures part { HandsBack 2 operands_of block.now choices kinds.now operands.now node operands.entry result }
{
    let part = node_part(block, choices, kinds, operands, operands.len(), node);
    &operands[part.first..part.past]
}
