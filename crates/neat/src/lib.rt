// The neat plan of a plan that passed its check, and the scan that finds it, which a job's true sizes share. The nodes needed follow from
// the number of pieces, so that they are known before anything is written. One scan from the last node to the first keeps the used size of
// each tree that is complete, and writes what remains from its end to its start: the work is linear in the nodes, and no plan needs more
// stack than another.
#![tactic(auto)]

ghost use Rattle.std.specs.Prelude.{◌≡◌, true, map, ◌+◌, ◌-◌, ◌≤◌, ◌<◌, max, length, get_or};
ghost use Rattle.cutting.specs.Limits.{most_kinds, most_nodes, most_true_kerf};
ghost use Rattle.cutting.specs.Lists.{only, over};
ghost use Rattle.cutting.specs.Tree.{side};
ghost use Rattle.cutting.specs.Pieces.{◌⊑◌, quarter};
ghost use Rattle.cutting.specs.Preorder.{kind_of, operand_of};
ghost use Rattle.cutting.specs.Job.{laid, InRange};
ghost use Rattle.cutting.specs.Neat.{joined};
ghost use Rattle.node.specs.Nodes.{of_piece};
ghost use Rattle.job.specs.Block.{job_of};
ghost use Rattle.plan.specs.Plan.{nodes_in};
ghost use Rattle.plan.specs.Walk.{waiting};
ghost use Rattle.plan.specs.Trees.{trees_in};
ghost use Rattle.neat.specs.Neat.{neat_tree, neat_checked, NeatPromises};
ghost use Rattle.neat.specs.Scan.{used_rect, as_used, entry_of, most_kept, Kept, most_told, told_side, told, told_sides, moved, Numbered, node_size, Ready, Stepped, Advanced, put_when, remains, neat_nodes, pieces_in, nodes_for, Writable, Neatened};

use cutting::{kind_number, operand};
use job::read_job;
use node::decode;
use plan::check_nodes;
use promises::{Choices, Direction, JobRecord, Node, Refusal};

// A used size, in any unit: a side above 100,000,000 is told as one more, so that no sum is too great for its word.
#[derive(Clone, Copy, Drop)]
pub struct Used {
    pub length: u32,
    pub width: u32,
}

// What a plan's arrays have of a node: its kind and its operand. Kind 0, waste, stands for nothing.
#[derive(Clone, Copy, Drop)]
pub struct Entry {
    pub kind: u8,
    pub operand: u32,
}

// One node of the scan: what it becomes, the used size of its tree, and how many used sizes stay below that one.
#[derive(Clone, Copy, Drop)]
pub struct Step {
    pub entry: Entry,
    pub used: Used,
    pub below: usize,
}

// The greater of two sides.
fn greater(a: u32, b: u32) -> u32
    ensures { result ≡ max a b }
{
    if a < b { b } else { a }
}

// A side as it is told.
fn tell(side: u32) -> u32
    ensures { result ≡ told_side side }
{
    if side < 100_000_001 {
        side
    } else {
        100_000_001
    }
}

// A side of two parts and the kerf between them, as it is told.
fn sum(first: u32, kerf: u32, second: u32) -> u32
    requires { (first ≤ most_told) × (second ≤ most_told) × (kerf ≤ most_true_kerf) }
    ensures { result ≡ told_side (first + kerf + second) }
{
    tell(first + kerf + second)
}

// The used size of a cut over those of its parts: a used length of 0 tells that a part holds no piece; so lengths stand for the counts of
// `joined`, which asks only which are 0.
fn join(d: Direction, kerf: u32, first: Used, second: Used) -> Used
    requires { (used_rect first ⊑ told_sides) × (used_rect second ⊑ told_sides) × (kerf ≤ most_true_kerf) }
    ensures { result ≡ as_used (told (joined kerf d first.length second.length (used_rect first) (used_rect second))) }
{
    if first.length == 0 {
        return second;
    }
    if second.length == 0 {
        return first;
    }
    match d {
        Direction::Length => Used {
            length: sum(first.length, kerf, second.length),
            width: greater(first.width, second.width),
        },
        Direction::Width => Used {
            length: greater(first.length, second.length),
            width: sum(first.width, kerf, second.width),
        },
    }
}

// The side of a used size that a cut divides.
fn cut_used(d: Direction, used: Used) -> u32
    ensures { result ≡ side d (used_rect used) }
{
    match d {
        Direction::Length => used.length,
        Direction::Width => used.width,
    }
}

// What a cut becomes: it moves to the first part's used size, where both parts hold a piece, and else is nothing.
fn move_cut(d: Direction, first: Used, second: Used) -> Entry
    ensures { result ≡ entry_of (moved d first.length second.length (side d (used_rect first))) }
{
    if first.length == 0 {
        return Entry {
            kind: 0,
            operand: 0,
        };
    }
    if second.length == 0 {
        return Entry {
            kind: 0,
            operand: 0,
        };
    }
    let at = cut_used(d, first);
    Entry {
        kind: kind_number(Node::Cut(d, 0)),
        operand: at,
    }
}

// The used size on top of n.
pub fn used_at(lengths: &[u32; 2049], widths: &[u32; 2049], n: usize) -> Used
    requires { (1 ≤ n) × (n ≤ most_kept) }
    ensures { result ≡ as_used (get_or lengths.now (n - 1) 0, get_or widths.now (n - 1) 0) }
{
    let top = n - 1;
    Used {
        length: lengths[top],
        width: widths[top],
    }
}

// A node that is no cut stays as it is, and uses its piece's size as it lies.
fn leaf(node: Node, size: Used, n: usize) -> Step
    ensures { (result.entry ≡ entry_of node) × (result.used ≡ size) × (result.below ≡ n) }
{
    let entry = Entry {
        kind: kind_number(node),
        operand: operand(node) as u32,
    };
    Step {
        entry: entry,
        used: size,
        below: n,
    }
}

// One node, with the size of its piece as it lies, over the n used sizes that are kept, the last one on top.
fn scan_node(
    node: Node,
    size: Used,
    kerf: u32,
    used_lengths: &[u32; 2049],
    used_widths: &[u32; 2049],
    n: usize,
) -> Step
    requires { Ready node (waiting used_lengths.now used_widths.now n) × (kerf ≤ most_true_kerf) × (n ≤ most_kept) }
    ensures { Stepped kerf (used_rect size) node used_lengths.now used_widths.now n result }
{
    match node {
        Node::Waste => leaf(node, size, n),
        Node::Piece(_) => leaf(node, size, n),
        Node::Turned(_) => leaf(node, size, n),
        Node::Cut(d, _) => {
            let first = used_at(used_lengths, used_widths, n);
            let second = used_at(used_lengths, used_widths, n - 1);
            Step {
                entry: move_cut(d, first, second),
                used: join(d, kerf, first, second),
                below: n - 2,
            }
        }
    }
}

// One node of the scan, whose used size is put on top.
pub fn advance(
    node: Node,
    size: Used,
    kerf: u32,
    used_lengths: &mut [u32; 2049],
    used_widths: &mut [u32; 2049],
    n: usize,
) -> Step
    requires { Ready node (waiting used_lengths.old used_widths.old n) × (kerf ≤ most_true_kerf) × (n ≤ most_kept) × Kept used_lengths.old used_widths.old }
    ensures { Advanced kerf (used_rect size) node used_lengths.old used_widths.old used_lengths.new used_widths.new n result }
{
    let s = scan_node(node, size, kerf, used_lengths, used_widths, n);
    let below = s.below;
    used_lengths[below] = s.used.length;
    used_widths[below] = s.used.width;
    s
}

// A side or the kerf of a job in a wider word.
fn wide(side: u16) -> u32
    ensures { result ≡ side }
{
    side as u32
}

// The size of a kind of the job.
fn size_at(lengths: &[u16; 64], widths: &[u16; 64], i: u16) -> Used
    requires { i < most_kinds }
    ensures { result ≡ as_used (get_or lengths.now i 0, get_or widths.now i 0) }
{
    let at = i as usize;
    Used {
        length: wide(lengths[at]),
        width: wide(widths[at]),
    }
}

// A used size turned by a quarter.
pub fn turned(upright: Used) -> Used
    ensures { result ≡ as_used (quarter (used_rect upright)) }
{
    Used {
        length: upright.width,
        width: upright.length,
    }
}

// The size of a node's piece as it lies, and nothing for another node.
fn own_size(lengths: &[u16; 64], widths: &[u16; 64], node: Node) -> Used
    requires { Numbered node }
    ensures { result ≡ as_used (node_size lengths.now widths.now node) }
{
    match node {
        Node::Waste => Used {
            length: 0,
            width: 0,
        },
        Node::Piece(i) => size_at(lengths, widths, i),
        Node::Turned(i) => turned(size_at(lengths, widths, i)),
        Node::Cut(_, _) => Used {
            length: 0,
            width: 0,
        },
    }
}

// An entry that remains is put before place o, where what was written last begins.
fn put(kinds: &mut [u8], operands: &mut [u16], o: usize, entry: Entry) -> usize
    requires { (remains entry.kind ≡ true → (0 < o) × (o ≤ length kinds.old) × (o ≤ length operands.old)) × (entry.operand ≤ 65535) }
    ensures { (result ≡ o - only (remains entry.kind) 1) × (kinds.new ≡ put_when (remains entry.kind) kinds.old (o - 1) entry.kind) × (operands.new ≡ put_when (remains entry.kind) operands.old (o - 1) entry.operand) }
{
    if entry.kind == 0 {
        return o;
    }
    let at = o - 1;
    kinds[at] = entry.kind;
    operands[at] = entry.operand as u16;
    at
}

// The neat plan of a plan with a piece, in the first entries of the two output arrays.
fn write_nodes(
    job: JobRecord,
    kinds: &[u8],
    operands: &[u16],
    neat_kinds: &mut [u8],
    neat_operands: &mut [u16],
    needed: usize,
)
    requires { Writable job.kerf (laid (job_of job)) (job_of job).plate kinds.now operands.now neat_kinds.old neat_operands.old needed × InRange (job_of job) }
    ensures kinds { neat_kinds.new ≡ over (map (λ n. kind_of n) (neat_nodes job.kerf (laid (job_of job)) (trees_in (nodes_in kinds.now operands.now)))) neat_kinds.old }
    ensures operands { neat_operands.new ≡ over (map (λ n. operand_of n) (neat_nodes job.kerf (laid (job_of job)) (trees_in (nodes_in kinds.now operands.now)))) neat_operands.old }
{
    let lengths = job.lengths;
    let widths = job.widths;
    let kerf = wide(job.kerf);
    let mut used_lengths = [0u32; 2049];
    let mut used_widths = [0u32; 2049];
    let mut n: usize = 0;
    let mut o = needed;
    let mut k = kinds.len();
    while 0 < k {
        k -= 1;
        let node = decode(kinds[k], operands[k]);
        let size = own_size(&lengths, &widths, node);
        let s = advance(node, size, kerf, &mut used_lengths, &mut used_widths, n);
        n = s.below + 1;
        o = put(neat_kinds, neat_operands, o, s.entry);
    }
}

// 1 for a piece.
fn piece_one(node: Node) -> usize
    ensures { (result ≡ of_piece (λ p. 1) 0 node) × (result ≤ 1) }
{
    match node {
        Node::Waste => 0,
        Node::Piece(_) => 1,
        Node::Turned(_) => 1,
        Node::Cut(_, _) => 0,
    }
}

// The pieces of a plan.
pub fn count_pieces(kinds: &[u8]) -> usize
    ensures { (result ≡ pieces_in kinds.now) × (result ≤ length kinds.now) }
{
    let mut pieces: usize = 0;
    let mut k = kinds.len();
    while 0 < k {
        k -= 1;
        let node = decode(kinds[k], 0);
        pieces += piece_one(node);
    }
    pieces
}

// The nodes of the neat plan of so many pieces: one waste node, or the pieces and the cuts between them.
pub fn nodes_for(pieces: usize) -> usize
    requires { pieces ≤ most_nodes }
    ensures { (result ≡ nodes_for pieces) × (1 ≤ result) }
{
    if pieces == 0 {
        return 1;
    }
    2 * pieces - 1
}

// The neat plan of a plan's arrays for a job that was read: refusals 10 to 18, 36, 26 and 21.
fn neat_nodes(
    job: JobRecord,
    kinds: &[u8],
    operands: &[u16],
    neat_kinds: &mut [u8],
    neat_operands: &mut [u16],
) -> Result<u64, Refusal>
    requires { InRange (job_of job) }
    ensures { Neatened (neat_checked (job_of job) kinds.now operands.now neat_kinds.old neat_operands.old) (neat_tree (job_of job) kinds.now operands.now)
        neat_kinds.old neat_operands.old neat_kinds.new neat_operands.new result }
{
    check_nodes(job, kinds, operands)?;
    let pieces = count_pieces(kinds);
    let needed = nodes_for(pieces);
    if neat_kinds.len() < needed {
        return Err(Refusal::PlanLong(needed as u64));
    }
    if neat_operands.len() < needed {
        return Err(Refusal::PlanLong(needed as u64));
    }
    if pieces == 0 {
        neat_kinds[0] = 0;
        neat_operands[0] = 0;
        return Ok(1);
    }
    write_nodes(job, kinds, operands, neat_kinds, neat_operands, needed);
    Ok(needed as u64)
}

// The neat plan of a plan's arrays for a job block, in the first entries of the two output arrays. The plan is checked first; where a check
// refuses, the output arrays are untouched.
pub fn neat_plan(
    block: &[u8],
    choices: Choices,
    kinds: &[u8],
    operands: &[u16],
    neat_kinds: &mut [u8],
    neat_operands: &mut [u16],
) -> Result<u64, Refusal>
    ensures { NeatPromises block.now choices kinds.now operands.now neat_kinds.old neat_operands.old neat_kinds.new neat_operands.new result }
{
    let job = read_job(block, choices)?;
    neat_nodes(job, kinds, operands, neat_kinds, neat_operands)
}
