// The nodes of the plan from the plate downward, in preorder: their number, and the kinds and operands of as many as two lists hold. The
// walk has a list of waiting cells, the next on top: a node's cell makes way for the second part of its cut with the first part above it. A
// cut whose second part would be below 1 is left out: the walk goes on with its first part. Cells have the kerf added to their sides.
// The half perimeter of a waiting cell and its place are at most the plate's half perimeter, so at most 2,039 cells wait, and one array of
// 6,120 entries holds them.
ghost use Rattle.std.specs.Prelude.{◌≡◌, ◌<◌, length, set};
ghost use Rattle.cutting.specs.Preorder.{kind_of, operand_of};
ghost use Rattle.cutting.specs.Sides.{rect_of};
ghost use Rattle.table.specs.Clauses.{size_job};
ghost use Rattle.states.specs.States.{under};
ghost use Rattle.choice.specs.Choice.{Inside};
ghost use Rattle.writer.specs.Clauses.{cell_at, with_cell, plate_cell, left_out, first_of, SettledAt, Readable, sawn_plan, Waiting, Stepped, NodesListed};

use crate::Sawing;
use choice::{Cell, Chosen, choose};
use cutting::{Sides, cut_side, first_part, operand};
use promises::{Direction, Node};
use table::TableSize;

// A cell and the choice there, which is no cut that is left out.
#[derive(Clone, Copy, Drop)]
struct Settled {
    pub cell: Cell,
    pub chosen: Chosen,
}

// A step of the walk: the node that it reached, and how many cells wait after it.
#[derive(Clone, Copy, Drop)]
struct Step {
    pub node: Node,
    pub depth: usize,
}

// The cell of the plate with all of the capacity.
fn plate_cell(size: TableSize) -> Cell
    ensures { result ≡ plate_cell size }
{
    Cell {
        sides: Sides {
            length: size.length,
            width: size.width,
        },
        share: size.capacity,
    }
}

// The cell that waits at a place of the list: three entries, its length, width and share.
fn waiting_cell(waiting: &[u16; 6120], i: usize) -> Cell
    requires { i < 2040 }
    ensures { result ≡ cell_at waiting.now i }
{
    let at = 3 * i;
    Cell {
        sides: Sides {
            length: waiting[at],
            width: waiting[at + 1],
        },
        share: waiting[at + 2],
    }
}

// Puts a cell at a place of the list.
fn put_cell(waiting: &mut [u16; 6120], i: usize, cell: Cell)
    requires { (i < 2040) × (length waiting.old ≡ 6120) }
    ensures { waiting.new ≡ with_cell waiting.old i cell }
{
    let at = 3 * i;
    waiting[at] = cell.sides.length;
    waiting[at + 1] = cell.sides.width;
    waiting[at + 2] = cell.share;
}

// Whether the choice at a cell is a cut that is left out: its second part would be below 1.
fn left_out(cell: Cell, chosen: Chosen, kerf: u16) -> bool
    ensures { result ≡ left_out kerf chosen.node (rect_of cell.sides) }
{
    let Node::Cut(d, x) = chosen.node else {
        return false;
    };
    (cut_side(d, cell.sides) as u32) <= (x as u32) + (kerf as u32)
}

// The cell of a cut's first part.
fn first_cell(cell: Cell, chosen: Chosen) -> Cell
    ensures { result ≡ first_of cell chosen chosen.node }
{
    let Node::Cut(d, x) = chosen.node else {
        return cell;
    };
    Cell {
        sides: first_part(d, x, cell.sides),
        share: chosen.share,
    }
}

// The cell that the plan of a cell goes on with: past the cuts that are left out, first part after first part.
fn settle(
    cell: Cell,
    sawing: Sawing,
    pieces: &[u32; 640],
    normal_lengths: &[u16],
    normal_widths: &[u16],
    floors: &[u16],
    table: &[u64],
    blocks: &[u32],
) -> Settled
    requires { Readable sawing blocks.now pieces.now normal_lengths.now normal_widths.now floors.now table.now × Inside (size_job sawing.size pieces.now) sawing.size cell }
    ensures { SettledAt (under blocks.now sawing.d) sawing.kerf sawing.size pieces.now cell result }
{
    let size = sawing.size;
    let d = sawing.d;
    let mut at = cell;
    let mut chosen = choose(
        at,
        size,
        pieces,
        normal_lengths,
        normal_widths,
        floors,
        table,
        blocks,
        d,
    );
    while left_out(at, chosen, sawing.kerf) {
        at = first_cell(at, chosen);
        chosen = choose(
            at,
            size,
            pieces,
            normal_lengths,
            normal_widths,
            floors,
            table,
            blocks,
            d,
        );
    }
    Settled { cell: at, chosen }
}

// The node of the cell on top, which the parts of its cut replace, the second below the first. A cut stands at its position less the kerf.
fn next_node(
    waiting: &mut [u16; 6120],
    depth: usize,
    sawing: Sawing,
    pieces: &[u32; 640],
    normal_lengths: &[u16],
    normal_widths: &[u16],
    floors: &[u16],
    table: &[u64],
    blocks: &[u32],
) -> Step
    requires { Readable sawing blocks.now pieces.now normal_lengths.now normal_widths.now floors.now table.now × Waiting sawing.size pieces.now waiting.old depth × (0 < depth) }
    ensures { Stepped (under blocks.now sawing.d) sawing.kerf sawing.size pieces.now waiting.old waiting.new depth result }
{
    let top = depth - 1;
    let Settled { cell, chosen } = settle(
        waiting_cell(waiting, top),
        sawing,
        pieces,
        normal_lengths,
        normal_widths,
        floors,
        table,
        blocks,
    );
    let Node::Cut(d, x) = chosen.node else {
        return Step {
            node: chosen.node,
            depth: top,
        };
    };
    let rest = cut_side(d, cell.sides) - x;
    let second = Cell {
        sides: first_part(d, rest, cell.sides),
        share: cell.share - chosen.share,
    };
    put_cell(waiting, top, second);
    put_cell(waiting, depth, first_cell(cell, chosen));
    Step {
        node: Node::Cut(d, x - sawing.kerf),
        depth: depth + 1,
    }
}

// A node's kind as it is written: that of a cut goes by its direction.
fn written_kind(node: Node) -> u8
    ensures { result ≡ kind_of node }
{
    match node {
        Node::Cut(Direction::Length, _) => 2,
        Node::Cut(Direction::Width, _) => 3,
        Node::Waste => 0,
        Node::Piece(_) => 1,
        Node::Turned(_) => 4,
    }
}

// Puts a node's kind at a place of the list of kinds, if the list goes so far.
fn put_kind(kinds: &mut [u8], at: usize, node: Node)
    ensures { kinds.new ≡ set kinds.old at (kind_of node) }
{
    if at < kinds.len() {
        kinds[at] = written_kind(node);
    }
}

// Puts a node's operand at a place of the list of operands, if the list goes so far.
fn put_operand(operands: &mut [u16], at: usize, node: Node)
    ensures { operands.new ≡ set operands.old at (operand_of node) }
{
    if at < operands.len() {
        operands[at] = operand(node);
    }
}

// The number of nodes of the plan from the plate downward; lists them in preorder from the first entries on, as far as the lists go.
pub fn list_nodes(
    kinds: &mut [u8],
    operands: &mut [u16],
    sawing: Sawing,
    pieces: &[u32; 640],
    normal_lengths: &[u16],
    normal_widths: &[u16],
    floors: &[u16],
    table: &[u64],
    blocks: &[u32],
) -> usize
    requires { Readable sawing blocks.now pieces.now normal_lengths.now normal_widths.now floors.now table.now }
    ensures { NodesListed (sawn_plan sawing blocks.now pieces.now) kinds.old operands.old kinds.new operands.new result }
{
    let mut waiting = [0u16; 6120];
    let plate = plate_cell(sawing.size);
    put_cell(&mut waiting, 0, plate);
    let mut depth: usize = 1;
    let mut nodes: usize = 0;
    while 0 < depth {
        let step = next_node(
            &mut waiting,
            depth,
            sawing,
            pieces,
            normal_lengths,
            normal_widths,
            floors,
            table,
            blocks,
        );
        put_kind(kinds, nodes, step.node);
        put_operand(operands, nodes, step.node);
        depth = step.depth;
        nodes += 1;
    }
    nodes
}
