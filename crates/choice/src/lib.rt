// The choice at a cell of a filled table, a rectangle and a share: what the plan behind the bound does there. Waste where the figure is
// 0, or the first piece of the array that earns the figure, or the first length cut that earns it, or the first width cut. A share is a
// state, a number of several digits, and is divided without a carry; one digit: any number up to it.
#![tactic(auto)]

ghost use Rattle.std.specs.Prelude.{◌≡◌, ◌&&◌, ◌+◌, ◌*◌, ◌<◌, eqb, drop};
ghost use Rattle.cutting.specs.Lists.{range, first};
ghost use Rattle.cutting.specs.Pieces.{fits_in};
ghost use Rattle.cutting.specs.Sides.{rect_of};
ghost use Rattle.table.specs.Clauses.{size_job};
ghost use Rattle.states.specs.States.{under};
ghost use Rattle.choice.specs.Search.{numbered_node, piece_test, piece_found, Numbered, Ordered, first_index, cut_found, length_search, width_search, cut_chosen, Searchable};
ghost use Rattle.choice.specs.Choice.{ChoiceInput, Inside, chosen_at};

use cutting::Sides;
use promises::{Direction, Node};
use states::below;
use table::TableSize;

// A cell: a rectangle and a share.
#[derive(Clone, Copy, Drop)]
pub struct Cell {
    pub sides: Sides,
    pub share: u16,
}

// What the plan does with a rectangle: the node, and of a cut the first part's share.
#[derive(Clone, Copy, Drop)]
pub struct Chosen {
    pub node: Node,
    pub share: u16,
}

// Where a cell stands in the table: the indexes of its tabled length and width, and its figure.
#[derive(Clone, Copy, Drop)]
struct Place {
    pub a: usize,
    pub b: usize,
    pub value: u64,
}

// A search for a cut of a cell in one direction: the side that is cut and the index of its tabled length, the words from one row of the
// table to the next and the word where row 0 begins, the share that is divided and the value that is to be earned.
#[derive(Clone, Copy, Drop)]
struct CutSearch {
    pub side: usize,
    pub last: usize,
    pub stride: usize,
    pub base: usize,
    pub share: usize,
    pub value: u64,
}

// The node of a number: 2i lays kind i upright, and 2i + 1 lays it turned.
fn numbered_node(number: u32) -> Node
    requires { number < 128 }
    ensures { result ≡ numbered_node number }
{
    let kind = (number / 2) as u16;
    if number % 2 == 0 {
        Node::Piece(kind)
    } else {
        Node::Turned(kind)
    }
}

// Whether one piece fits the cell, has a state within the share and the value as its price.
fn piece_earns(
    piece_length: u32,
    piece_width: u32,
    price: u32,
    state: u32,
    blocks: &[u32],
    d: usize,
    cell: Cell,
    value: u64,
) -> bool
    requires { Ordered blocks.now d }
    ensures { result ≡ ((fits_in (piece_length, piece_width) (rect_of cell.sides) && under blocks.now d state cell.share) && eqb price value) }
{
    piece_length <= cell.sides.length as u32
        && piece_width <= cell.sides.width as u32
        && below(blocks, d, state as usize, cell.share as usize)
        && price as u64 == value
}

// The node that lays the lowest-numbered piece that earns a value alone.
fn find_piece(
    count: u16,
    pieces: &[u32; 640],
    blocks: &[u32],
    d: usize,
    cell: Cell,
    value: u64,
) -> Option<Node>
    requires { Numbered count pieces.now × Ordered blocks.now d }
    ensures { result ≡ piece_found pieces.now (first (piece_test (under blocks.now d) pieces.now cell value) (range 0 count)) }
{
    for j in 0..count as usize {
        let at = 5 * j;
        let earns = piece_earns(
            pieces[at],
            pieces[at + 1],
            pieces[at + 2],
            pieces[at + 3],
            blocks,
            d,
            cell,
            value,
        );
        if earns {
            return Some(numbered_node(pieces[at + 4]));
        }
    }
    None
}

// Whether a sum is the value and share k is within share c.
fn pair_earns(blocks: &[u32], d: usize, k: usize, c: usize, sum: u64, value: u64) -> bool
    requires { Ordered blocks.now d }
    ensures { result ≡ (eqb sum value && under blocks.now d k c) }
{
    sum == value && below(blocks, d, k, c)
}

// The first pair of a cut's position and the first part's share that earns a value: positions rising, and for each the shares rising. The row of the i-th
// position begins at word i * stride + base; the remainder's row is that of its floor.
fn find_cut(
    positions: &[u16],
    floors: &[u16],
    table: &[u64],
    blocks: &[u32],
    d: usize,
    cut: CutSearch,
) -> Option<(u16, u16)>
    requires { Searchable positions.now floors.now table.now cut × Ordered blocks.now d }
    ensures { result ≡ cut_found positions.now (first_index (under blocks.now d) positions.now floors.now table.now cut) }
{
    let stride = cut.stride;
    let base = cut.base;
    let c = cut.share;
    let shares = c + 1;
    let mut found = None;
    'search: for i in 1..cut.last {
        let x = positions[i];
        let rest = floors[cut.side - x as usize] as usize;
        let first = i * stride + base;
        let second = rest * stride + base + c;
        for k in 0..shares {
            let sum = table[first + k] + table[second - k];
            if pair_earns(blocks, d, k, c, sum, cut.value) {
                found = Some((x, k as u16));
                break 'search;
            }
        }
    }
    found
}

// The search for a length cut of a cell. A row of the table has the words of one normal length, the a-th; those of one normal width in it,
// the b-th, stand together.
fn length_search(size: TableSize, cell: Cell, place: Place) -> CutSearch
    requires { place.b * (size.capacity + 1) < 18446744073709551616 }
    ensures { result ≡ length_search size cell place }
{
    let shares = size.capacity as usize + 1;
    CutSearch {
        side: cell.sides.length as usize,
        last: place.a,
        stride: size.columns as usize * shares,
        base: place.b * shares,
        share: cell.share as usize,
        value: place.value,
    }
}

// The search for a width cut of a cell.
fn width_search(size: TableSize, cell: Cell, place: Place) -> CutSearch
    requires { place.a * (size.columns * (size.capacity + 1)) < 18446744073709551616 }
    ensures { result ≡ width_search size cell place }
{
    let shares = size.capacity as usize + 1;
    let row = size.columns as usize * shares;
    CutSearch {
        side: cell.sides.width as usize,
        last: place.b,
        stride: shares,
        base: place.a * row,
        share: cell.share as usize,
        value: place.value,
    }
}

// The first length cut that earns a cell's figure, or failing all the first width cut, or waste.
fn choose_cut(
    cell: Cell,
    place: Place,
    size: TableSize,
    normal_lengths: &[u16],
    normal_widths: &[u16],
    floors: &[u16],
    table: &[u64],
    blocks: &[u32],
    d: usize,
) -> Chosen
    requires { Searchable normal_lengths.now floors.now table.now (length_search size cell place)
        × Searchable normal_widths.now (drop 1021 floors.now) table.now (width_search size cell place) × Ordered blocks.now d }
    ensures { result ≡ cut_chosen (under blocks.now d) normal_lengths.now normal_widths.now floors.now table.now size cell place }
{
    let along = length_search(size, cell, place);
    if let Some((x, share)) = find_cut(normal_lengths, floors, table, blocks, d, along) {
        return Chosen {
            node: Node::Cut(Direction::Length, x),
            share,
        };
    }
    let rest = &floors[1021..];
    let across = width_search(size, cell, place);
    if let Some((x, share)) = find_cut(normal_widths, rest, table, blocks, d, across) {
        return Chosen {
            node: Node::Cut(Direction::Width, x),
            share,
        };
    }
    Chosen {
        node: Node::Waste,
        share: 0,
    }
}

// The choice at a cell: figure 0 gives waste; otherwise the lowest-numbered piece that earns the figure; otherwise a cut. The floors are
// those of the lengths from entry 0 on, and those of the widths from entry 1021 on; d is the last digit of the states.
pub fn choose(
    cell: Cell,
    size: TableSize,
    pieces: &[u32; 640],
    normal_lengths: &[u16],
    normal_widths: &[u16],
    floors: &[u16],
    table: &[u64],
    blocks: &[u32],
    d: usize,
) -> Chosen
    requires { ChoiceInput size blocks.now d pieces.now normal_lengths.now normal_widths.now floors.now table.now × Inside (size_job size pieces.now) size cell }
    ensures { result ≡ chosen_at (under blocks.now d) size pieces.now cell }
{
    let a = floors[cell.sides.length as usize] as usize;
    let b = floors[1021 + cell.sides.width as usize] as usize;
    let shares = size.capacity as usize + 1;
    let row = size.columns as usize * shares;
    let value = table[a * row + b * shares + cell.share as usize];
    if value == 0 {
        return Chosen {
            node: Node::Waste,
            share: 0,
        };
    }
    if let Some(node) = find_piece(size.count, pieces, blocks, d, cell, value) {
        return Chosen { node, share: 0 };
    }
    let place = Place { a, b, value };
    choose_cut(
        cell,
        place,
        size,
        normal_lengths,
        normal_widths,
        floors,
        table,
        blocks,
        d,
    )
}
