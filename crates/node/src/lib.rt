// One node of a plan on the rectangle that it fills: refusals 12 to 16 and 36, and what the node adds to the sums and to the copies of its
// kind. The job's arrays and the copies are lent, so that a walk over many nodes copies none of them.
#![tactic(auto)]

ghost use Rattle.std.specs.Prelude.{◌≡◌, Bool, true, ◌&&◌, List, ℕ, ◌+◌, ◌-◌, ◌≤◌, ◌<◌, ◌^◌, eqb};
ghost use Rattle.promises.specs.declared.Node.TheVariants.{Cut};
ghost use Rattle.cutting.specs.Tree.{side};
ghost use Rattle.cutting.specs.Sides.{rect_of, sides_of};
ghost use Rattle.cutting.specs.Pieces.{fits_in};
ghost use Rattle.cutting.specs.Areas.{area, breadth};
ghost use Rattle.cutting.specs.Job.{Job};
ghost use Rattle.job.specs.Block.{outside, job_from};
ghost use Rattle.node.specs.Nodes.{node_of, most_kind, with_waste, with_piece, with_cut};
ghost use Rattle.node.specs.Placed.{Sized, Grows, Placed, lying_as, laying};

use cutting::{Sides, cut_side, fits, turn};
use promises::{Direction, Node, Refusal};
use refusal::refuse_if;

// The sums over the nodes read: profit, and the areas of pieces, waste nodes, trim and sawdust.
#[derive(Clone, Copy, Drop)]
pub struct Tally {
    pub profit: u64,
    pub pieces: u64,
    pub waste: u64,
    pub trim: u64,
    pub sawdust: u64,
}

// A node as a plan's arrays have it: its place, its kind and its operand.
#[derive(Clone, Copy, Drop)]
pub struct NodeEntry {
    pub at: u16,
    pub kind: u8,
    pub operand: u16,
}

// What a job says of every node: how many kinds there are, whether pieces may be turned, and the kerf.
#[derive(Clone, Copy, Drop)]
pub struct Rules {
    pub count: u16,
    pub turning: bool,
    pub kerf: u16,
}

// A node that lays a piece: its place, the number of its kind, and whether it is turned.
#[derive(Clone, Copy, Drop)]
struct PieceEntry {
    at: u16,
    number: u16,
    turned: bool,
}

// The area of a rectangle.
fn area(s: Sides) -> u64
    ensures { (result ≡ area (rect_of s)) × (result < 2 ^ 32) }
{
    s.length as u64 * s.width as u64
}

// The node of a kind from 0 to 4.
pub fn decode(kind: u8, operand: u16) -> Node
    ensures { result ≡ node_of kind operand }
{
    match kind {
        0 => Node::Waste,
        1 => Node::Piece(operand),
        2 => Node::Cut(Direction::Length, operand),
        3 => Node::Cut(Direction::Width, operand),
        _ => Node::Turned(operand),
    }
}

// The greatest kind of a node.
fn last_kind(turning: bool) -> u8
    ensures { result ≡ most_kind turning }
{
    if turning { 4 } else { 3 }
}

// The size of a piece as it lies.
fn lay(upright: Sides, turned: bool) -> Sides
    ensures { result ≡ sides_of (lying_as turned (rect_of upright)) }
{
    if turned { turn(upright) } else { upright }
}

// Whether a piece is turned of a kind that keeps its grain, by the kind's grain byte.
fn against_grain(turned: bool, grain: u8) -> bool
    ensures { result ≡ (turned && eqb grain 1) }
{
    turned && grain == 1
}

// Whether a cut's position is outside 1 to the side less the kerf less 1.
fn outside_cut(d: Direction, x: u16, kerf: u16, whole: Sides) -> bool
    ensures { result ≡ outside 1 (side d (rect_of whole) - kerf - 1) x }
{
    x < 1 || cut_side(d, whole) as u32 <= x as u32 + kerf as u32
}

// The side along which a cut runs.
fn cut_breadth(d: Direction, whole: Sides) -> u16
    ensures { result ≡ breadth d (rect_of whole) }
{
    match d {
        Direction::Length => whole.width,
        Direction::Width => whole.length,
    }
}

// The sums with a waste node more.
fn add_waste(room: Sides, t: Tally) -> Tally
    requires { Sized 4094 t }
    ensures { (result ≡ with_waste (rect_of room) t) × Grows t result }
{
    Tally {
        waste: t.waste + area(room),
        ..t
    }
}

// The sums with a piece more.
fn add_piece(price: u32, piece: Sides, room: Sides, t: Tally) -> Tally
    requires { Sized 4094 t × (fits_in (rect_of piece) (rect_of room) ≡ true) }
    ensures { (result ≡ with_piece price (rect_of piece) (rect_of room) t) × Grows t result }
{
    let used = area(piece);
    let left = area(room) - used;
    Tally {
        profit: t.profit + price as u64,
        pieces: t.pieces + used,
        trim: t.trim + left,
        ..t
    }
}

// The sums with a cut more: the sawdust is what the blade takes, the kerf by the side along which the cut runs.
fn add_cut(d: Direction, kerf: u16, room: Sides, t: Tally) -> Tally
    requires { Sized 4094 t }
    ensures { (result ≡ with_cut kerf d (rect_of room) t) × Grows t result }
{
    let taken = Sides {
        length: kerf,
        width: cut_breadth(d, room),
    };
    Tally {
        sawdust: t.sawdust + area(taken),
        ..t
    }
}

// A waste node.
fn place_waste(at: u16, operand: u16, room: Sides, t: Tally) -> Result<Tally, Refusal>
    requires { Sized 4094 t }
    ensures { (J : Job) (copies : List ℕ) → Placed J at 0 operand (rect_of room) t copies result copies }
{
    refuse_if(operand != 0, Refusal::Operand(at))?;
    Ok(add_waste(room, t))
}

// A piece node: its copy is counted.
fn place_piece(
    copies: &mut [u16; 64],
    kind_lengths: &[u16; 64],
    kind_widths: &[u16; 64],
    prices: &[u32; 64],
    demands: &[u16; 64],
    grains: &[u8; 64],
    count: u16,
    node: PieceEntry,
    room: Sides,
    t: Tally,
) -> Result<Tally, Refusal>
    requires { Sized 4094 t × (count ≤ 64) }
    ensures { (l w kerf : ℕ) (turning full : Bool) (kind operand : ℕ) → kind ≤ most_kind turning → node_of kind operand ≡ laying node.turned node.number
        → Placed (job_from l w kerf turning full count kind_lengths.now kind_widths.now prices.now demands.now grains.now) node.at kind operand (rect_of room) t copies.old result copies.new }
{
    let at = node.at;
    refuse_if(count <= node.number, Refusal::PieceNumber(at))?;
    let k = node.number as usize;
    refuse_if(
        against_grain(node.turned, grains[k]),
        Refusal::AgainstGrain(at),
    )?;
    let upright = Sides {
        length: kind_lengths[k],
        width: kind_widths[k],
    };
    let piece = lay(upright, node.turned);
    refuse_if(!fits(piece, room), Refusal::Misfit(at))?;
    refuse_if(demands[k] <= copies[k], Refusal::Excess(at))?;
    copies[k] += 1;
    Ok(add_piece(prices[k], piece, room, t))
}

// A cut: its sawdust is counted, and its parts are left to be filled.
fn place_cut(
    d: Direction,
    x: u16,
    kerf: u16,
    at: u16,
    room: Sides,
    t: Tally,
) -> Result<Tally, Refusal>
    requires { Sized 4094 t }
    ensures { (J : Job) (copies : List ℕ) (kind operand : ℕ) → J.kerf ≡ kerf → kind ≤ most_kind J.turning → node_of kind operand ≡ Cut d x → Placed J at kind operand (rect_of room) t copies result copies }
{
    refuse_if(outside_cut(d, x, kerf, room), Refusal::Operand(at))?;
    Ok(add_cut(d, kerf, room, t))
}

// One node on its rectangle, after the copies before it: checks 12 to 16 and 36, and where they pass it is counted.
pub fn check_node(
    kind_lengths: &[u16; 64],
    kind_widths: &[u16; 64],
    prices: &[u32; 64],
    demands: &[u16; 64],
    grains: &[u8; 64],
    copies: &mut [u16; 64],
    rules: Rules,
    node: NodeEntry,
    room: Sides,
    t: Tally,
) -> Result<Tally, Refusal>
    requires { Sized 4094 t × (rules.count ≤ 64) }
    ensures { (l w : ℕ) (full : Bool) → Placed (job_from l w rules.kerf rules.turning full rules.count kind_lengths.now kind_widths.now prices.now demands.now grains.now) node.at node.kind node.operand (rect_of room) t copies.old result copies.new }
{
    let at = node.at;
    refuse_if(last_kind(rules.turning) < node.kind, Refusal::NodeKind(at))?;
    match decode(node.kind, node.operand) {
        Node::Waste => place_waste(at, node.operand, room, t),
        Node::Piece(number) => place_piece(
            copies,
            kind_lengths,
            kind_widths,
            prices,
            demands,
            grains,
            rules.count,
            PieceEntry {
                at,
                number,
                turned: false,
            },
            room,
            t,
        ),
        Node::Turned(number) => place_piece(
            copies,
            kind_lengths,
            kind_widths,
            prices,
            demands,
            grains,
            rules.count,
            PieceEntry {
                at,
                number,
                turned: true,
            },
            room,
            t,
        ),
        Node::Cut(d, x) => place_cut(d, x, rules.kerf, at, room, t),
    }
}
