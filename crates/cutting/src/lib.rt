// The node of a plan, the sides of a rectangle and the parts of a cut, shared by specifications and code. Everything else of this crate
// is mathematics: specs/ defines guillotine trees, the relaxed recursion, normal positions and the plan behind the bound; proofs/ has
// the theory.
#![tactic(auto)]

ghost use Rattle.std.specs.Prelude.{◌≡◌, ◌+◌, ◌-◌, ◌≤◌};
ghost use Rattle.cutting.specs.Limits.{most_side, most_kerf};
ghost use Rattle.cutting.specs.Tree.{side, part};
ghost use Rattle.cutting.specs.Pieces.{quarter, wider, fits_in};
ghost use Rattle.cutting.specs.Sides.{rect_of, sides_of};
ghost use Rattle.cutting.specs.Preorder.{kind_of, operand_of};

use promises::{Direction, Node};

// A node's kind as a number.
pub fn kind_number(node: Node) -> u8
    ensures { result ≡ kind_of node }
{
    match node {
        Node::Waste => 0,
        Node::Piece(_) => 1,
        Node::Turned(_) => 4,
        Node::Cut(Direction::Length, _) => 2,
        Node::Cut(Direction::Width, _) => 3,
    }
}

// A node's operand.
pub fn operand(node: Node) -> u16
    ensures { result ≡ operand_of node }
{
    match node {
        Node::Waste => 0,
        Node::Piece(i) | Node::Turned(i) => i,
        Node::Cut(_, x) => x,
    }
}

// The sides of a rectangle.
#[derive(Clone, Copy, Drop)]
pub struct Sides {
    pub length: u16,
    pub width: u16,
}

// A rectangle turned by a quarter.
pub fn turn(upright: Sides) -> Sides
    ensures { result ≡ sides_of (quarter (rect_of upright)) }
{
    Sides {
        length: upright.width,
        width: upright.length,
    }
}

// A rectangle with the kerf added to both sides.
pub fn widen(sides: Sides, kerf: u16) -> Sides
    requires { (sides.length ≤ most_side) × (sides.width ≤ most_side) × (kerf ≤ most_kerf) }
    ensures { result ≡ sides_of (wider kerf (rect_of sides)) }
{
    Sides {
        length: sides.length + kerf,
        width: sides.width + kerf,
    }
}

// Whether a piece fits a rectangle: neither side is greater.
pub fn fits(piece: Sides, room: Sides) -> bool
    ensures { result ≡ fits_in (rect_of piece) (rect_of room) }
{
    piece.length <= room.length && piece.width <= room.width
}

// The side that a cut divides.
pub fn cut_side(d: Direction, whole: Sides) -> u16
    ensures { result ≡ side d (rect_of whole) }
{
    match d {
        Direction::Length => whole.length,
        Direction::Width => whole.width,
    }
}

// The first part of a cut: x on the side that is cut, the other side whole.
pub fn first_part(d: Direction, x: u16, whole: Sides) -> Sides
    ensures { result ≡ sides_of (part d x (rect_of whole)) }
{
    match d {
        Direction::Length => Sides { length: x, ..whole },
        Direction::Width => Sides { width: x, ..whole },
    }
}

// The second part of a cut: what the cut and the kerf leave of the side.
pub fn second_part(d: Direction, x: u16, kerf: u16, whole: Sides) -> Sides
    requires { x + kerf ≤ side d (rect_of whole) }
    ensures { result ≡ sides_of (part d (side d (rect_of whole) - x - kerf) (rect_of whole)) }
{
    let rest = cut_side(d, whole) - x - kerf;
    first_part(d, rest, whole)
}
