// The pieces that may lie, numbered: the kinds that are ordered, rising, each upright, and then turned where it may be turned. Normal
// positions, fills and the choice read them from one array; what they compute knows nothing of turning, of grain, of cancelled kinds and of
// the kerf, which is added to every side here.
#![tactic(auto)]

ghost use Rattle.std.specs.Prelude.{◌≡◌, List, [], ◌++◌, ℕ, ◌≤◌, ◌<◌, leb, length};
ghost use Rattle.cutting.specs.Lists.{keep, each};
ghost use Rattle.cutting.specs.Sides.{sides_of};
ghost use Rattle.cutting.specs.Pieces as laid;
ghost use Rattle.cutting.specs.Pieces.{ways};
ghost use Rattle.cutting.specs.Job.{Job, InRange, widened};
ghost use Rattle.cutting.specs.Listed.{PieceArray};
ghost use Rattle.job.specs.Block.{job_of};
ghost use Rattle.job.specs.Weights.{weight_in};
ghost use Rattle.pieces.specs.Clauses.{turned_piece, with_piece, entry_of, Listed};

use cutting::{Sides, turn, widen};
use job::may_turn;
use promises::JobRecord;

// What the array holds of a piece: its size as it lies, its price and its weight, and its node: twice the number of its kind, and 1 more
// where it is turned.
#[derive(Clone, Copy, Drop)]
struct Piece {
    size: Sides,
    price: u32,
    weight: u8,
    node: u32,
}

// The plate's sides, the kerf added.
pub fn plate_of(job: JobRecord) -> Sides
    requires { InRange (job_of job) }
    ensures { result ≡ sides_of (widened (job_of job)).plate }
{
    let plate = Sides {
        length: job.length,
        width: job.width,
    };
    widen(plate, job.kerf)
}

// The same piece turned.
fn turned(piece: Piece) -> Piece
    requires { piece.node < 128 }
    ensures { result ≡ turned_piece piece }
{
    Piece {
        size: turn(piece.size),
        node: piece.node + 1,
        ..piece
    }
}

// Puts a piece at a place of the array.
fn put_piece(pieces: &mut [u32; 640], j: usize, piece: Piece)
    requires { (j < 128) × (length pieces.old ≡ 640) }
    ensures { pieces.new ≡ with_piece pieces.old j piece }
{
    let at = 5 * j;
    pieces[at] = u32::from(piece.size.length);
    pieces[at + 1] = u32::from(piece.size.width);
    pieces[at + 2] = piece.price;
    pieces[at + 3] = u32::from(piece.weight);
    pieces[at + 4] = piece.node;
}

// Puts a kind behind n pieces in every way in which it may lie, none where it is cancelled; answers how many pieces there are then.
fn put_kind(pieces: &mut [u32; 640], n: usize, piece: Piece, demand: u16, turns: bool) -> usize
    requires { (n < 127) × (length pieces.old ≡ 640) × (piece.node < 128) }
    ensures { (J : Job) (weight : ℕ → ℕ) (ps : List laid.Piece) (i : ℕ) → Listed J weight ps n pieces.old → piece ≡ entry_of J weight (laid.upright i)
        → Listed J weight (ps ++ each (ways turns) (keep (leb 1 demand) i [])) result pieces.new }
{
    if demand == 0 {
        return n;
    }
    put_piece(pieces, n, piece);
    if turns {
        put_piece(pieces, n + 1, turned(piece));
        return n + 2;
    }
    n + 1
}

// Lists the pieces of a job with their weights into the array, the kerf added to every side; answers how many.
pub fn list_pieces(job: JobRecord, weights: &[u8], pieces: &mut [u32; 640]) -> u16
    requires { InRange (job_of job) × (job.count ≤ length weights.now) × (length pieces.old ≡ 640) }
    ensures { PieceArray (widened (job_of job)) (weight_in weights.now) result pieces.new }
{
    let mut n: usize = 0;
    for i in 0..job.count {
        let k = i as usize;
        let upright = Sides {
            length: job.lengths[k],
            width: job.widths[k],
        };
        let piece = Piece {
            size: widen(upright, job.kerf),
            price: job.prices[k],
            weight: weights[k],
            node: 2 * (i as u32),
        };
        let turns = may_turn(job.turning, job.grains[k]);
        n = put_kind(pieces, n, piece, job.demands[k], turns);
    }
    n as u16
}
