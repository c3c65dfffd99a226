// The copies of a written plan: counted node by node, and held to the demands of the kinds. A node that lays no piece of one of the 64
// kinds counts for none of them.
ghost use Rattle.std.specs.Prelude.{◌≡◌, not, ℕ, ◌+◌, ◌≤◌, ◌<◌, ltb, length, get_or};
ghost use Rattle.cutting.specs.Lists.{range, any};
ghost use Rattle.rounds.specs.Clauses.{lays, piece_here, pieces_in};

// Whether the copies of n kinds keep all demands.
pub fn keep_demands(copies: &[u16; 64], demands: &[u16; 64], n: u16) -> bool
    requires { n ≤ 64 }
    ensures { result ≡ not (any (λ i. ltb (get_or demands.now i 0) (get_or copies.now i 0)) (range 0 n)) }
{
    for i in 0..n {
        let k = i as usize;
        if demands[k] < copies[k] {
            return false;
        }
    }
    true
}

// Whether a node of a written plan is a piece, upright or turned.
fn is_piece(kind: u8) -> bool
    ensures { result ≡ lays kind }
{
    kind == 1 || kind == 4
}

// One node more of a written plan: a piece's copy is counted.
fn count_node(copies: &mut [u16; 64], kind: u8, operand: u16)
    requires { (length copies.old ≡ 64) × ((k : ℕ) → k < 64 → get_or copies.old k 0 < 65535) }
    ensures { (length copies.new ≡ 64) × ((k : ℕ) → k < 64 → get_or copies.new k 0 ≡ get_or copies.old k 0 + piece_here kind operand k) }
{
    let at = operand as usize;
    if is_piece(kind) && at < 64 {
        copies[at] += 1;
    }
}

// The copies of each of 64 kinds in the first nodes of a written plan.
pub fn count_copies(kinds: &[u8], operands: &[u16], nodes: usize) -> [u16; 64]
    requires { (nodes ≤ 4095) × (nodes ≤ length kinds.now) × (nodes ≤ length operands.now) }
    ensures { (k : ℕ) → k < 64 → get_or result k 0 ≡ pieces_in kinds.now operands.now nodes k }
{
    let mut copies = [0u16; 64];
    for i in 0..nodes {
        count_node(&mut copies, kinds[i], operands[i]);
    }
    copies
}
