// Check 26: the first idle cut of a plan, neither of whose parts holds a piece. The nodes from any node on are a row of trees. One scan,
// from the last node to the first, keeps one number: how many trees at the front of that row hold no piece. A cut is idle where its two
// parts are among them.
#![tactic(auto)]

ghost use Rattle.std.specs.Prelude.{◌≡◌, ◌+◌, ◌≤◌, length};
ghost use Rattle.cutting.specs.Limits.{most_nodes};
ghost use Rattle.promises.specs.declared.Refusal.TheVariants.{IdleCut};
ghost use Rattle.refusal.specs.Refusals.{next, refuse_when, first_refusal};
ghost use Rattle.idle.specs.Idle.{pieceless_from, is_idle, idle_checks};

use node::decode;
use promises::{Node, Refusal};
use refusal::refuse_if;

// The trees without a piece that begin at a node, from those that begin after it.
fn pieceless_from(node: Node, after: u16) -> u16
    requires { after ≤ most_nodes }
    ensures { result ≡ pieceless_from node after }
{
    match node {
        Node::Waste => after + 1,
        Node::Piece(_) | Node::Turned(_) => 0,
        Node::Cut(_, _) => after.saturating_sub(1),
    }
}

// Whether a node is an idle cut: the two trees after it, its parts, hold no piece.
fn is_idle(node: Node, after: u16) -> bool
    ensures { result ≡ is_idle node after }
{
    match node {
        Node::Cut(_, _) => 1 < after,
        _ => false,
    }
}

// The first idle cut in preorder, of nodes numbered from `first` on.
pub fn idle_cut(kinds: &[u8], first: usize) -> Result<(), Refusal>
    requires { first + length kinds.now ≤ most_nodes }
    ensures { result ≡ first_refusal (idle_checks first kinds.now) }
{
    let mut verdict = Ok(());
    let mut pieceless: u16 = 0;
    let mut k = kinds.len();
    while 0 < k {
        k -= 1;
        let node = decode(kinds[k], 0);
        let idle = is_idle(node, pieceless);
        verdict = refuse_if(idle, Refusal::IdleCut((first + k) as u16)).and(verdict);
        pieceless = pieceless_from(node, pieceless);
    }
    verdict
}
