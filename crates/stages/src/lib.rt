// Check 22, check 23 and the stages of a plan that passed: a walk below length cuts and a walk below width cuts that call each other where the
// direction changes. Cuts that keep the direction only add to the trees that wait, so that the walks nest no deeper than the limit.
#![tactic(auto)]

ghost use Rattle.std.specs.Prelude.{◌≡◌, ◌+◌, ◌-◌, ◌<◌, ◌≤◌, max, length, Ok};
ghost use Rattle.promises.specs.declared.Direction.TheVariants.{Length, Width};
ghost use Rattle.cutting.specs.Shares.{other};
ghost use Rattle.cutting.specs.Limits.{most_nodes, most_limit};
ghost use Rattle.job.specs.Block.{outside};
ghost use Rattle.std.specs.Result.{ForErr};
ghost use Rattle.stages.specs.Walks.{cut_kind, pass, Along, Resumed, Stands, Walked, StagesOf, NamesNode};

use promises::{Direction, Refusal};
use refusal::refuse_if;

// How a walk ends: before the node after its trees, with the stages that they need.
#[derive(Clone, Copy, Drop)]
struct Walk {
    next: u16,
    stages: u8,
}

// How far a walk has come: the node that it reads next, the trees that wait there, the most stages met.
#[derive(Clone, Copy, Drop)]
struct Reach {
    next: u16,
    waiting: u16,
    most: u8,
}

// Where a walk stands: at a cut that changes the direction, whose parts are walked next; or at its end.
#[derive(Clone, Copy, Drop)]
enum Step {
    Change(Reach),
    End(Walk),
}

// Whether a limit is outside 1 to 8.
pub fn limit_outside(limit: u32) -> bool
    ensures { result ≡ outside 1 most_limit limit }
{
    limit < 1 || 8 < limit
}

// The kind of a cut in a direction.
fn cut_kind(d: Direction) -> u8
    ensures { result ≡ cut_kind d }
{
    match d {
        Direction::Length => 2,
        Direction::Width => 3,
    }
}

// One node passed: a cut that keeps the direction, or a waste or piece.
fn pass(keeps: bool, s: Reach) -> Reach
    requires { (0 < s.waiting) × (s.waiting ≤ s.next + 2) × (s.next < most_nodes) }
    ensures { result ≡ pass keeps s }
{
    if keeps {
        return Reach {
            next: s.next + 1,
            waiting: s.waiting + 1,
            most: s.most.max(1),
        };
    }
    Reach {
        next: s.next + 1,
        waiting: s.waiting - 1,
        most: s.most,
    }
}

// A walk on to where the direction changes, or to its end; refused at a change for which no stage is left.
fn along(kinds: &[u8], d: Direction, left: u8, from: Reach) -> Result<Step, Refusal>
    requires { (from.next ≤ length kinds.now) × (from.waiting ≤ from.next + 2) × (length kinds.now ≤ most_nodes) × (1 ≤ left) }
    ensures { Along d kinds.now left from result }
{
    let own = cut_kind(d);
    let mut s = from;
    while 0 < s.waiting && (s.next as usize) < kinds.len() {
        let kind = kinds[s.next as usize];
        if kind == 5 - own {
            refuse_if(left < 2, Refusal::ManyStages(s.next))?;
            return Ok(Step::Change(s));
        }
        s = pass(kind == own, s);
    }
    Ok(Step::End(Walk {
        next: s.next,
        stages: s.most,
    }))
}

// A walk of the two trees from node `at` on, to where it first stands.
fn begin(kinds: &[u8], d: Direction, left: u8, at: u16) -> Result<Step, Refusal>
    requires { (at ≤ length kinds.now) × (length kinds.now ≤ most_nodes) × (1 ≤ left) }
    ensures { Stands d kinds.now left at result }
{
    let first = Reach {
        next: at,
        waiting: 2,
        most: 0,
    };
    along(kinds, d, left, first)
}

// A walk on from a cut that changed the direction, by how the walk of its parts ended.
fn resume(kinds: &[u8], d: Direction, left: u8, s: Reach, parts: Walk) -> Result<Step, Refusal>
    requires { (s.next < length kinds.now) × (0 < s.waiting) × (s.waiting ≤ s.next + 2) × (length kinds.now ≤ most_nodes) × (1 ≤ left) × (left ≤ most_limit) × Walked (other d) kinds.now (s.next + 1) (left - 1) (Ok parts) }
    ensures { Resumed d kinds.now left s result }
{
    let after = Reach {
        next: parts.next,
        waiting: s.waiting - 1,
        most: s.most.max(parts.stages.max(1) + 1),
    };
    along(kinds, d, left, after)
}

// The two parts of a length cut, from node `at` on, where so many stages are left, its own among them.
#[cycle(length_stage_width_stage)]
fn length_stage(kinds: &[u8], at: u16, left: u8) -> Result<Walk, Refusal>
    requires { (at ≤ length kinds.now) × (length kinds.now ≤ most_nodes) × (1 ≤ left) × (left ≤ most_limit) }
    ensures { Walked Length kinds.now at left result }
{
    let mut step = begin(kinds, Direction::Length, left, at)?;
    loop {
        match step {
            Step::End(walk) => return Ok(walk),
            Step::Change(s) => {
                let parts = width_stage(kinds, s.next + 1, left - 1)?;
                step = resume(kinds, Direction::Length, left, s, parts)?;
            }
        }
    }
}

// The same for a width cut.
#[cycle(length_stage_width_stage)]
fn width_stage(kinds: &[u8], at: u16, left: u8) -> Result<Walk, Refusal>
    requires { (at ≤ length kinds.now) × (length kinds.now ≤ most_nodes) × (1 ≤ left) × (left ≤ most_limit) }
    ensures { Walked Width kinds.now at left result }
{
    let mut step = begin(kinds, Direction::Width, left, at)?;
    loop {
        match step {
            Step::End(walk) => return Ok(walk),
            Step::Change(s) => {
                let parts = length_stage(kinds, s.next + 1, left - 1)?;
                step = resume(kinds, Direction::Width, left, s, parts)?;
            }
        }
    }
}

// The stages of a plan that passed its check, or refusal 23 of the first cut in preorder whose path passes the limit.
// The first cut begins the first stage.
pub fn stages_within(kinds: &[u8], limit: u8) -> Result<u8, Refusal>
    requires { (1 ≤ length kinds.now) × (length kinds.now ≤ most_nodes) × (1 ≤ limit) × (limit ≤ most_limit) }
    ensures stages { StagesOf kinds.now limit result }
    ensures named { ForErr result NamesNode }
{
    let parts = match kinds[0] {
        2 => length_stage(kinds, 1, limit)?,
        3 => width_stage(kinds, 1, limit)?,
        _ => return Ok(0),
    };
    Ok(parts.stages.max(1))
}
