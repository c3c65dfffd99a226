// Refusals: a named case for each condition of the table of refusals, with its place where it has one, and the answer of a check.
// Numbers and places are given once, by specs/Refusals; every other crate hands refusals on as they are.
#![tactic(auto)]

ghost use Rattle.std.specs.Prelude.{◌≡◌};
ghost use Rattle.refusal.specs.Refusals.{number_of, place_of, refuse_when};

use promises::Refusal;

// A line of the table: the number and the place.
#[derive(Clone, Copy, Drop)]
struct Line(u16, u64);

// The table's line of a refusal.
fn line_of(r: Refusal) -> Line
    ensures { (result.0 ≡ number_of r) × (result.1 ≡ place_of r) }
{
    match r {
        Refusal::ShortHeader => Line(1, 0),
        Refusal::PlateSide => Line(2, 0),
        Refusal::RackSide(k) => Line(2, k as u64),
        Refusal::KindCount => Line(3, 0),
        Refusal::BlockLength => Line(4, 0),
        Refusal::KindSide(k) => Line(5, k as u64),
        Refusal::Price(k) => Line(6, k as u64),
        Refusal::Demand(k) => Line(7, k as u64),
        Refusal::WeightCount => Line(8, 0),
        Refusal::Capacity => Line(9, 0),
        Refusal::PlanLength => Line(10, 0),
        Refusal::NodeCount => Line(11, 0),
        Refusal::NodeKind(k) => Line(12, k as u64),
        Refusal::PieceNumber(k) => Line(13, k as u64),
        Refusal::Operand(k) => Line(14, k as u64),
        Refusal::Misfit(k) => Line(15, k as u64),
        Refusal::Excess(k) => Line(16, k as u64),
        Refusal::NodeMissing(k) => Line(17, k as u64),
        Refusal::NodeLeft(k) => Line(18, k as u64),
        Refusal::ListShort => Line(19, 0),
        Refusal::TableShort(n) => Line(20, n),
        Refusal::PlanLong(n) => Line(21, n),
        Refusal::StageLimit => Line(22, 0),
        Refusal::ManyStages(k) => Line(23, k as u64),
        Refusal::SecondCount => Line(24, 0),
        Refusal::CapacityProduct => Line(25, 0),
        Refusal::IdleCut(k) => Line(26, k as u64),
        Refusal::Kerf => Line(27, 0),
        Refusal::RackSize => Line(28, 0),
        Refusal::RackDemand(k) => Line(29, k as u64),
        Refusal::DemandProduct => Line(30, 0),
        Refusal::SizesLength => Line(31, 0),
        Refusal::TrueSize(k) => Line(32, k as u64),
        Refusal::NoModel(k) => Line(33, k as u64),
        Refusal::TrueMisfit(k) => Line(34, k as u64),
        Refusal::Grain(k) => Line(35, k as u64),
        Refusal::AgainstGrain(k) => Line(36, k as u64),
        Refusal::MultiplierCount => Line(37, 0),
        Refusal::Multiplier(k) => Line(38, k as u64),
    }
}

// The table's number of a refusal.
pub fn number(r: Refusal) -> u16
    ensures { result ≡ number_of r }
{
    line_of(r).0
}

// The table's place of a refusal.
pub fn place(r: Refusal) -> u64
    ensures { result ≡ place_of r }
{
    line_of(r).1
}

// One line of the table: refused where its condition holds.
pub fn refuse_if(condition: bool, r: Refusal) -> Result<(), Refusal>
    ensures { result ≡ refuse_when condition r }
{
    if condition { Err(r) } else { Ok(()) }
}
