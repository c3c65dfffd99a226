// What the calls take and report: the types that every contract names. A call answers a `Result` whose error is the refusal. No code: specs/ has what is promised of them.
#![tactic(auto)]

// What a cut divides: the length or the width.
#[derive(Clone, Copy, Drop)]
pub enum Direction {
    Length,
    Width,
}

// A node of a plan: a piece, upright or turned, carries its kind's number, a cut its direction and its position.
#[derive(Clone, Copy, Drop)]
pub enum Node {
    Waste,
    Piece(u16),
    Turned(u16),
    Cut(Direction, u16),
}

// The conditions of the table of refusals, in the order of their numbers, with their places; 2 is the job's own plate, or a plate of a rack.
#[derive(Clone, Copy, Drop)]
pub enum Refusal {
    ShortHeader,
    PlateSide,
    RackSide(u16),
    KindCount,
    BlockLength,
    KindSide(u16),
    Price(u16),
    Demand(u16),
    WeightCount,
    Capacity,
    PlanLength,
    NodeCount,
    NodeKind(u16),
    PieceNumber(u16),
    Operand(u16),
    Misfit(u16),
    Excess(u16),
    NodeMissing(u16),
    NodeLeft(u16),
    ListShort,
    TableShort(u64),
    PlanLong(u64),
    StageLimit,
    ManyStages(u16),
    SecondCount,
    CapacityProduct,
    IdleCut(u16),
    Kerf,
    RackSize,
    RackDemand(u16),
    DemandProduct,
    SizesLength,
    TrueSize(u16),
    NoModel(u16),
    TrueMisfit(u16),
    Grain(u16),
    AgainstGrain(u16),
    MultiplierCount,
    Multiplier(u16),
}

// What a call chooses beside the job: whether pieces may be turned, whether the capacity is that of the full demands, whether the block is
// the old one, which has no kerf, and whether it says of each kind if it keeps its grain.
#[derive(Clone, Copy, Drop)]
pub struct Choices {
    pub turning: bool,
    pub full_demand: bool,
    pub old_block: bool,
    pub grain: bool,
}

// A job as it was read: the plate, the kerf, the choices kept, and for each kind its sides, price, demand and grain byte; 0
// past the last kind.
#[derive(Clone, Copy, Drop)]
pub struct JobRecord {
    pub length: u16,
    pub width: u16,
    pub count: u16,
    pub kerf: u16,
    pub turning: bool,
    pub full_demand: bool,
    pub lengths: [u16; 64],
    pub widths: [u16; 64],
    pub prices: [u32; 64],
    pub demands: [u16; 64],
    pub grains: [u8; 64],
}

// What a passed plan reports: profit, copies of each kind, and the four areas.
#[derive(Clone, Copy, Drop)]
pub struct Report {
    pub profit: u64,
    pub copies: [u16; 64],
    pub pieces: u64,
    pub waste: u64,
    pub trim: u64,
    pub sawdust: u64,
}

// What the staged check reports: the stages besides.
#[derive(Clone, Copy, Drop)]
pub struct StagedReport {
    pub report: Report,
    pub stages: u8,
}

// What the saw learns of a plan: no profit.
#[derive(Clone, Copy, Drop)]
pub struct SawReport {
    pub copies: [u16; 64],
    pub pieces: u64,
    pub waste: u64,
    pub trim: u64,
    pub sawdust: u64,
}

// A part of an array: from its first entry up to one that is not in it.
#[derive(Clone, Copy, Drop)]
pub struct Part {
    pub first: usize,
    pub past: usize,
}

// What the bound calls report: the bound, the capacity, and the numbers p and r of normal lengths and widths.
#[derive(Clone, Copy, Drop)]
pub struct BoundReport {
    pub bound: u64,
    pub capacity: u16,
    pub length_count: u16,
    pub columns: u16,
}

// What the bound of two weights reports.
#[derive(Clone, Copy, Drop)]
pub struct TwoReport {
    pub bound: u64,
    pub first_capacity: u16,
    pub second_capacity: u16,
    pub length_count: u16,
    pub columns: u16,
}

// What the bound by multipliers reports: the Lagrangian bound, and what the bound call reports of the lowered job.
#[derive(Clone, Copy, Drop)]
pub struct LagrangianReport {
    pub lagrangian: u64,
    pub lowered: BoundReport,
}

// What the call for whole orders reports: the plates needed, the bound of one, and what the order is worth.
#[derive(Clone, Copy, Drop)]
pub struct PlatesReport {
    pub plates: u64,
    pub bound: u64,
    pub worth: u64,
}

// What the writing call reports: the bound's report and the number of nodes.
#[derive(Clone, Copy, Drop)]
pub struct WriteReport {
    pub bound: u64,
    pub capacity: u16,
    pub length_count: u16,
    pub columns: u16,
    pub nodes: u64,
}

// What the call of the true plan reports: the number of the true plan's nodes, which it has written, and its used length and width.
#[derive(Clone, Copy, Drop)]
pub struct TrueReport {
    pub nodes: u64,
    pub length: u64,
    pub width: u64,
}

// What the exact call reports: the optimum, the number of states, p, r and the number of nodes.
#[derive(Clone, Copy, Drop)]
pub struct ExactReport {
    pub optimum: u64,
    pub states: u32,
    pub length_count: u16,
    pub columns: u16,
    pub nodes: u64,
}

// What a certificate says of a plan: best with the profit, or the profit and the gap.
#[derive(Clone, Copy, Drop)]
pub enum Certificate {
    Best(u64),
    Gap(u64, u64),
}

// The weights that the rounds found, with their bound and the number of rounds.
#[derive(Clone, Copy, Drop)]
pub struct WeightsFound {
    pub bound: u64,
    pub rounds: u16,
    pub weights: [u8; 64],
}

// A plate of a rack, and how much profit its checked plan brought.
#[derive(Clone, Copy, Drop)]
pub struct Plate {
    pub length: u16,
    pub width: u16,
    pub profit: u64,
}
