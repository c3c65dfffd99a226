// A job and its weights: the job block is read into a record, the weights give the capacity. Refusals 1 to 9, 27 and 35.
// Fields are two or four bytes, lowest byte first; specs/Block says where each stands and when a block is refused.
#![tactic(auto)]

ghost use Rattle.std.specs.Prelude.{◌≡◌, true, false, ◌||◌, ◌&&◌, not, List, [], ◌∷◌, ℕ, ◌+◌, ◌*◌, ◌/◌, ◌≤◌, ◌<◌, eqb, length, get_or};
ghost use Rattle.refusal.specs.Refusals.{Check, refuse_when, first_refusal};
ghost use Rattle.promises.specs.Refusals.{Checked};
ghost use Rattle.cutting.specs.Areas as measured;
ghost use Rattle.cutting.specs.Pieces.{fits_either};
ghost use Rattle.cutting.specs.Sides.{rect_of};
ghost use Rattle.cutting.specs.Job.{InRange, capacity, copies_on, counted_of};
ghost use Rattle.job.specs.Block.{with_old_block, u16_at, u32_at, count_at, kerf_at, sizes_end, price_at, kind_bytes, outside, sides_outside, short_check, count_checks, header_checks, plateless_checks, size_check, demand_check, pair_checks, grain_check, each_kind, grain_checks, array_checks, checks_by, job_checks, entries, grains_of, record_of, unpriced, empty_record, read_of, KerfNoneRead, job_outcome, job_said, job_of};
ghost use Rattle.job.specs.Weights.{weight_in, weights_answer, weights_outcome, weights_said, acceptance_of, acceptance_outcome, acceptance_said};
ghost use Rattle.job.specs.Clauses.{HoldsKinds, HoldsGrains, HoldsBlock, header_by, pairs_by};

use cutting::{Sides, fits, turn, widen};
use promises::{Choices, JobRecord, Refusal};
use refusal::refuse_if;

// The same choices, and the old block.
fn with_old_block(choices: Choices) -> Choices
    ensures { result ≡ with_old_block choices }
{
    Choices {
        old_block: true,
        ..choices
    }
}

// What a job block and weights give: the record and the capacity.
#[derive(Clone, Copy, Drop)]
pub struct Acceptance {
    pub job: JobRecord,
    pub capacity: u16,
}

// A field of two bytes.
pub fn read_u16(block: &[u8], at: usize) -> u16
    requires { at + 2 ≤ length block.now }
    ensures { result ≡ u16_at block.now at }
{
    u16::from_le_bytes([block[at], block[at + 1]])
}

// A field of four bytes.
pub fn read_u32(block: &[u8], at: usize) -> u32
    requires { at + 4 ≤ length block.now }
    ensures { result ≡ u32_at block.now at }
{
    u32::from_le_bytes([block[at], block[at + 1], block[at + 2], block[at + 3]])
}

// Whether one of two conditions holds.
pub fn either(a: bool, b: bool) -> bool
    ensures { result ≡ (a || b) }
{
    a || b
}

// Whether a number lies outside a range.
fn lies_outside(x: u16, lo: u16, hi: u16) -> bool
    ensures { result ≡ outside lo hi x }
{
    !(lo..=hi).contains(&x)
}

// Whether one of two sides lies outside 1 to 1,000.
pub fn sides_outside(length: u16, width: u16) -> bool
    ensures { result ≡ sides_outside length width }
{
    lies_outside(length, 1, 1000) || lies_outside(width, 1, 1000)
}

// The same of two sides of a block, the first at `at`.
fn side_outside(block: &[u8], at: usize) -> bool
    requires { at + 4 ≤ length block.now }
    ensures { result ≡ sides_outside (u16_at block.now at) (u16_at block.now (at + 2)) }
{
    sides_outside(read_u16(block, at), read_u16(block, at + 2))
}

// The bytes of the sizes, in the old block and in the new.
pub fn sizes_end(old: bool) -> usize
    ensures { (result ≡ sizes_end old) × (6 ≤ result) × (result ≤ 8) }
{
    if old { 6 } else { 8 }
}

// The kerf, which the old block does not have.
fn read_kerf(block: &[u8], old: bool) -> u16
    requires { sizes_end old ≤ length block.now }
    ensures { result ≡ kerf_at old block.now }
{
    if old { 0 } else { read_u16(block, 6) }
}

// Refusal 1.
fn check_short(block: &[u8], old: bool) -> Result<(), Refusal>
    ensures { result ≡ refuse_when (short_check old block.now).0 (short_check old block.now).1 }
{
    refuse_if(block.len() < sizes_end(old), Refusal::ShortHeader)
}

// The bytes of n kinds in all their arrays.
fn kinds_bytes(grain: bool, n: u16) -> usize
    ensures { (result ≡ kind_bytes grain * n) × (result ≤ 11 * n) }
{
    if grain {
        11 * (n as usize)
    } else {
        10 * (n as usize)
    }
}

// Refusals 3, 27 and 4: the numbers of the header beside the plate's.
fn check_counts(block: &[u8], choices: Choices) -> Result<(), Refusal>
    requires { sizes_end choices.old_block ≤ length block.now }
    ensures { result ≡ first_refusal (count_checks choices block.now) }
{
    let n = read_u16(block, 4);
    refuse_if(lies_outside(n, 1, 64), Refusal::KindCount)?;
    refuse_if(20 < read_kerf(block, choices.old_block), Refusal::Kerf)?;
    let bytes = sizes_end(choices.old_block) + kinds_bytes(choices.grain, n);
    refuse_if(block.len() != bytes, Refusal::BlockLength)
}

// The header, whose plate is read or not: refusals 1, 2 where it is, then 3, 27 and 4.
fn check_front(block: &[u8], choices: Choices, plate: bool) -> Result<(), Refusal>
    ensures { result ≡ first_refusal (header_by plate choices block.now) }
{
    check_short(block, choices.old_block)?;
    if plate {
        refuse_if(side_outside(block, 0), Refusal::PlateSide)?;
    }
    check_counts(block, choices)
}

// Refusal 5, of one kind, where the sizes of the block end at byte h.
fn check_size(block: &[u8], h: usize, i: u16) -> Result<(), Refusal>
    requires { (h + 4 + 4 * i ≤ length block.now) × (h ≤ 8) × (i < 64) }
    ensures { result ≡ first_refusal (size_check h block.now i ∷ []) }
{
    refuse_if(
        side_outside(block, h + 4 * (i as usize)),
        Refusal::KindSide(i),
    )
}

// Checks of each of n kinds, in their order.
fn check_kinds<F: Fn(u16) -> Result<(), Refusal>>(n: u16, check: F) -> Result<(), Refusal>
    requires { (i : ℕ) → i < n → F.pre check i }
    ensures { (f : ℕ → List Check) → ((i : ℕ) (r : Checked) → i < n → F.post check i r → r ≡ first_refusal (f i)) → result ≡ first_refusal (each_kind f 0 n) }
{
    for i in 0..n {
        check(i)?;
    }
    Ok(())
}

// The first array: the sizes in the order of the kinds.
fn check_sizes(block: &[u8], h: usize, n: u16) -> Result<(), Refusal>
    requires { HoldsKinds h block.now n }
    ensures { result ≡ first_refusal (each_kind (λ i. size_check h block.now i ∷ []) 0 n) }
{
    check_kinds(n, |i| check_size(block, h, i))
}

// Refusals 6 and 7 of one kind, or 7 alone where no price is read.
fn check_pair(block: &[u8], h: usize, n: u16, i: u16, priced: bool) -> Result<(), Refusal>
    requires { HoldsKinds h block.now n × (i < n) }
    ensures { result ≡ first_refusal (pairs_by priced h block.now i) }
{
    let at = h + 4 * (n as usize) + 6 * (i as usize);
    if priced {
        refuse_if(1000000 < read_u32(block, at), Refusal::Price(i))?;
    }
    refuse_if(255 < read_u16(block, at + 4), Refusal::Demand(i))
}

// The second array: the pairs of price and demand in the order of the kinds; the price is read or not.
fn check_pairs(block: &[u8], h: usize, n: u16, priced: bool) -> Result<(), Refusal>
    requires { HoldsKinds h block.now n }
    ensures { result ≡ first_refusal (each_kind (pairs_by priced h block.now) 0 n) }
{
    check_kinds(n, |i| check_pair(block, h, n, i, priced))
}

// Refusal 35, of one kind.
fn check_grain(block: &[u8], h: usize, n: u16, i: u16) -> Result<(), Refusal>
    requires { HoldsGrains true h block.now n × (i < n) }
    ensures { result ≡ first_refusal (grain_check h block.now i ∷ []) }
{
    let at = h + 10 * (n as usize) + (i as usize);
    refuse_if(1 < block[at], Refusal::Grain(i))
}

// The third array, where the block has it: the grain bytes in the order of the kinds.
fn check_grains(block: &[u8], h: usize, n: u16, grain: bool) -> Result<(), Refusal>
    requires { HoldsGrains grain h block.now n }
    ensures { result ≡ first_refusal (grain_checks grain h block.now) }
{
    if grain {
        check_kinds(n, |i| check_grain(block, h, n, i))
    } else {
        Ok(())
    }
}

// Refusals 5 to 7 and 35: the arrays of n kinds.
fn check_arrays(block: &[u8], h: usize, n: u16, priced: bool, grain: bool) -> Result<(), Refusal>
    requires { HoldsGrains grain h block.now n }
    ensures { result ≡ first_refusal (array_checks (pairs_by priced h block.now) grain h block.now) }
{
    check_sizes(block, h, n)?;
    check_pairs(block, h, n, priced)?;
    check_grains(block, h, n, grain)
}

// Refusals 1 to 7, 27 and 35, in the table's order; the plate is read or not, and the prices are or not.
pub fn check_block(block: &[u8], choices: Choices, plate: bool, priced: bool) -> Result<(), Refusal>
    ensures { result ≡ first_refusal (checks_by (header_by plate) (pairs_by priced) block.now choices) }
{
    check_front(block, choices, plate)?;
    let h = sizes_end(choices.old_block);
    check_arrays(block, h, read_u16(block, 4), priced, choices.grain)
}

// A job block: its plate and its prices are read.
fn check_job(block: &[u8], choices: Choices) -> Result<(), Refusal>
    ensures { result ≡ first_refusal (job_checks block.now choices) }
{
    check_block(block, choices, true, true)
}

// An array of fields of two bytes, the first at `from` and each `step` bytes after the one before.
fn read_fields(block: &[u8], from: usize, step: usize, n: u16) -> [u16; 64]
    requires { (n ≤ 64) × ((i : ℕ) → i < n → from + step * i + 2 ≤ length block.now) }
    ensures { result ≡ entries (λ i. u16_at block.now (from + step * i)) n }
{
    let mut fields = [0; 64];
    for i in 0..n as usize {
        fields[i] = read_u16(block, from + step * i);
    }
    fields
}

// The same of fields of four bytes.
pub fn read_u32_fields(block: &[u8], from: usize, step: usize, n: u16) -> [u32; 64]
    requires { (n ≤ 64) × ((i : ℕ) → i < n → from + step * i + 4 ≤ length block.now) }
    ensures { result ≡ entries (λ i. u32_at block.now (from + step * i)) n }
{
    let mut fields = [0; 64];
    for i in 0..n as usize {
        fields[i] = read_u32(block, from + step * i);
    }
    fields
}

// The prices.
fn read_prices(block: &[u8], h: usize, n: u16) -> [u32; 64]
    requires { HoldsKinds h block.now n }
    ensures { result ≡ entries (price_at h block.now) n }
{
    read_u32_fields(block, h + 4 * (n as usize), 6, n)
}

// An array of bytes, the first at `from`.
fn read_bytes(block: &[u8], from: usize, n: u16) -> [u8; 64]
    requires { (n ≤ 64) × (from + n ≤ length block.now) }
    ensures { result ≡ entries (λ i. get_or block.now (from + i) 0) n }
{
    let mut bytes = [0; 64];
    for i in 0..n as usize {
        bytes[i] = block[from + i];
    }
    bytes
}

// The grain bytes, 0 where the block has none.
fn read_grains(block: &[u8], h: usize, n: u16, grain: bool) -> [u8; 64]
    requires { HoldsGrains grain h block.now n }
    ensures { result ≡ grains_of grain h block.now }
{
    if grain {
        read_bytes(block, h + 10 * (n as usize), n)
    } else {
        [0u8; 64]
    }
}

// The record of a block that has the bytes of its kinds, its prices not read: each is 0.
pub fn read_unpriced(block: &[u8], choices: Choices) -> JobRecord
    requires { HoldsBlock choices block.now }
    ensures { result ≡ unpriced (record_of block.now choices) }
{
    let h = sizes_end(choices.old_block);
    let length = read_u16(block, 0);
    let width = read_u16(block, 2);
    let n = read_u16(block, 4);
    let kerf = read_kerf(block, choices.old_block);
    let lengths = read_fields(block, h, 4, n);
    let widths = read_fields(block, h + 2, 4, n);
    let demands = read_fields(block, h + 4 + 4 * (n as usize), 6, n);
    let grains = read_grains(block, h, n, choices.grain);
    JobRecord {
        length,
        width,
        count: n,
        kerf,
        turning: choices.turning,
        full_demand: choices.full_demand,
        lengths,
        widths,
        prices: [0u32; 64],
        demands,
        grains,
    }
}

// The record of a block that has the bytes of its kinds.
pub fn read_record(block: &[u8], choices: Choices) -> JobRecord
    requires { HoldsBlock choices block.now }
    ensures { result ≡ record_of block.now choices }
{
    let h = sizes_end(choices.old_block);
    let n = read_u16(block, 4);
    JobRecord {
        prices: read_prices(block, h, n),
        ..read_unpriced(block, choices)
    }
}

// A job block, read or refused; the record keeps the choices.
pub fn read_job(block: &[u8], choices: Choices) -> Result<JobRecord, Refusal>
    ensures answers { result ≡ read_of block.now choices }
    ensures outcome { job_outcome result ≡ job_said block.now choices }
    ensures alike { KerfNoneRead block.now choices }
{
    check_job(block, choices)?;
    Ok(read_record(block, choices))
}

// An old job block, read or refused, whatever the choices say of it; its kerf is 0.
pub fn read_old_job(block: &[u8], choices: Choices) -> Result<JobRecord, Refusal>
    ensures answers { result ≡ read_of block.now (with_old_block choices) }
    ensures outcome { job_outcome result ≡ job_said block.now (with_old_block choices) }
{
    read_job(block, with_old_block(choices))
}

// The area of a rectangle.
fn area(r: Sides) -> u32
    ensures { result ≡ measured.area (rect_of r) }
{
    u32::from(r.length) * u32::from(r.width)
}

// Whether a size fits a rectangle upright or turned.
fn fits_some_way(size: Sides, room: Sides) -> bool
    ensures { result ≡ fits_either (rect_of size) (rect_of room) }
{
    fits(size, room) || fits(turn(size), room)
}

// Whether a kind may be turned, by the job's choice and the kind's grain byte.
pub fn may_turn(turning: bool, grain: u8) -> bool
    ensures { result ≡ (not (eqb grain 1) && turning) }
{
    grain != 1 && turning
}

// The copies of a size that can lie on a rectangle, none of them turned.
fn upright_copies(room: Sides, size: Sides) -> u32
    requires { (1 ≤ size.length) × (1 ≤ size.width) }
    ensures { result ≡ copies_on false (rect_of room) (rect_of size) }
{
    u32::from(room.length / size.length) * u32::from(room.width / size.width)
}

// The same where they may be turned.
fn turning_copies(room: Sides, size: Sides) -> u32
    requires { (1 ≤ size.length) × (1 ≤ size.width) }
    ensures { result ≡ copies_on true (rect_of room) (rect_of size) }
{
    if fits_some_way(size, room) {
        area(room) / area(size)
    } else {
        0
    }
}

// The copies of a size that can lie on a rectangle.
fn copies_on(turns: bool, room: Sides, size: Sides) -> u32
    requires { (1 ≤ size.length) × (1 ≤ size.width) }
    ensures { result ≡ copies_on turns (rect_of room) (rect_of size) }
{
    if turns {
        turning_copies(room, size)
    } else {
        upright_copies(room, size)
    }
}

// The copies of a kind that the capacity counts: its demand, or the lesser of it and what can lie on the plate.
fn counted_copies(full_demand: bool, turns: bool, plate: Sides, size: Sides, demand: u16) -> u16
    requires { (1 ≤ size.length) × (1 ≤ size.width) }
    ensures { (result ≡ counted_of full_demand demand (copies_on turns (rect_of plate) (rect_of size))) × (result ≤ demand) }
{
    if full_demand {
        return demand;
    }
    let held = copies_on(turns, plate, size);
    held.min(u32::from(demand)) as u16
}

// A number of copies times a weight.
fn weigh(copies: u16, weight: u8) -> u32
    requires { copies ≤ 255 }
    ensures { (result ≡ copies * weight) × (result ≤ 65025) }
{
    u32::from(copies) * u32::from(weight)
}

// The capacity of as many weights as kinds, the kerf added to every side: at most 64 times 65,025.
fn sum_capacity(job: JobRecord, weights: &[u8]) -> u32
    requires { InRange (job_of job) × (length weights.now ≡ job.count) }
    ensures { result ≡ capacity (job_of job) (weight_in weights.now) }
{
    let kerf = job.kerf;
    let plate = widen(
        Sides {
            length: job.length,
            width: job.width,
        },
        kerf,
    );
    let mut q = 0u32;
    for i in 0..job.count {
        let k = i as usize;
        let upright = Sides {
            length: job.lengths[k],
            width: job.widths[k],
        };
        let size = widen(upright, kerf);
        let turns = may_turn(job.turning, job.grains[k]);
        let copies = counted_copies(job.full_demand, turns, plate, size, job.demands[k]);
        q += weigh(copies, weights[k]);
    }
    q
}

// The weights of a job that was read: the capacity, or refusal 8 or 9.
pub fn check_weights(job: JobRecord, weights: &[u8]) -> Result<u16, Refusal>
    requires { InRange (job_of job) }
    ensures answers { result ≡ weights_answer (job_of job) weights.now }
    ensures outcome { weights_outcome result ≡ weights_said (job_of job) weights.now }
{
    refuse_if(weights.len() != job.count as usize, Refusal::WeightCount)?;
    let q = sum_capacity(job, weights);
    refuse_if(4095 < q, Refusal::Capacity)?;
    Ok(q as u16)
}

// A job block and weights, accepted or refused.
pub fn accept(block: &[u8], choices: Choices, weights: &[u8]) -> Result<Acceptance, Refusal>
    ensures answers { result ≡ acceptance_of block.now choices weights.now }
    ensures outcome { acceptance_outcome result ≡ acceptance_said block.now choices weights.now }
{
    let job = read_job(block, choices)?;
    let capacity = check_weights(job, weights)?;
    Ok(Acceptance { job, capacity })
}
