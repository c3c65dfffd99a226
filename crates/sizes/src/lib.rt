// The true sizes of a job: a sizes block is read into a record, beside the job block that is its model. Refusals 31 and 32.
// Fields are four bytes, lowest byte first; specs/Sizes says where each stands, when a block is refused, and which job the sizes make of
// their model.
#![tactic(auto)]

ghost use Rattle.std.specs.Prelude.{◌≡◌, [], ◌∷◌, ◌+◌, ◌*◌, ◌≤◌, ◌<◌, length};
ghost use Rattle.refusal.specs.Refusals.{refuse_when, first_refusal};
ghost use Rattle.cutting.specs.Limits.{most_true_side};
ghost use Rattle.job.specs.Block.{u32_at, outside, each_kind};
ghost use Rattle.sizes.specs.Sizes.{true_sides_outside, plate_check, kind_check, sizes_checks, sizes_of, sizes_read, true_read};

use job::{read_job, read_u32, read_u32_fields};
use promises::{Choices, JobRecord, Refusal};
use refusal::refuse_if;

// The true sizes: the plate's sides, the kerf, and each kind's sides; 0 past the last kind.
#[derive(Clone, Copy, Drop)]
pub struct TrueSizes {
    pub length: u32,
    pub width: u32,
    pub kerf: u32,
    pub lengths: [u32; 64],
    pub widths: [u32; 64],
}

// A model and the true sizes of its plate, kerf and kinds.
#[derive(Clone, Copy, Drop)]
pub struct TrueJob {
    pub model: JobRecord,
    pub sizes: TrueSizes,
}

// Whether a true side lies outside 1 to 100,000,000.
fn outside(side: u32) -> bool
    ensures { result ≡ outside 1 most_true_side side }
{
    side < 1 || 100000000 < side
}

// Whether one of two true sides of a block, the first at `at`, lies outside.
fn true_sides_outside(block: &[u8], at: usize) -> bool
    requires { at + 8 ≤ length block.now }
    ensures { result ≡ true_sides_outside (u32_at block.now at) (u32_at block.now (at + 4)) }
{
    outside(read_u32(block, at)) || outside(read_u32(block, at + 4))
}

// Refusal 32, of the plate and the kerf.
fn check_plate(block: &[u8]) -> Result<(), Refusal>
    requires { 12 ≤ length block.now }
    ensures { result ≡ refuse_when (plate_check block.now).0 (plate_check block.now).1 }
{
    let wrong = true_sides_outside(block, 0) || 1000000 < read_u32(block, 8);
    refuse_if(wrong, Refusal::TrueSize(0))
}

// Refusal 32, of one kind.
fn check_kind(block: &[u8], i: u16) -> Result<(), Refusal>
    requires { (12 + 8 * (i + 1) ≤ length block.now) × (i < 64) }
    ensures { result ≡ first_refusal (kind_check block.now i ∷ []) }
{
    let at = 12 + 8 * (i as usize);
    refuse_if(true_sides_outside(block, at), Refusal::TrueSize(i + 1))
}

// Refusal 32, of the kinds in their order.
fn check_kinds(block: &[u8], n: u16) -> Result<(), Refusal>
    requires { (12 + 8 * n ≤ length block.now) × (n ≤ 64) }
    ensures { result ≡ first_refusal (each_kind (λ i. kind_check block.now i ∷ []) 0 n) }
{
    for i in 0..n {
        check_kind(block, i)?;
    }
    Ok(())
}

// Refusals 31 and 32, in the table's order.
fn check_sizes(block: &[u8], n: u16) -> Result<(), Refusal>
    requires { n ≤ 64 }
    ensures { result ≡ first_refusal (sizes_checks n block.now) }
{
    let bytes = 12 + 8 * (n as usize);
    refuse_if(block.len() != bytes, Refusal::SizesLength)?;
    check_plate(block)?;
    check_kinds(block, n)
}

// The sizes of a block that has the bytes of n kinds.
fn read_block(block: &[u8], n: u16) -> TrueSizes
    requires { (12 + 8 * n ≤ length block.now) × (n ≤ 64) }
    ensures { result ≡ sizes_of n block.now }
{
    let length = read_u32(block, 0);
    let width = read_u32(block, 4);
    let kerf = read_u32(block, 8);
    let lengths = read_u32_fields(block, 12, 8, n);
    let widths = read_u32_fields(block, 16, 8, n);
    TrueSizes {
        length,
        width,
        kerf,
        lengths,
        widths,
    }
}

// A sizes block for a job of n kinds, read or refused.
pub fn read_sizes(block: &[u8], n: u16) -> Result<TrueSizes, Refusal>
    requires { n ≤ 64 }
    ensures { result ≡ sizes_read n block.now }
{
    check_sizes(block, n)?;
    Ok(read_block(block, n))
}

// A job block and the sizes block of its kinds, read or refused.
pub fn read_true_job(block: &[u8], choices: Choices, sizes: &[u8]) -> Result<TrueJob, Refusal>
    ensures { result ≡ true_read block.now choices sizes.now }
{
    let model = read_job(block, choices)?;
    let sizes = read_sizes(sizes, model.count)?;
    Ok(TrueJob { model, sizes })
}
