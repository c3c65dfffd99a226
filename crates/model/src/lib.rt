// Whether a job is a model of true sizes: refusals 1 to 7, 27, 35, and 31 to 33. In either direction the table of the chains, filled kind by
// kind, has in its last entry the least that a chain takes in truth which is too long for the model's plate: it must be too long for the
// true one. One set of functions serves both directions.
#![tactic(auto)]

ghost use Rattle.std.specs.Prelude.{◌≡◌, ◌&&◌, not, suc, ◌+◌, ◌≤◌, ◌<◌, leb, length};
ghost use Rattle.cutting.specs.Limits.{most_true_side, most_true_kerf};
ghost use Rattle.cutting.specs.Tree.{side};
ghost use Rattle.cutting.specs.Job.{InRange, turns};
ghost use Rattle.cutting.specs.Relaxation.{room};
ghost use Rattle.cutting.specs.Chains.{least, chains_fit};
ghost use Rattle.refusal.specs.Refusals.{first_refusal};
ghost use Rattle.job.specs.Block.{job_of};
ghost use Rattle.sizes.specs.Sizes.{true_job, TrueRange};
ghost use Rattle.model.specs.Model.{model_checks, ModelPromises};
ghost use Rattle.model.specs.Tables.{taken_by, Within, way_by, turned_span, true_span_at, model_span_at, true_plate, model_plate, Fitting, cleared, Tabled, Added};

use chains::passes;
use job::may_turn;
use promises::{Choices, Direction, JobRecord, Refusal};
use refusal::refuse_if;
use sizes::{TrueSizes, read_true_job};

// A rectangle's sides, and the kerf after it.
#[derive(Clone, Copy, Drop)]
struct Span {
    length: u32,
    width: u32,
    kerf: u32,
}

// A way of a kind in one direction: whether it lies so on the true plate, and what it takes there, in the model and in truth.
#[derive(Clone, Copy, Drop)]
struct Way {
    lies: bool,
    model: usize,
    real: u32,
}

// What a rectangle takes in a direction, with the kerf after it.
fn taken_in(d: Direction, span: Span) -> u32
    requires { Within most_true_side most_true_kerf span }
    ensures { result ≡ taken_by d span }
{
    match d {
        Direction::Length => span.length + span.kerf,
        Direction::Width => span.width + span.kerf,
    }
}

// Whether a rectangle may lie and fits a plate: neither side is greater.
fn lies_on(may: bool, span: Span, plate: Span) -> bool
    ensures { result ≡ (may && (leb span.length plate.length && leb span.width plate.width)) }
{
    may && (span.length <= plate.length && span.width <= plate.width)
}

// A way of a kind that has these sizes as it lies, in truth and in the model.
fn way_of(d: Direction, may: bool, real: Span, model: Span, plate: Span) -> Way
    requires { Within most_true_side most_true_kerf real × Within most_true_side most_true_kerf model }
    ensures { result ≡ way_by d may real model plate }
{
    Way {
        lies: lies_on(may, real, plate),
        model: taken_in(d, model) as usize,
        real: taken_in(d, real),
    }
}

// A rectangle turned by a quarter.
fn turn_span(span: Span) -> Span
    ensures { result ≡ turned_span span }
{
    Span {
        length: span.width,
        width: span.length,
        kerf: span.kerf,
    }
}

// The true size of kind i.
fn true_span(sizes: TrueSizes, i: u16) -> Span
    requires { i < 64 }
    ensures { result ≡ true_span_at sizes i }
{
    let k = i as usize;
    let kerf = sizes.kerf;
    Span {
        length: sizes.lengths[k],
        width: sizes.widths[k],
        kerf,
    }
}

// Its size in the model.
fn model_span(model: JobRecord, i: u16) -> Span
    requires { i < 64 }
    ensures { result ≡ model_span_at model i }
{
    let k = i as usize;
    Span {
        length: model.lengths[k] as u32,
        width: model.widths[k] as u32,
        kerf: model.kerf as u32,
    }
}

// The turned way of kind i, which lies so only where it may be turned.
fn turned_way(d: Direction, model: JobRecord, i: u16, real: Span, shape: Span, plate: Span) -> Way
    requires { (i < 64) × Within most_true_side most_true_kerf real × Within most_true_side most_true_kerf shape }
    ensures { result ≡ way_by d (turns (job_of model) i) (turned_span real) (turned_span shape) plate }
{
    let k = i as usize;
    let may = may_turn(model.turning, model.grains[k]);
    way_of(d, may, turn_span(real), turn_span(shape), plate)
}

// The true plate.
fn true_plate(sizes: TrueSizes) -> Span
    ensures { result ≡ true_plate sizes }
{
    Span {
        length: sizes.length,
        width: sizes.width,
        kerf: sizes.kerf,
    }
}

// The model's plate.
fn model_plate(model: JobRecord) -> Span
    ensures { result ≡ model_plate model }
{
    Span {
        length: model.length as u32,
        width: model.width as u32,
        kerf: model.kerf as u32,
    }
}

// The table without a piece: nothing takes 0, and no chain takes more.
fn clear(table: &mut [u32], above: u32)
    requires { 1 ≤ length table.old }
    ensures { (length table.new ≡ length table.old) × Tabled (cleared above) table.new }
{
    table.fill(above);
    table[0] = 0;
}

// The table with the copies of one kind more, in the ways in which it lies; a kind that lies in one way takes it for both.
fn add_kind(table: &mut [u32], copies: u16, upright: Way, turned: Way)
    requires { Fitting table.old upright turned }
    ensures { Added table.old copies upright turned table.new }
{
    let ways = match (upright.lies, turned.lies) {
        (true, true) => (upright, turned),
        (true, false) => (upright, upright),
        (false, true) => (turned, turned),
        (false, false) => return,
    };
    passes(
        table,
        copies,
        ways.0.model,
        ways.0.real,
        ways.1.model,
        ways.1.real,
    );
}

// The table with the copies of every kind.
fn add_kinds(d: Direction, model: JobRecord, sizes: TrueSizes, table: &mut [u32])
    requires { InRange (job_of model) × TrueRange (true_job (job_of model) sizes) × Tabled (least (true_job (job_of model) sizes) (job_of model) d 0) table.old }
    ensures { (length table.new ≡ length table.old) × Tabled (least (true_job (job_of model) sizes) (job_of model) d model.count) table.new }
{
    let plate = true_plate(sizes);
    for i in 0..model.count {
        let real = true_span(sizes, i);
        let shape = model_span(model, i);
        let upright = way_of(d, true, real, shape, plate);
        let turned = turned_way(d, model, i, real, shape, plate);
        add_kind(table, model.demands[i as usize], upright, turned);
    }
}

// The least that a chain takes in truth which takes at least the last entry's number in the model.
fn least_taken(d: Direction, model: JobRecord, sizes: TrueSizes, table: &mut [u32]) -> u32
    requires { InRange (job_of model) × TrueRange (true_job (job_of model) sizes) × (length table.old ≡ room (job_of model) d + 2) }
    ensures { result ≡ least (true_job (job_of model) sizes) (job_of model) d model.count (suc (room (job_of model) d)) }
{
    let room = taken_in(d, true_plate(sizes));
    clear(table, room + 1);
    add_kinds(d, model, sizes, table);
    table[table.len() - 1]
}

// Whether a chain that is too long for the model's plate fits the true one.
fn chains_exceed(d: Direction, model: JobRecord, sizes: TrueSizes) -> bool
    requires { InRange (job_of model) × TrueRange (true_job (job_of model) sizes) }
    ensures { result ≡ not (chains_fit (true_job (job_of model) sizes) (job_of model) d) }
{
    let mut table = [0u32; 1022];
    let entries = taken_in(d, model_plate(model)) as usize + 2;
    let least = least_taken(d, model, sizes, &mut table[..entries]);
    least <= taken_in(d, true_plate(sizes))
}

// Refusal 33: along the length, then along the width.
fn check_chains(model: JobRecord, sizes: TrueSizes) -> Result<(), Refusal>
    requires { InRange (job_of model) × TrueRange (true_job (job_of model) sizes) }
    ensures { result ≡ first_refusal (model_checks (true_job (job_of model) sizes) (job_of model)) }
{
    refuse_if(
        chains_exceed(Direction::Length, model, sizes),
        Refusal::NoModel(0),
    )?;
    refuse_if(
        chains_exceed(Direction::Width, model, sizes),
        Refusal::NoModel(1),
    )
}

// Whether a job block is a model of a sizes block: refused, or passed.
pub fn check_model(block: &[u8], choices: Choices, sizes: &[u8]) -> Result<(), Refusal>
    ensures { ModelPromises block.now choices sizes.now result }
{
    let job = read_true_job(block, choices, sizes)?;
    check_chains(job.model, job.sizes)
}
