// The storage that a bound is lent, laid out for a table: refusals 19 and 20, the normal positions of both sides in the lent lists, the
// floors of both sides, and the words that the table needs. Every bound begins with it, whatever a cell of its table holds.
#![tactic(auto)]

ghost use Rattle.std.specs.Prelude.{◌≡◌, ◌||◌, ◌+◌, ◌*◌, ltb, length};
ghost use Rattle.cutting.specs.Sides.{rect_of};
ghost use Rattle.cutting.specs.Listed.{InTableRange, pieces_job};
ghost use Rattle.positions.specs.Clauses.{Mappable};
ghost use Rattle.storage.specs.Clauses.{SidesMapped, LaidOut};

use cutting::Sides;
use positions::{map_floors, normal_positions};
use promises::Refusal;
use refusal::refuse_if;
use table::TableSize;

// How lent storage is laid out: the table's size and the words that it needs.
#[derive(Clone, Copy, Drop)]
pub struct Layout {
    pub size: TableSize,
    pub words: usize,
}

// The words of p rows and r columns of cells.
pub fn words(p: u16, r: u16, per_cell: u32) -> u64
    ensures { result ≡ p * r * per_cell }
{
    (p as u64) * (r as u64) * (per_cell as u64)
}

// Whether lists of m and of n entries are too short for the plate.
fn lists_short(m: usize, n: usize, length: u16, width: u16) -> bool
    ensures { result ≡ (ltb m (length + 1) || ltb n (width + 1)) }
{
    m < (length as usize) + 1 || n < (width as usize) + 1
}

// The floors of both sides into one array: those of the lengths first, those of the widths from entry 1,021 on.
fn map_sides(size: TableSize, normal_lengths: &[u16], normal_widths: &[u16], floors: &mut [u16])
    requires { Mappable normal_lengths.now size.rows size.length 1021 × Mappable normal_widths.now size.columns size.width 1021 × (length floors.old ≡ 2042) }
    ensures { SidesMapped size normal_lengths.now normal_widths.now floors.new }
{
    map_floors(normal_lengths, size.rows, size.length, &mut floors[..1021]);
    map_floors(normal_widths, size.columns, size.width, &mut floors[1021..]);
}

// The storage for a table of pieces on a plate, of so many words a cell, where the table that is lent has `room`. The 2,042 entries for
// the floors are lent, so that a caller who goes on to fill the table and to write the plan has them.
pub fn lay_out(
    plate: Sides,
    count: u16,
    pieces: &[u32; 640],
    capacity: u16,
    per_cell: u32,
    normal_lengths: &mut [u16],
    normal_widths: &mut [u16],
    floors: &mut [u16],
    room: usize,
) -> Result<Layout, Refusal>
    requires { InTableRange (pieces_job (rect_of plate) count pieces.now) × (length floors.old ≡ 2042) }
    ensures { LaidOut (pieces_job (rect_of plate) count pieces.now) capacity per_cell room normal_lengths.old normal_widths.old floors.old
        normal_lengths.new normal_widths.new floors.new result }
{
    let Sides { length, width } = plate;
    let short = lists_short(normal_lengths.len(), normal_widths.len(), length, width);
    refuse_if(short, Refusal::ListShort)?;
    let rows = normal_positions(pieces, 0, count, length, width, normal_lengths);
    let columns = normal_positions(pieces, 1, count, width, length, normal_widths);
    let needed = words(rows, columns, per_cell);
    refuse_if((room as u64) < needed, Refusal::TableShort(needed))?;
    let size = TableSize {
        length,
        width,
        count,
        rows,
        columns,
        capacity,
    };
    map_sides(size, &normal_lengths[..], &normal_widths[..], floors);
    Ok(Layout {
        size,
        words: needed as usize,
    })
}
