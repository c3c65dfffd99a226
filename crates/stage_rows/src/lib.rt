// The staged table where the capacity is 0: a cell is one word, and each block is filled row after row by the steps of the fill by rows.
// In the block without a cut a row starts as the row before and takes its pieces. In a length-first block it starts as the greater of its
// source's row and the row before, and takes its length cuts. In a width-first block its source's row is laid out over the units of the
// width, and each cell that rises over the one before pushes its width cuts.
#![tactic(auto)]

ghost use Rattle.std.specs.Prelude.{◌≡◌, ◌+◌, ◌*◌, ◌≤◌, max, get_or};
ghost use Rattle.promises.specs.declared.Direction.TheVariants.{Length};
ghost use Rattle.cutting.specs.Limits.{most_limit};
ghost use Rattle.cutting.specs.Listed.{listed_weight};
ghost use Rattle.table.specs.Clauses.{size_job, StagedFillable, StagedBy};
ghost use Rattle.table.specs.Staged.{block_number};
ghost use Rattle.table.specs.Words.{Outside, Run};
ghost use Rattle.row_fill.specs.Raised.{Pieces};
ghost use Rattle.row_fill.specs.Ready.{Capped, WidthsReady, RowReady};
ghost use Rattle.stage_rows.specs.Blocks.{Gathered, UncutRow, UncutLent, UncutBlock, GreaterReady, LengthsLent, LengthBlock, WidenReady, WidenedRow, WidthsLent, WidthBlock};

use row_fill::{Row, cut_lengths, place_pieces, push_widths, spread};
use table::{TableSize, copy, entry, greater, half, set_run};

// From the second cell of a row on, each word becomes the greater of the unit of its width and of the word before.
fn gather(
    table: &mut [u64],
    unit: &[u64],
    start: usize,
    normal_widths: &[u16],
    columns: usize,
    side: usize,
)
    requires { WidthsReady normal_widths.now columns side start unit.now table.old }
    ensures { Gathered normal_widths.now columns start unit.now table.old table.new }
{
    for b in 1..columns {
        table[start + b] = greater(unit[entry(normal_widths, b)], table[start + (b - 1)]);
    }
}

// A row that starts as the row before takes its pieces, and no cell is below the one before.
fn uncut_row(
    table: &mut [u64],
    unit: &mut [u64],
    pieces: &[u32; 640],
    normal_widths: &[u16],
    row: Row,
)
    requires { RowReady pieces.now row.count normal_widths.now row.columns row.width row.start unit.old table.old }
    ensures { UncutRow (Pieces row.length row.width pieces.now row.count) normal_widths.now row.columns row.start table.old table.new
        × Capped unit.new }
{
    let side = row.width as usize;
    spread(
        unit,
        &table[..],
        row.start,
        normal_widths,
        row.columns,
        side,
    );
    place_pieces(unit, pieces, row);
    gather(
        table,
        &unit[..],
        row.start,
        normal_widths,
        row.columns,
        side,
    );
}

// The block without a cut, at the table's begin.
fn fill_uncut(
    table: &mut [u64],
    pieces: &[u32; 640],
    normal_lengths: &[u16],
    normal_widths: &[u16],
    size: TableSize,
)
    requires { UncutLent size pieces.now normal_lengths.now normal_widths.now table.old }
    ensures { UncutBlock size.width pieces.now size.count normal_lengths.now normal_widths.now size.rows size.columns table.old table.new }
{
    let columns = size.columns as usize;
    let rows = size.rows as usize;
    let mut unit = [0u64; 1021];
    set_run(table, 0, columns, 0);
    for a in 1..rows {
        let start = a * columns;
        copy(table, start - columns, start, columns);
        let row = Row {
            start,
            columns,
            length: normal_lengths[a],
            width: size.width,
            count: size.count,
        };
        uncut_row(table, &mut unit, pieces, normal_widths, row);
    }
}

// Each word of a row becomes the greater of its fellows in two earlier rows.
fn greater_row(table: &mut [u64], target: usize, first: usize, second: usize, columns: usize)
    requires { GreaterReady table.old target first second columns }
    ensures { Run (λ j. max (get_or table.old (first + j) 0) (get_or table.old (second + j) 0)) target columns table.old table.new }
{
    for j in 0..columns {
        table[target + j] = greater(table[first + j], table[second + j]);
    }
}

// A length-first block, from word `at` on; its source lies from word `source` on.
fn fill_lengths(
    table: &mut [u64],
    normal_lengths: &[u16],
    floors: &[u16],
    size: TableSize,
    source: usize,
    at: usize,
)
    requires { LengthsLent normal_lengths.now floors.now size.rows size.columns source at table.old }
    ensures { LengthBlock normal_lengths.now floors.now size.rows size.columns source at table.old table.new }
{
    let columns = size.columns as usize;
    let rows = size.rows as usize;
    set_run(table, at, columns, 0);
    let mut half_end = 1;
    for a in 1..rows {
        half_end = half(normal_lengths, half_end, a);
        let row = a * columns;
        let start = at + row;
        greater_row(table, start, source + row, start - columns, columns);
        cut_lengths(
            table,
            normal_lengths,
            floors,
            a,
            half_end,
            at,
            start,
            columns,
        );
    }
}

// A row of a width-first block, from word `start` on; its source's row lies from word `source` on.
fn widen_row(
    table: &mut [u64],
    unit: &mut [u64],
    source: usize,
    start: usize,
    normal_widths: &[u16],
    columns: usize,
    side: usize,
)
    requires { WidenReady normal_widths.now columns side source start unit.old table.old }
    ensures { WidenedRow normal_widths.now columns source start table.old table.new × Outside start (start + columns) table.old table.new
        × Capped unit.new }
{
    spread(unit, &table[..], source, normal_widths, columns, side);
    table[start] = unit[0];
    push_widths(table, unit, start, normal_widths, columns, side);
}

// A width-first block, from word `at` on; its source lies from word `source` on.
fn fill_widths(table: &mut [u64], normal_widths: &[u16], size: TableSize, source: usize, at: usize)
    requires { WidthsLent normal_widths.now size.rows size.columns size.width source at table.old }
    ensures { WidthBlock normal_widths.now size.rows size.columns source at table.old table.new }
{
    let columns = size.columns as usize;
    let side = size.width as usize;
    let mut unit = [0u64; 1021];
    for a in 0..size.rows as usize {
        let row = a * columns;
        widen_row(
            table,
            &mut unit,
            source + row,
            at + row,
            normal_widths,
            columns,
            side,
        );
    }
}

// The staged table of pieces and a limit where the capacity is 0: its words are the blocks' figures, and the rest is as it was.
pub fn fill(
    size: TableSize,
    limit: usize,
    pieces: &[u32; 640],
    normal_lengths: &[u16],
    normal_widths: &[u16],
    floors: &[u16],
    table: &mut [u64],
)
    requires { StagedFillable size limit pieces.now normal_lengths.now normal_widths.now floors.now table.old × (size.capacity ≡ 0) }
    ensures { StagedBy (size_job size pieces.now) (listed_weight pieces.now) limit size.capacity table.old table.new }
{
    let cells = (size.rows as usize) * (size.columns as usize);
    fill_uncut(table, pieces, normal_lengths, normal_widths, size);
    for below in 0..limit {
        let at = (2 * below + 1) * cells;
        fill_lengths(table, normal_lengths, floors, size, at - cells, at);
        let source = (2 * below).saturating_sub(1) * cells;
        fill_widths(table, normal_widths, size, source, at + cells);
    }
}
