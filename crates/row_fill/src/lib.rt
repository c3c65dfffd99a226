// The table of figures where the capacity is 0: a cell is one word.
// A row starts as the row before and takes its length cuts as sums of two earlier rows. Its words are then laid out over the units of
// the width, where the pieces of exactly its length are placed and each cell that rises over the one before pushes its width cuts.
#![tactic(auto)]

ghost use Rattle.std.specs.Prelude.{◌≡◌, ◌+◌, ◌-◌, ◌≤◌, ◌<◌, min, length};
ghost use Rattle.cutting.specs.Listed.{listed_weight};
ghost use Rattle.table.specs.Clauses.{size_job, Fillable, FilledBy};
ghost use Rattle.table.specs.Words.{Run};
ghost use Rattle.row_fill.specs.Raised.{Raised, Sums, Alone, Pieces, Pushed, CellPush};
ghost use Rattle.row_fill.specs.Rows.{Entries, Spread, LengthsTaken, Widened, WidthsTaken};
ghost use Rattle.row_fill.specs.Ready.{Capped, SumsReady, LengthsReady, PiecesReady, PushReady, CellReady, WidthsReady, RowReady};

use table::{TableSize, copy, entry, greater, greater_lifted, half, set_run};

// A row over the units of its width: its first word and its number of cells, its length, the plate's width and the number of pieces.
#[derive(Clone, Copy, Drop)]
pub struct Row {
    pub start: usize,
    pub columns: usize,
    pub length: u16,
    pub width: u16,
    pub count: u16,
}

// Each word of a row becomes the sum of its fellows in two earlier rows where that is more.
fn combine(table: &mut [u64], target: usize, first: usize, second: usize, columns: usize)
    requires { SumsReady table.old target first second columns }
    ensures { Raised (Sums table.old target first second columns) table.old table.new }
{
    for j in 0..columns {
        table[target + j] = greater(table[target + j], table[first + j] + table[second + j]);
    }
}

// Row a, from word `start` on, takes its cuts up to the half whose parts make up the whole. The first of the rows begins at word `base`.
pub fn cut_lengths(
    table: &mut [u64],
    normal_lengths: &[u16],
    length_floors: &[u16],
    a: usize,
    half_end: usize,
    base: usize,
    start: usize,
    columns: usize,
)
    requires { LengthsReady normal_lengths.now length_floors.now a half_end base start columns table.old }
    ensures { LengthsTaken normal_lengths.now length_floors.now a half_end base start columns table.old table.new }
{
    let whole = entry(normal_lengths, a);
    let mut first = base + columns;
    for i in 1..half_end {
        let left = whole - entry(normal_lengths, i);
        let rest = entry(length_floors, left);
        if entry(normal_lengths, rest) == left {
            combine(table, start, first, base + rest * columns, columns);
        }
        first += columns;
    }
}

// The row's words, each at the unit of its width.
pub fn spread(
    unit: &mut [u64],
    table: &[u64],
    start: usize,
    normal_widths: &[u16],
    columns: usize,
    side: usize,
)
    requires { Entries normal_widths.now columns side × (side < length unit.old) × (start + columns ≤ length table.now) }
    ensures { Spread normal_widths.now start columns table.now unit.old unit.new }
{
    for b in 0..columns {
        unit[entry(normal_widths, b)] = table[start + b];
    }
}

// A piece of length l and no weight that fits in width w, at the unit of its width.
fn place_piece(
    unit: &mut [u64],
    l: u32,
    w: u32,
    piece_length: u32,
    piece_width: u32,
    weight: u32,
    price: u64,
)
    requires { w < length unit.old }
    ensures { Raised (Alone l w piece_length piece_width weight price) unit.old unit.new }
{
    if piece_length == l && piece_width <= w && weight == 0 {
        let x = piece_width as usize;
        unit[x] = unit[x].max(price);
    }
}

// All pieces of the row's length and no weight.
pub fn place_pieces(unit: &mut [u64], pieces: &[u32; 640], row: Row)
    requires { PiecesReady pieces.now row.count row.width unit.old }
    ensures { Raised (Pieces row.length row.width pieces.now row.count) unit.old unit.new }
{
    for i in 0..row.count as usize {
        let at = 5 * i;
        place_piece(
            unit,
            u32::from(row.length),
            u32::from(row.width),
            pieces[at],
            pieces[at + 1],
            pieces[at + 3],
            u64::from(pieces[at + 2]),
        );
    }
}

// The units past x become v together with those from `least` to `end` less 1 where that is more.
fn push(unit: &mut [u64], x: usize, least: usize, end: usize, v: u64)
    requires { PushReady x least end v unit.old }
    ensures { Raised (Pushed unit.old x least end v) unit.old unit.new }
{
    let lifted = v + 9223372036854775808;
    for j in least..end {
        unit[x + j] = greater_lifted(unit[x + j], lifted + unit[j]);
    }
}

// The cell of width x: what the cell before has if it does not rise over that, else its width cuts as the larger part.
fn push_cell(unit: &mut [u64], x: usize, least: usize, side: usize, before: u64)
    requires { CellReady x least side unit.old }
    ensures { Raised (CellPush unit.old x least side before) unit.old unit.new }
{
    let v = unit[x];
    if v <= before {
        unit[x] = before;
        return;
    }
    push(unit, x, least, x.min(side - x) + 1, v);
}

// The cells of a row take their width cuts, from the units of their widths.
pub fn push_widths(
    table: &mut [u64],
    unit: &mut [u64],
    start: usize,
    normal_widths: &[u16],
    columns: usize,
    side: usize,
)
    requires { WidthsReady normal_widths.now columns side start unit.old table.old }
    ensures { Widened normal_widths.now columns start unit.old table.old table.new × Capped unit.new }
{
    for b in 1..columns {
        let x = entry(normal_widths, b);
        let before = table[start + (b - 1)];
        let past = entry(normal_widths, b - 1) + 1;
        set_run(unit, past, x - past, before);
        push_cell(unit, x, entry(normal_widths, 1), side, before);
        table[start + b] = unit[x];
    }
}

// A row that has its length cuts takes its pieces and its width cuts. What its units held before does not matter.
fn fill_row(
    table: &mut [u64],
    unit: &mut [u64],
    pieces: &[u32; 640],
    normal_widths: &[u16],
    row: Row,
)
    requires { RowReady pieces.now row.count normal_widths.now row.columns row.width row.start unit.old table.old }
    ensures { WidthsTaken (Pieces row.length row.width pieces.now row.count)
        normal_widths.now row.columns row.start table.old table.new × Capped unit.new }
{
    let side = row.width as usize;
    spread(
        unit,
        &table[..],
        row.start,
        normal_widths,
        row.columns,
        side,
    );
    place_pieces(unit, pieces, row);
    push_widths(table, unit, row.start, normal_widths, row.columns, side);
}

// The table of a job with one share a cell: its words are the figures, and the rest is as it was. The row of length 0 holds 0.
pub fn fill(
    size: TableSize,
    pieces: &[u32; 640],
    normal_lengths: &[u16],
    normal_widths: &[u16],
    floors: &[u16],
    table: &mut [u64],
)
    requires { Fillable size pieces.now normal_lengths.now normal_widths.now floors.now table.old × (size.capacity ≡ 0) }
    ensures { FilledBy (size_job size pieces.now) (listed_weight pieces.now) size.capacity table.old table.new }
{
    let columns = size.columns as usize;
    let rows = size.rows as usize;
    let mut unit = [0u64; 1021];
    set_run(table, 0, columns, 0);
    let mut start = columns;
    let mut half_end = 1;
    for a in 1..rows {
        half_end = half(normal_lengths, half_end, a);
        copy(table, start - columns, start, columns);
        cut_lengths(
            table,
            normal_lengths,
            floors,
            a,
            half_end,
            0,
            start,
            columns,
        );
        let row = Row {
            start,
            columns,
            length: normal_lengths[a],
            width: size.width,
            count: size.count,
        };
        fill_row(table, &mut unit, pieces, normal_widths, row);
        start += columns;
    }
}
