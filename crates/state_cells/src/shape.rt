// What every step of the fill is lent beside its lists and the array of pieces: the numbers below. The state of a piece is the array's entry
// for its weight.
ghost use Rattle.std.specs.Prelude.{◌≡◌, ◌≤◌};
ghost use Rattle.state_cells.specs.Places.{shape_of};

use table::TableSize;

// The plate's length and width and the number of its pieces, the numbers of normal lengths and of normal widths, the last digit d of the
// states, the words of a cell, and those from a cell to the one of the next normal length.
#[derive(Clone, Copy, Drop)]
pub struct Shape {
    pub length: u16,
    pub width: u16,
    pub count: usize,
    pub length_count: usize,
    pub columns: usize,
    pub d: usize,
    pub words: usize,
    pub stride: usize,
}

// The shape of a table of that size, with so many words a cell, over states of the digits up to d.
pub fn shape_of(size: TableSize, d: usize, words: usize) -> Shape
    requires { words ≤ 65536 }
    ensures { result ≡ shape_of size d words }
{
    let columns = size.columns as usize;
    Shape {
        length: size.length,
        width: size.width,
        count: size.count as usize,
        length_count: size.rows as usize,
        columns,
        d,
        words,
        stride: columns * words,
    }
}
