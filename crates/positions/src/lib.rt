// Normal positions of either side of the plate, and the map of remainders: for each length the last position not above it.
// One function serves lengths and widths: field 0 of a piece in the array is its length, field 1 its width.
#![tactic(auto)]

ghost use Rattle.std.specs.Prelude.{◌≡◌, ◌&&◌, ◌+◌, ◌≤◌, ◌<◌, leb, length};
ghost use Rattle.cutting.specs.Limits.{most_pieces};
ghost use Rattle.cutting.specs.Normal.{normal?, normals};
ghost use Rattle.positions.specs.Clauses.{Holds, entry, field_in, fitting, positions_of, Scannable, Listable, Mappable, Floors};

// Whether a piece fits: neither side is greater than the plate's.
fn fits(s: u32, o: u32, side: u16, other: u16) -> bool
    ensures { result ≡ leb s side && leb o other }
{
    s <= u32::from(side) && o <= u32::from(other)
}

// The sides of the pieces that fit, squeezed to the front of `fit`.
fn fitting_sides(
    pieces: &[u32; 640],
    field: usize,
    count: u16,
    side: u16,
    other: u16,
    fit: &mut [u16; 128],
) -> u16
    requires { (field ≤ 1) × (count ≤ most_pieces) × (length fit.old ≡ most_pieces) }
    ensures { Holds (fitting pieces.now field count side other) result fit.old fit.new }
{
    let mut n: u16 = 0;
    for i in 0..count {
        let at = 5 * (i as usize);
        let s = pieces[at + field];
        if fits(s, pieces[at + (1 - field)], side, other) {
            fit[n as usize] = s as u16;
            n += 1;
        }
    }
    n
}

// Whether x is 0, or a side leads to it from a marked position.
fn is_normal(marks: &[bool; 1021], fit: &[u16], x: u16) -> bool
    requires { Scannable fit.now x marks.now }
    ensures { result ≡ normal? fit.now x }
{
    x == 0 || fit.iter().any(|&s| s <= x && marks[(x - s) as usize])
}

// Marks the sums up to `side` and lists them: position after position, each from the marks before it.
fn list_sums(fit: &[u16], side: u16, out: &mut [u16]) -> u16
    requires { Listable (entry fit.now) (length fit.now) side (length out.old) }
    ensures { Holds (normals fit.now side) result out.old out.new }
{
    let mut marks = [false; 1021];
    let mut n: u16 = 0;
    for x in 0..=side {
        let normal = is_normal(&marks, fit, x);
        marks[x as usize] = normal;
        if normal {
            out[n as usize] = x;
            n += 1;
        }
    }
    n
}

// The normal positions up to `side`, rising, at the front of `out`; answers how many.
pub fn normal_positions(
    pieces: &[u32; 640],
    field: usize,
    count: u16,
    side: u16,
    other: u16,
    out: &mut [u16],
) -> u16
    requires { (field ≤ 1) × Listable (field_in pieces.now field) count side (length out.old) }
    ensures { Holds (positions_of pieces.now field count side other) result out.old out.new }
{
    let mut fit = [0u16; 128];
    let n = fitting_sides(pieces, field, count, side, other, &mut fit);
    list_sums(&fit[..n as usize], side, out)
}

// For each length up to `side` the index of the last position not above it, found in one pass; nothing is cleared first.
pub fn map_floors(positions: &[u16], count: u16, side: u16, floors: &mut [u16])
    requires { Mappable positions.now count side (length floors.old) }
    ensures { (length floors.new ≡ length floors.old) × Floors positions.now count (side + 1) floors.new }
{
    let mut i: u16 = 0;
    for y in 0..=side {
        let next = i + 1;
        if next < count && positions[next as usize] <= y {
            i = next;
        }
        floors[y as usize] = i;
    }
}
