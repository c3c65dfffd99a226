// A word of a cell: a figure below 2^41, and a note above it, which in a list has a mark.
ghost use Rattle.std.specs.Prelude.{◌≡◌, true, false, ◌+◌, ◌≤◌, ◌<◌, MatchOption};
ghost use Rattle.states.specs.States.{figure_in, note_in, mark_in};

// The least note, of a flag; figures are below it.
pub const FLAG: u64 = 2199023255552;

// A cell that is made: the last digit of its states, its number of words, one for each state, and the word where it begins.
#[derive(Clone, Copy, Drop)]
pub struct Cell {
    pub d: usize,
    pub words: usize,
    pub at: usize,
}

// The figure of a word.
pub fn figure(w: u64) -> u64
    ensures { (result ≡ figure_in w) × (result < 2199023255552) }
{
    w % FLAG
}

// Whether a word has a note.
pub fn flagged(w: u64) -> bool
    ensures { (result ≡ true → 1 ≤ note_in w) × (result ≡ false → note_in w ≡ 0) }
{
    FLAG <= w
}

// The state that a word of a list notes, if the list has not ended. An entry of a list is 4 · s + 1 and a mark from 0 to 2 above the figure,
// so state s is what stands above two more bits.
pub fn listed(w: u64) -> Option<usize>
    ensures { MatchOption result (note_in w ≡ 0) (λ s. (note_in w ≡ s + 1) × (s < 8388607)) }
{
    if w < FLAG {
        return None;
    }
    Some((w / 8796093022208) as usize)
}

// The mark of a word with a note.
pub fn mark(w: u64) -> usize
    ensures { result ≡ mark_in w }
{
    ((w / FLAG + 3) % 4) as usize
}
