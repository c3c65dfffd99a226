// The word of choices, a bit for each, and the two tests that stand before every call: words enough for the answer, and no bit without
// meaning.
ghost use Rattle.std.specs.Prelude.{◌≡◌, ◌≤◌};
ghost use Rattle.promises.specs.C.{bit, choices_of};
ghost use Rattle.planner_c.specs.Early.{number_of, started};

use promises::Choices;

// Why a call is stopped: its answer has too few words, or a choice is unknown.
#[derive(Clone, Copy, Drop)]
pub enum Stop {
    Short,
    Unknown,
}

impl From<Stop> for u32 {
    ghost from_gives = { λ s n. n ≡ number_of s };

    fn from(stop: Stop) -> u32 {
        match stop {
            Stop::Short => 100,
            Stop::Unknown => 101,
        }
    }
}

// Whether a word has the bit of value n.
fn bit(n: u32, word: u32) -> bool
    requires { 1 ≤ n }
    ensures { result ≡ bit n word }
{
    word / n % 2 == 1
}

// The choices of a word where the call may begin: the answer has as many words as it needs, and each bit of the word has a meaning.
pub fn start(words: usize, needed: usize, choices: u32) -> Result<Choices, Stop>
    ensures { result ≡ started needed words choices }
{
    if words < needed {
        return Err(Stop::Short);
    }
    if 15 < choices {
        return Err(Stop::Unknown);
    }
    Ok(Choices {
        turning: bit(1, choices),
        full_demand: bit(2, choices),
        old_block: bit(4, choices),
        grain: bit(8, choices),
    })
}
