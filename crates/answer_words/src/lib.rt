// Answers in words: a call's values at the front of the answer, or a refusal's place in the first word, and the number returned. A report
// says by the trait `Words` which values it has; one function hands over every answer.
#![tactic(auto)]

mod reports;

ghost use Rattle.std.specs.Prelude.{◌≡◌, List, [], ◌∷◌, ℕ, ◌+◌, ◌≤◌, ◌<◌, length, take};
ghost use Rattle.std.specs.Result.{ForOk, result_unwrap_or};
ghost use Rattle.cutting.specs.Lists.{over};
ghost use Rattle.refusal.specs.Refusals.{refused_as, outcome_of, by_check, verdict_of};
ghost use Rattle.answer_words.specs.Words.{Gives};

use promises::Refusal;

// A report that goes into answer words.
pub trait Words {
    // how many words it fills
    ghost count: { ℕ };

    // its values, in their order
    ghost values: { Self → List ℕ };

    // what has to hold of it, so that each value fits into a word
    ghost fits: { Self → Type 0 } = { λ _. Unit {0} };

    // Puts the values at the front of the answer.
    fn put(&self, answer: &mut [u64])
        requires { (count ≤ length answer.old) × fits self.now }
        ensures { answer.new ≡ over (values self.now) answer.old };
}

// Values at the front of the answer.
fn put_words(values: &[u64], answer: &mut [u64])
    requires { length values.now ≤ length answer.old }
    ensures { answer.new ≡ over values.now answer.old }
{
    answer[..values.len()].copy_from_slice(values);
}

// A refusal: its number is returned, its place put in the first word.
pub fn refuse(r: Refusal, answer: &mut [u64]) -> u32
    requires { 0 < length answer.old }
    ensures { Gives (refused_as r) result answer.old answer.new }
{
    answer[0] = refusal::place(r);
    u32::from(refusal::number(r))
}

// What a call answers: 0 and its report's values, or the refusal.
pub fn put_answer<R: Words>(a: &Result<R, Refusal>, answer: &mut [u64]) -> u32
    requires { (0 < length answer.old) × (R.count ≤ length answer.old) × ForOk a.now R.fits }
    ensures { Gives (outcome_of R.values a.now) result answer.old answer.new }
{
    match a {
        Err(r) => refuse(*r, answer),
        Ok(report) => {
            report.put(answer);
            0
        }
    }
}

// What the check of a rack answers: a pass has no word and writes the profits of its plates, at most 16.
pub fn put_profits(a: &Result<[u64; 16], Refusal>, profits: &mut [u64], answer: &mut [u64]) -> u32
    requires { (0 < length answer.old) × ForOk a.now (λ p. length profits.old ≤ 16) }
    ensures words { Gives (outcome_of (λ p. []) a.now) result answer.old answer.new }
    ensures profits { profits.new ≡ by_check (verdict_of a.now) (take (length profits.old) (result_unwrap_or a.now [])) (λ r. profits.old) }
{
    match a {
        Err(r) => refuse(*r, answer),
        Ok(paid) => {
            let n = profits.len();
            profits.copy_from_slice(&paid[..n]);
            0
        }
    }
}
