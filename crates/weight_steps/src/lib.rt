// The exact steps of the weight rounds: formulas 12 and 13 of Morabito and Pureza in whole numbers. From the copies of a round's plan, the
// demands, the round's weights and its gap they give the weights of the next round (specs/Step).
#![tactic(auto)]

ghost use Rattle.std.specs.Prelude.{◌≡◌, ◌+◌, ◌*◌, ◌-◌, ◌≤◌, ◌<◌, min, ltb, get_or};
ghost use Rattle.job.specs.Block.{entries};
ghost use Rattle.weight_steps.specs.Step.{factor, factors, distance, root_below, scale, stepped, adjusted};
ghost use Rattle.weight_steps.specs.Clauses.{summed_squares};

// The factor of each round in sixteenths: 2, halved after every third round.
const FACTORS: [u64; 18] = [32, 32, 32, 16, 16, 16, 8, 8, 8, 4, 4, 4, 2, 2, 2, 1, 1, 1];

// The greatest x up to 255 whose square is at most p / q.
fn root(p: u64, q: u64) -> u8
    requires { q ≤ 5000000000000 }
    ensures { result ≡ root_below 255 p q }
{
    for x in 0..255u8 {
        let y = u64::from(x) + 1;
        if p < y * y * q {
            return x;
        }
    }
    255
}

// The weight of a kind in the next round, where s is top / q.
fn adjust(weight: u8, copies: u16, demand: u16, top: u64, q: u64) -> u8
    requires { (top ≤ 32000000000000) × (q ≤ 5000000000000) }
    ensures { result ≡ stepped (ltb demand copies) weight (root_below 255 (distance copies demand * top) q) }
{
    let x = root(u64::from(copies.abs_diff(demand)) * top, q);
    if demand < copies {
        weight.saturating_add(x)
    } else {
        weight.saturating_sub(x)
    }
}

// The summed squares of the distances of n kinds.
fn sum_squares(copies: &[u16; 64], demands: &[u16; 64], n: u16) -> u64
    requires { n ≤ 64 }
    ensures { (result ≡ summed_squares copies.now demands.now n) × (result ≤ 4294836225 * n) }
{
    let mut squares = 0;
    for i in 0..n as usize {
        let d = u64::from(copies[i].abs_diff(demands[i]));
        squares += d * d;
    }
    squares
}

// The weights of n kinds in the next round, where s is top / q.
fn adjust_all(
    weights: &[u8; 64],
    copies: &[u16; 64],
    demands: &[u16; 64],
    n: u16,
    top: u64,
    q: u64,
) -> [u8; 64]
    requires { (n ≤ 64) × (top ≤ 32000000000000) × (q ≤ 5000000000000) }
    ensures { result ≡ entries (λ i. stepped (ltb (get_or demands.now i 0) (get_or copies.now i 0)) (get_or weights.now i 0)
        (root_below 255 (distance (get_or copies.now i 0) (get_or demands.now i 0) * top) q)) n }
{
    let mut adjusted = [0; 64];
    for i in 0..n as usize {
        adjusted[i] = adjust(weights[i], copies[i], demands[i], top, q);
    }
    adjusted
}

// The weights of n kinds in the next round, from the round's gap.
pub fn next_weights(
    weights: &[u8; 64],
    copies: &[u16; 64],
    demands: &[u16; 64],
    n: u16,
    round: u16,
    gap: u64,
) -> [u8; 64]
    requires { (n ≤ 64) × (round < 18) × (gap ≤ 1000000000000) }
    ensures { result ≡ entries (λ i. adjusted (factor round) gap (summed_squares copies.now demands.now n)
        (get_or weights.now i 0) (get_or copies.now i 0) (get_or demands.now i 0)) n }
{
    let q = 16 * sum_squares(copies, demands, n);
    let top = q.max(FACTORS[round as usize] * gap);
    adjust_all(weights, copies, demands, n, top, q)
}
