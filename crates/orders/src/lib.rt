// A whole order in numbers: demand times a price or a multiplier, summed over the kinds, and the plates needed for what an order is worth.
// specs/Racks and specs/Orders say in plain words what plans on several plates are and when they hold an order.
#![tactic(auto)]

ghost use Rattle.std.specs.Prelude.{◌≡◌, ◌-◌, ◌*◌, ◌^◌, ◌<◌, ◌≤◌, get_or};
ghost use Rattle.cutting.specs.Limits.{most_figure};
ghost use Rattle.cutting.specs.Lists.{sum};
ghost use Rattle.orders.specs.Orders.{most_worth, amount_in, plates_for, Summable};

// A number of copies times an amount.
fn times(copies: u16, amount: u32) -> u64
    ensures { (result ≡ copies * amount) × (result < 2 ^ 48) }
{
    u64::from(copies) * u64::from(amount)
}

// Demand times amount, summed over the kinds.
pub fn worth(count: u16, demands: &[u16; 64], amounts: &[u32]) -> u64
    requires { Summable count demands.now amounts.now }
    ensures { (result ≡ sum count (λ i. get_or demands.now i 0 * amount_in amounts.now i)) × (result ≤ most_worth) }
{
    let mut total = 0;
    for k in 0..count as usize {
        total += times(demands[k], amounts[k]);
    }
    total
}

// The plates needed for what is left of a worth where no plate earns more than a bound: 2^64 - 1 where the bound is 0 and something is left.
pub fn plates(bound: u64, worth: u64, other: u64) -> u64
    requires { (bound ≤ most_figure) × (worth ≤ most_worth) }
    ensures { result ≡ plates_for bound (worth - other) }
{
    let left = worth.saturating_sub(other);
    if 0 < bound {
        return left.div_ceil(bound);
    }
    if 0 < left { u64::MAX } else { 0 }
}
