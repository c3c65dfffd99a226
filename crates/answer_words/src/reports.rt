// The values of each report, in the order of the C interface.
ghost use Rattle.std.specs.Prelude.{◌≡◌, [], ◌∷◌, ◌+◌, ◌-◌, ◌≤◌, length};
ghost use Rattle.std.proofs.lemmas.List.Edits.{sets};
ghost use Rattle.cutting.specs.Limits.{most_kinds};
ghost use Rattle.cutting.specs.Lists.{over};
ghost use Rattle.promises.specs.Calls.{plan_values, staged_values, bound_values, two_values, write_values, exact_values, certificate_values, neat_values};
ghost use Rattle.promises.specs.Rounds.{found_values};
ghost use Rattle.promises.specs.Saw.{saw_values};
ghost use Rattle.promises.specs.True.{true_values};
ghost use Rattle.promises.specs.Orders.{plates_values, lagrangian_values};
ghost use Rattle.answer_words.specs.Words.{GapWithin, InOrder, part_values};

use crate::{Words, put_words};
use promises::{
    BoundReport, Certificate, ExactReport, LagrangianReport, Part, PlatesReport, Report, SawReport,
    StagedReport, TrueReport, TwoReport, WeightsFound, WriteReport,
};

// The copies of 64 kinds, from word `at` on. Each is stored as it is read: an array of words between would take as long as a short call.
fn put_copies(copies: &[u16; 64], at: usize, answer: &mut [u64])
    requires { at + 64 ≤ length answer.old }
    ensures { (answer.new ≡ sets answer.old at copies.now) × (length copies.now ≡ most_kinds) }
{
    for i in 0..64 {
        answer[at + i] = u64::from(copies[i]);
    }
}

// The weights of 64 kinds, in the same way.
fn put_weights(weights: &[u8; 64], at: usize, answer: &mut [u64])
    requires { at + 64 ≤ length answer.old }
    ensures { (answer.new ≡ sets answer.old at weights.now) × (length weights.now ≡ most_kinds) }
{
    for i in 0..64 {
        answer[at + i] = u64::from(weights[i]);
    }
}

// A check, which has no values.
impl Words for () {
    ghost count = { 0 };

    ghost values = { λ _. [] };

    fn put(&self, answer: &mut [u64]) {}
}

// A number of nodes.
impl Words for u64 {
    ghost count = { 1 };

    ghost values = { neat_values };

    fn put(&self, answer: &mut [u64]) {
        answer[0] = *self;
    }
}

impl Words for BoundReport {
    ghost count = { 4 };

    ghost values = { bound_values };

    fn put(&self, answer: &mut [u64]) {
        let counts = [self.capacity, self.length_count, self.columns].map(u64::from);
        put_words(&[self.bound], answer);
        put_words(&counts, &mut answer[1..]);
    }
}

impl Words for WriteReport {
    ghost count = { 5 };

    ghost values = { write_values };

    fn put(&self, answer: &mut [u64]) {
        let counts = [self.capacity, self.length_count, self.columns].map(u64::from);
        put_words(&[self.bound], answer);
        put_words(&counts, &mut answer[1..]);
        answer[4] = self.nodes;
    }
}

impl Words for TwoReport {
    ghost count = { 5 };

    ghost values = { two_values };

    fn put(&self, answer: &mut [u64]) {
        let counts = [
            self.first_capacity,
            self.second_capacity,
            self.length_count,
            self.columns,
        ]
        .map(u64::from);
        put_words(&[self.bound], answer);
        put_words(&counts, &mut answer[1..]);
    }
}

impl Words for ExactReport {
    ghost count = { 5 };

    ghost values = { exact_values };

    fn put(&self, answer: &mut [u64]) {
        let counts = [self.length_count, self.columns].map(u64::from);
        put_words(&[self.optimum, u64::from(self.states)], answer);
        put_words(&counts, &mut answer[2..]);
        answer[4] = self.nodes;
    }
}

impl Words for PlatesReport {
    ghost count = { 3 };

    ghost values = { plates_values };

    fn put(&self, answer: &mut [u64]) {
        put_words(&[self.plates, self.bound, self.worth], answer);
    }
}

impl Words for LagrangianReport {
    ghost count = { 5 };

    ghost values = { lagrangian_values };

    fn put(&self, answer: &mut [u64]) {
        answer[0] = self.lagrangian;
        self.lowered.put(&mut answer[1..]);
    }
}

impl Words for TrueReport {
    ghost count = { 3 };

    ghost values = { true_values };

    fn put(&self, answer: &mut [u64]) {
        put_words(&[self.nodes, self.length, self.width], answer);
    }
}

// The gap, 0 for best, the bound and the profit.
impl Words for Certificate {
    ghost count = { 3 };

    ghost values = { certificate_values };

    ghost fits = { GapWithin };

    fn put(&self, answer: &mut [u64]) {
        match *self {
            Certificate::Best(profit) => put_words(&[0, profit, profit], answer),
            Certificate::Gap(profit, gap) => put_words(&[gap, profit + gap, profit], answer),
        }
    }
}

// The first entry of a part and the number of its entries.
impl Words for Part {
    ghost count = { 2 };

    ghost values = { part_values };

    ghost fits = { InOrder };

    fn put(&self, answer: &mut [u64]) {
        put_words(
            &[self.first as u64, (self.past - self.first) as u64],
            answer,
        );
    }
}

// A plan's report. That it has 69 values is handed on to the proof of the caller.
fn put_report(r: &Report, answer: &mut [u64])
    requires { 69 ≤ length answer.old }
    ensures { (answer.new ≡ over (plan_values r.now) answer.old) × (length (plan_values r.now) ≡ 69) }
{
    put_words(&[r.profit, r.pieces, r.waste, r.trim], answer);
    put_copies(&r.copies, 4, answer);
    answer[68] = r.sawdust;
}

impl Words for Report {
    ghost count = { 69 };

    ghost values = { plan_values };

    fn put(&self, answer: &mut [u64]) {
        put_report(self, answer);
    }
}

impl Words for StagedReport {
    ghost count = { 70 };

    ghost values = { staged_values };

    fn put(&self, answer: &mut [u64]) {
        put_report(&self.report, answer);
        answer[69] = u64::from(self.stages);
    }
}

impl Words for SawReport {
    ghost count = { 68 };

    ghost values = { saw_values };

    fn put(&self, answer: &mut [u64]) {
        put_words(&[self.pieces, self.waste, self.trim], answer);
        put_copies(&self.copies, 3, answer);
        answer[67] = self.sawdust;
    }
}

impl Words for WeightsFound {
    ghost count = { 66 };

    ghost values = { found_values };

    fn put(&self, answer: &mut [u64]) {
        put_words(&[self.bound, u64::from(self.rounds)], answer);
        put_weights(&self.weights, 2, answer);
    }
}
