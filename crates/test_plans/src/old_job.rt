// The old job block by its own call, whatever the choices say of it.
use crate::lent::print_fault;
use job::read_old_job;
use promises::{Choices, JobRecord, Refusal};
use std::io;
use test_tools::print_numbers;

fn print_job(rt: &impl Print, job: JobRecord) -> io::Result<()> {
    print_numbers(
        rt,
        b" plate # # pieces # kerf #;",
        &[job.length, job.width, job.count, job.kerf].map(u64::from),
    )
}

// The job of the block, or the refusal.
pub fn run_old_job(rt: &impl Print, block: &[u8]) -> io::Result<()> {
    let none = Choices {
        turning: false,
        full_demand: false,
        old_block: false,
        grain: false,
    };
    match read_old_job(block, none) {
        Ok(job) => print_job(rt, job),
        Err(r) => print_fault(rt, r),
    }
}
