// The bound printer: an old job block (without a kerf) and then its weights from standard input, at most 711 bytes; it prints the bound and
// the plan behind it, or the refusal.
#![tactic(auto)]

use std::io;

fn main(rt: HostRuntime) -> io::Result<()> {
    printer::print_input(&rt, &mut rt.reader())
}
