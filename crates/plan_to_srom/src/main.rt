// A plan from standard input becomes a serial ROM image, or the line of a refusal, on standard output.
#![tactic(auto)]

use conversion::convert::Packing;

fn main(rt: HostRuntime) {
    conversion::program::run(&rt, Packing::Srom);
}
