// A plan from standard input becomes an APLX image that keeps one copy of equal put data, or the line of a refusal, on standard output.
#![tactic(auto)]

use conversion::convert::Packing;

fn main(rt: HostRuntime) {
    conversion::program::run(&rt, Packing::SharedAplx);
}
