// An APLX image from standard input becomes its plan, or the line of a refusal, on standard output.
#![tactic(auto)]

fn main(rt: HostRuntime) {
    conversion::program::run_read_back(&rt);
}
