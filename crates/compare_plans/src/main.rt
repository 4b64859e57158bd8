// The plans in the files `old` and `new` are compared: the lines of stretches, or the line of a refusal, on standard output.
#![tactic(auto)]

fn main(rt: HostRuntime) {
    comparison::program::run(&rt, &rt.stderr());
}
