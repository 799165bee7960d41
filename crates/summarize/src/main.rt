// The program summarize: the same as the command `rpr summarize`, but for its exit status, which this program has none of.
#![tactic(auto)]

fn main(rt: HostRuntime) {
    commands::rpr_main_summarize(&rt);
}
