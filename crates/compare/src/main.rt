// The program compare: the same as the command `rpr compare`, but for its exit status, which this program has none of.
#![tactic(auto)]

fn main(rt: HostRuntime) {
    commands::rpr_main_compare(&rt);
}
