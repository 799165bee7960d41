// The program join: the same as the command `rpr join`, but for its exit status, which this program has none of.
#![tactic(auto)]

fn main(rt: HostRuntime) {
    commands::rpr_main_join(&rt);
}
