// The library for a host written in C: the call of rpr_heartbeat.h, which is the function of that name in the crate heartbeat and promises what that promises.
#![tactic(auto)]

ghost use Rattle.std.specs.Prelude.{◌≡◌};
ghost use Rattle.heartbeat.specs.Heartbeat.{heartbeat_answer};

// Whether a pattern, repeated so many times, is permitted throughout from loLimit, and if so the credit at the end. The number of the pattern's earliest fault, which is 3 at a
// 257th event; then 9 where the repeats have over 1,000,000 events.
#[unsafe(no_mangle)]
pub extern "C" fn rpr_heartbeat(pattern: &[u8], repeats: u64) -> u64
    ensures { result ≡ heartbeat_answer pattern.now repeats }
{
    heartbeat::rpr_heartbeat(pattern, repeats)
}
