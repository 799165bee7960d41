// Two records read window by window: both are fed, chunks that are equal once; and whether windows and sums are equal.
#![tactic(auto)]

ghost use Rattle.std.specs.Prelude.{◌≡◌};
ghost use Rattle.window.specs.Both.{alike_of, same_answer_of, both_start, both_fed};

use decide::Refusal;
use feed::Feed;
use summary::Summary;

// Two records so far, and whether all chunks so far were equal.
#[derive(Clone, Copy)]
pub struct Pair {
    pub first: Feed,
    pub second: Feed,
    pub same: bool,
}

// Two records of which no byte has come.
pub fn both() -> Pair
    ensures { result ≡ both_start }
{
    let none = Feed::new();
    Pair {
        first: none,
        second: none,
        same: true,
    }
}

// Two records with a chunk more of each. While all chunks are equal they are fed once.
pub fn fed(before: Pair, first: &[u8], second: &[u8]) -> Pair
    ensures { result ≡ both_fed before first.now second.now }
{
    let a = before.first;
    let one = a.feed(first);
    let same = before.same;
    if same {
        if alike(first, second) {
            return Pair {
                first: one,
                second: one,
                same: true,
            };
        }
    }
    let b = before.second;
    let two = b.feed(second);
    Pair {
        first: one,
        second: two,
        same: false,
    }
}

// Whether two answers are equal summaries.
pub fn same_answer(a: Result<Summary, Refusal>, b: Result<Summary, Refusal>) -> bool
    ensures { result ≡ same_answer_of a b }
{
    match (a, b) {
        (Ok(s), Ok(t)) => s == t,
        _ => false,
    }
}

// Whether two windows have the same bytes.
pub fn alike(first: &[u8], second: &[u8]) -> bool
    ensures { result ≡ alike_of first.now second.now }
{
    first == second
}
