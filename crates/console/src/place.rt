// Where a file stands, by what the system tells of it: `pos:`, blanks, and the place in decimal, on its first line.
ghost use Rattle.std.specs.Prelude.{◌≡◌};
ghost use Rattle.console.specs.Place.{with_digit, place_of};

// The place that is told: the first number of a text, or 0 where it has none.
pub fn place_of(text: &[u8]) -> u64
    ensures { result ≡ place_of text.now }
{
    text.iter()
        .skip_while(|c| !c.is_ascii_digit())
        .take_while(|c| c.is_ascii_digit())
        .fold(0, |place, c| with_digit(place, *c))
}

// A number with a digit more behind it, or the largest of 64 bits where that is larger.
fn with_digit(number: u64, digit: u8) -> u64
    ensures { result ≡ with_digit number digit }
{
    let worth = decide::less(u64::from(digit), u64::from(b'0'));
    number.saturating_mul(10).saturating_add(worth)
}
