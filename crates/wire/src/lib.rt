// Numbers in slices of bytes, in both orders, and signed numbers as unsigned ones. A place stands beside the slice, and the slice is not cut there: what the public
// clauses say of a write is how the whole slice is afterwards.
#![tactic(auto)]

ghost use Rattle.std.specs.Prelude.{◌≡◌, ◌+◌, ◌*◌, ◌≤◌, length, take, drop};
ghost use Rattle.wire.specs.Wire.{le, be, digits, digits_be, put};
ghost use Rattle.wire.specs.Words.{words_at, words_bytes};
ghost use Rattle.wire.specs.Signed.{signed_of, unsigned_of};

// ---- least byte first

// The number in the 2 bytes of `s` from `at` on, least byte first.
pub fn get16(s: &[u8], at: usize) -> u16
    requires { at + 2 ≤ length s.now }
    ensures { result ≡ le 2 s.now at }
{
    u16::from_le_bytes(read(s, at))
}

// The number in the 4 bytes of `s` from `at` on, least byte first.
pub fn get32(s: &[u8], at: usize) -> u32
    requires { at + 4 ≤ length s.now }
    ensures { result ≡ le 4 s.now at }
{
    u32::from_le_bytes(read(s, at))
}

// The number in the 8 bytes of `s` from `at` on, least byte first.
pub fn get64(s: &[u8], at: usize) -> u64
    requires { at + 8 ≤ length s.now }
    ensures { result ≡ le 8 s.now at }
{
    u64::from_le_bytes(read(s, at))
}

// Writes `v` to the 2 bytes of `s` from `at` on, least byte first.
pub fn put16(s: &mut [u8], at: usize, v: u16)
    requires { at + 2 ≤ length s.old }
    ensures { s.new ≡ put s.old at (digits 2 v) }
{
    write(s, at, v.to_le_bytes());
}

// Writes `v` to the 4 bytes of `s` from `at` on, least byte first.
pub fn put32(s: &mut [u8], at: usize, v: u32)
    requires { at + 4 ≤ length s.old }
    ensures { s.new ≡ put s.old at (digits 4 v) }
{
    write(s, at, v.to_le_bytes());
}

// Writes `v` to the 8 bytes of `s` from `at` on, least byte first.
pub fn put64(s: &mut [u8], at: usize, v: u64)
    requires { at + 8 ≤ length s.old }
    ensures { s.new ≡ put s.old at (digits 8 v) }
{
    write(s, at, v.to_le_bytes());
}

// ---- greatest byte first

// The number in the 2 bytes of `s` from `at` on, greatest byte first.
pub fn get16be(s: &[u8], at: usize) -> u16
    requires { at + 2 ≤ length s.now }
    ensures { result ≡ be 2 s.now at }
{
    u16::from_be_bytes(read(s, at))
}

// The number in the 6 bytes of `s` from `at` on, greatest byte first.
pub fn get48be(s: &[u8], at: usize) -> u64
    requires { at + 6 ≤ length s.now }
    ensures { result ≡ be 6 s.now at }
{
    let [a, b, c, d, e, f]: [u8; 6] = read(s, at);
    u64::from_be_bytes([0, 0, a, b, c, d, e, f])
}

// Writes `v` to the 2 bytes of `s` from `at` on, greatest byte first.
pub fn put16be(s: &mut [u8], at: usize, v: u16)
    requires { at + 2 ≤ length s.old }
    ensures { s.new ≡ put s.old at (digits_be 2 v) }
{
    write(s, at, v.to_be_bytes());
}

// Writes `v` to the 6 bytes of `s` from `at` on, greatest byte first; what is above 48 bits is left out.
pub fn put48be(s: &mut [u8], at: usize, v: u64)
    requires { at + 6 ≤ length s.old }
    ensures { s.new ≡ put s.old at (digits_be 6 v) }
{
    let [_, _, a, b, c, d, e, f] = v.to_be_bytes();
    write(s, at, [a, b, c, d, e, f]);
}

// ---- bytes

// The N bytes of `s` from `at` on.
fn read<const N: usize>(s: &[u8], at: usize) -> [u8; N]
    requires { at + N ≤ length s.now }
    ensures { result ≡ take N (drop at s.now) }
{
    <[u8; N]>::try_from(&s[at..at + N]).unwrap()
}

// Writes N bytes to `s` from `at` on.
fn write<const N: usize>(s: &mut [u8], at: usize, bytes: [u8; N])
    requires { at + N ≤ length s.old }
    ensures { s.new ≡ put s.old at bytes.entry }
{
    s[at..at + N].copy_from_slice(&bytes);
}

// ---- words

// The N words that stand in `s` from `at` on, whatever they are the words of.
pub fn read_words<const N: usize>(s: &[u8], at: usize) -> [u32; N]
    requires { at + 4 * N ≤ length s.now }
    ensures { result ≡ words_at N s.now at }
{
    let mut words = [0; N];
    for i in 0..N {
        words[i] = get32(s, at + 4 * i);
    }
    words
}

// Writes N words to `s` from `at` on, and leaves all other bytes.
pub fn write_words<const N: usize>(words: [u32; N], s: &mut [u8], at: usize)
    requires { at + 4 * N ≤ length s.old }
    ensures { (s.new ≡ put s.old at (words_bytes words.entry)) × (length words.entry ≡ N) }
{
    for i in 0..N {
        put32(s, at + 4 * i, words[i]);
    }
}

// ---- signed numbers

// The integer that `x` stands for as a signed number in 8 bytes.
pub fn signed64(x: u64) -> i64
    ensures { result ≡ signed_of x }
{
    x.cast_signed()
}

// The number below 2 ^ 64 that stands for `x` as a signed number in 8 bytes.
pub fn unsigned64(x: i64) -> u64
    ensures { result ≡ unsigned_of x }
{
    x.cast_unsigned()
}
