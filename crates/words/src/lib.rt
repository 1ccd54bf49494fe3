// Bytes several at a time.
#![tactic(auto)]

ghost use Rattle.std.specs.Prelude.{◌≡◌, true, ◌+◌, ◌≤◌, ◌<◌};
ghost use lib.ListN.{length};
ghost use Rattle.meaning.specs.Calls.{Says};
ghost use Rattle.words.specs.Words.{word_of, Again, mixed_of, few_of, long_hash_of, hash_of};

// Four bytes as one number, the first the lowest. The compiler makes one load of it.
pub fn half(text: &[u8], i: usize) -> u64
    requires { i + 4 ≤ length text.now }
    ensures { (result ≡ word_of text.now i 4) × (result < 4294967296) }
{
    let a = u64::from(text[i]);
    let b = u64::from(text[i + 1]);
    let c = u64::from(text[i + 2]);
    let d = u64::from(text[i + 3]);
    a + 256 * (b + 256 * (c + 256 * d))
}

// Eight bytes.
pub fn word(text: &[u8], i: usize) -> u64
    requires { i + 8 ≤ length text.now }
    ensures { result ≡ word_of text.now i 8 }
{
    half(text, i) + 4294967296 * half(text, i + 4)
}

// The same byte by byte.
pub fn same_bytes(left: &[u8], at: usize, right: &[u8], from: usize, length: usize) -> bool
    requires { (at + length ≤ lib.ListN.length left.now) × (from + length ≤ lib.ListN.length right.now) }
    ensures { Says result (Again left.now at right.now from length) }
{
    left[at..at + length] == right[from..from + length]
}

// Four to seven bytes: the first four and the last four.
fn same_halves(left: &[u8], at: usize, right: &[u8], from: usize, length: usize) -> bool
    requires { (4 ≤ length) × (length < 8) × (at + length ≤ lib.ListN.length left.now) × (from + length ≤ lib.ListN.length right.now) }
    ensures { Says result (Again left.now at right.now from length) }
{
    if half(left, at) != half(right, from) {
        return false;
    }
    let rest = length - 4;
    half(left, at + rest) == half(right, from + rest)
}

// Eight bytes or more, eight at a time; the last eight are taken from the end.
fn same_words(left: &[u8], at: usize, right: &[u8], from: usize, length: usize) -> bool
    requires { (8 ≤ length) × (at + length ≤ lib.ListN.length left.now) × (from + length ≤ lib.ListN.length right.now) }
    ensures { Says result (Again left.now at right.now from length) }
{
    let mut k: usize = 0;
    while k + 8 < length {
        if word(left, at + k) != word(right, from + k) {
            return false;
        }
        k += 8;
    }
    let rest = length - 8;
    word(left, at + rest) == word(right, from + rest)
}

// Are the `length` bytes of `left` from `at` those of `right` from `from`? The `==` of slices alone makes the reader an eighth slower.
pub fn same(left: &[u8], at: usize, right: &[u8], from: usize, length: usize) -> bool
    requires { (at + length ≤ lib.ListN.length left.now) × (from + length ≤ lib.ListN.length right.now) }
    ensures { Says result (Again left.now at right.now from length) }
{
    if length < 4 {
        return same_bytes(left, at, right, from, length);
    }
    if length < 8 {
        return same_halves(left, at, right, from, length);
    }
    same_words(left, at, right, from, length)
}

// Do the `length` bytes at `at` stand again at `from`?
pub fn stands_again(text: &[u8], at: usize, from: usize, length: usize) -> bool
    requires { (at + length ≤ lib.ListN.length text.now) × (from ≤ lib.ListN.length text.now) }
    ensures { result ≡ true → (from + length ≤ lib.ListN.length text.now) × Again text.now at text.now from length }
{
    if text.len() - from < length {
        return false;
    }
    same(text, at, text, from, length)
}

// Two numbers in one, each bit of which hangs on many of theirs. The factors are odd and below 2^30, so the sum fits.
fn mixed(a: u64, b: u64) -> u64
    ensures { result ≡ mixed_of a b }
{
    let low = (a % 4294967296) * 625343633 + (a / 4294967296) * 1013904243;
    low + (b % 4294967296) * 461845907 + (b / 4294967296) * 668265263
}

// One to three bytes.
fn few(text: &[u8], start: usize, length: usize) -> u64
    requires { (0 < length) × (start + length ≤ lib.ListN.length text.now) }
    ensures { result ≡ few_of text.now start length }
{
    let a = u64::from(text[start]);
    let b = u64::from(text[start + length / 2]);
    let c = u64::from(text[start + (length - 1)]);
    a + 256 * (b + 256 * c)
}

// Eight bytes or more: the first and the last eight, and those in the middle of a longer spelling.
fn long_hash(text: &[u8], start: usize, length: usize) -> u64
    requires { (8 ≤ length) × (start + length ≤ lib.ListN.length text.now) }
    ensures { result ≡ long_hash_of text.now start length }
{
    let edges = mixed(word(text, start), word(text, start + (length - 8)));
    if length < 17 {
        return edges;
    }
    mixed(edges / 4194304, word(text, start + (length / 2 - 4)))
}

// A number that hangs on the bytes of a spelling: on all of them up to 24.
pub fn hash(text: &[u8], start: usize, length: usize) -> u64
    requires { start + length ≤ lib.ListN.length text.now }
    ensures { result ≡ hash_of text.now start length }
{
    if length == 0 {
        return 0;
    }
    if length < 4 {
        return mixed(few(text, start, length), 0);
    }
    if length < 8 {
        return mixed(half(text, start), half(text, start + (length - 4)));
    }
    long_hash(text, start, length)
}
