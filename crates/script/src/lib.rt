// The words of a line of the script of cases, and the bytes that they stand for. A word is a number, `*` for the kept bytes, or `@` and a place to go
// on at; `:` and a width after a number say how many bytes it has, the lowest first. `lent` has what is lent to a call, `print` what is printed of it.

#![tactic(auto)]

pub mod lent;
pub mod print;

ghost use Rattle.std.specs.Prelude.{◌≡◌, ◌+◌, ◌<◌, ◌≤◌, min, length};
ghost use Rattle.script.specs.Lent.{holding};

// ---- numbers in bytes

// A byte, 0 past the end.
pub fn byte(s: &[u8], at: usize) -> u8 {
    s.get(at).copied().unwrap_or(0)
}

// The number of the two bytes at a place, and of the four.
pub fn two(s: &[u8], at: usize) -> u32
    ensures { result < 65536 }
{
    u32::from(u16::from_le_bytes([byte(s, at), byte(s, at.saturating_add(1))]))
}

pub fn four(s: &[u8], at: usize) -> u32 {
    two(s, at) + 65536 * two(s, at.saturating_add(2))
}

// ---- words

// The place after the first b from `at` on, or the length.
pub fn after(s: &[u8], at: usize, b: u8) -> usize
    requires { at ≤ length s.now }
    ensures { (min (at + 1) (length s.now) ≤ result) × (result ≤ length s.now) }
{
    match s[at..].iter().position(|x| *x == b) {
        Some(k) => at + k + 1,
        None => s.len(),
    }
}

// The decimal x with the digit b at its end.
fn digit(x: u64, b: u8) -> u64 {
    match b {
        b'0'..=b'9' => 10 * (x % 1_000_000_000) + u64::from(b - b'0'),
        _ => x,
    }
}

// The decimal of the digits of a word.
fn decimal(word: &[u8]) -> u64 {
    word.iter().fold(0, |x, b| digit(x, *b))
}

// The number of a word, which ends at its colon; a negative one plus 2^64.
fn value(word: &[u8]) -> u64 {
    let colon = after(word, 0, b':');
    let x = decimal(&word[..colon]);
    if byte(word, 0) == b'-' {
        return x.wrapping_neg();
    }
    x
}

// How many bytes the number of a word has.
fn width(word: &[u8], usual: usize) -> usize {
    let colon = after(word, 0, b':');
    if colon < word.len() {
        return (byte(word, colon) % 16) as usize;
    }
    usual
}

// ---- bytes

// The bytes at the start of the output, as far as there is room; how many.
pub fn copy(from: &[u8], out: &mut [u8]) -> usize
    ensures value { result ≡ min (length from.now) (length out.old) }
    ensures out_after { out.new ≡ holding from.now out.old }
{
    let n = from.len().min(out.len());
    out[..n].copy_from_slice(&from[..n]);
    n
}

// x in some bytes at a place, if there is room for them; the place after them.
fn put(x: u64, width: usize, at: usize, out: &mut [u8]) -> usize
    requires { at ≤ length out.old }
    ensures { result ≤ length out.old }
{
    if out.len() - at < width {
        return at;
    }
    let end = at + width;
    let mut rest = x;
    for b in &mut out[at..end] {
        *b = (rest % 256) as u8;
        rest /= 256;
    }
    end
}

// The bytes of a word at a place; the place after them.
fn word_bytes(word: &[u8], usual: usize, at: usize, kept: &[u8], out: &mut [u8]) -> usize
    requires { at ≤ length out.old }
    ensures { result ≤ length out.old }
{
    let x = value(word);
    match byte(word, 0) {
        b'*' => copy(kept, out),
        b'@' => (x as usize).min(out.len()),
        _ => put(x, width(word, usual), at, out),
    }
}

// The bytes of the words from a place on; how many.
pub fn bytes(line: &[u8], start: usize, usual: usize, kept: &[u8], out: &mut [u8]) -> usize
    requires { start ≤ length line.now }
    ensures { result ≤ length out.old }
{
    let mut n = 0;
    let mut at = start;
    while at < line.len() {
        let end = after(line, at, b' ');
        n = word_bytes(&line[at..end], usual, n, kept, out);
        at = end;
    }
    n
}
