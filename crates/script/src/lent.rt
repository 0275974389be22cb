// What is lent to a call, and what it must hold afterwards.
ghost use Rattle.std.specs.Prelude.{◌≡◌, length, take};
ghost use Rattle.script.specs.Lent.{Decides, untouched, holding, left_at, Cleared};

// What holds between cases: the length of the kept bytes, and how much output and scratch is lent.
#[derive(Clone, Copy)]
pub struct State {
    pub kept: usize,
    pub out: usize,
    pub scratch: usize,
}

pub fn output() -> [u8; 2048]
    ensures value { 2048 ≡ length result }
    ensures value_2 { result ≡ untouched }
{
    [7u8; 2048]
}

pub fn scratch() -> [u32; 8200]
    ensures { 8200 ≡ length result }
{
    [7u32; 8200]
}

// The first n bytes, all where there are fewer.
pub fn part(s: &[u8], n: usize) -> &[u8]
    ensures { result.now ≡ take n s.now }
{
    &s[..n.min(s.len())]
}

// Whether an output holds the bytes, and after them what it held before.
pub fn written(bytes: &[u8], out: &[u8]) -> bool
    ensures { Decides result (out.now ≡ holding bytes.now untouched) }
{
    let mut right = output();
    crate::copy(bytes, &mut right);
    out == right.as_slice()
}

// What a number of scratch must be after a call: 10 leaves all as they were, others clear 2,400.
fn cleared(number: u32, i: usize) -> u32
    ensures { result ≡ left_at number i }
{
    if number == 10 {
        return 7;
    }
    if i < 2400 { 0 } else { 7 }
}

// Whether scratch holds what it must.
pub fn is_cleared(number: u32, scratch: &[u32]) -> bool
    ensures { Decides result (Cleared number scratch.now) }
{
    scratch
        .iter()
        .enumerate()
        .all(|(i, x)| *x == cleared(number, i))
}
