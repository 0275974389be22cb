// Prints the plan of the ticket on standard input and under it the totals of the five devices' parts, or the number under which the ticket is refused. With the
// argument `latest` it is the latest plan.
// It reads at most one byte more than the longest ticket has, so its memory and its time do not grow with the input.

#![tactic(auto)]

mod print;

ghost use Rattle.std.specs.Prelude.{◌≡◌, length};

use std::env::FillError;
use std::io;
use std::rt::Env;

// Whether an argument of this number was given, of any length.
fn is_given(rt: &impl Env, i: usize) -> bool {
    let mut word = [0u8; 6];
    !matches!(rt.arg(i, &mut word), Err(FillError::NotPresent))
}

// Whether the first argument is the word `latest`; one that is longer has length 0 here.
fn says_latest(rt: &impl Env) -> bool {
    let mut word = [0u8; 6];
    let n = rt.arg(1, &mut word).unwrap_or(0);
    word[..n] == b"latest"[..]
}

// Plan what stands on standard input, and print it; `latest` is what the arguments say.
fn run(rt: HostRuntime, latest: bool) -> io::Result<()> {
    // the longest ticket, and one byte more: what is longer is refused for that byte
    let mut ticket = [0u8; 1585];
    let n = streams::read_full(&mut rt.stdin(), &mut ticket);
    // the longest text: a heading of 27 bytes, 40 lines of 44, and one of 55
    let mut text = [0u8; 1842];
    let k = print::print(&ticket[..n], latest, &mut text);
    rt.write_all(&text[..k])
}

fn main(rt: HostRuntime) -> io::Result<()> {
    if !is_given(&rt, 1) {
        return run(rt, false);
    }
    if !is_given(&rt, 2) && says_latest(&rt) {
        return run(rt, true);
    }
    eprintln!(rt; "usage: planner [latest] <ticket")
}
