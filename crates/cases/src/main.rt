// Runs the cases of the script on standard input, a line each, and prints for each its name and what the call answers; "memory" follows where a
// byte or a number is not what it must be after the call. The script says at its top how its lines are read.
// Rests on crate `script` for the lines, on crate `forms`, `distances` and `planning` for the calls and on crate `streams` for reading.

#![tactic(auto)]

mod distances;
mod planning;

ghost use Rattle.std.specs.Prelude.{◌≤◌, length};

use script::lent::State;
use script::{lent, print};
use std::io;

// Numbers of the calls `commit` and `lend` have four bytes where the script says nothing, those of others one. The script names its calls by letters; the matches on a letter,
// here and in `planning`, are its parser.
fn usual(letter: u8) -> usize {
    match letter {
        b'c' | b'l' => 4,
        _ => 1,
    }
}

fn keep(rt: &impl Print, input: &[u8], kept: &mut [u8], s: State) -> io::Result<State> {
    let n = script::copy(input, kept);
    print::length(rt, n)?;
    print::end(rt, true)?;
    Ok(State { kept: n, ..s })
}

fn lend(rt: &impl Print, input: &[u8], s: State) -> io::Result<State> {
    print::end(rt, true)?;
    Ok(State {
        out: script::four(input, 0) as usize,
        scratch: script::four(input, 4) as usize,
        ..s
    })
}

// The calls that change nothing.
fn try_call(rt: &impl Print, letter: u8, input: &[u8], kept: &[u8], out: usize) -> io::Result<()> {
    match letter {
        b'r' => forms::read(rt, input, input),
        b'o' => forms::read(rt, input, kept),
        b'e' => forms::every(rt, input),
        b'w' => forms::write(rt, input, out),
        _ => distances::table(rt, input, out),
    }
}

fn call(rt: &impl Print, letter: u8, input: &[u8], kept: &mut [u8], s: State) -> io::Result<State> {
    match letter {
        b'k' => keep(rt, input, kept, s),
        b'l' => lend(rt, input, s),
        b'p' | b'u' | b'c' => planning::call(rt, letter, input, kept, s),
        _ => {
            try_call(rt, letter, input, lent::part(kept, s.kept), s.out)?;
            Ok(s)
        }
    }
}

// The call at a place of a line, with the bytes of the words after it.
fn answer(rt: &impl Print, line: &[u8], at: usize, kept: &mut [u8], s: State) -> io::Result<State>
    requires { at ≤ length line.now }
{
    let letter = script::byte(line, at);
    let start = script::after(line, at, b' ');
    let mut input = lent::output();
    let n = script::bytes(
        line,
        start,
        usual(letter),
        lent::part(kept, s.kept),
        &mut input,
    );
    call(rt, letter, lent::part(&input, n), kept, s)
}

// A line that begins with # and an empty one are no cases. Others have a name up to a colon, a space and the call.
fn case(rt: &impl Print, line: &[u8], kept: &mut [u8], s: State) -> io::Result<State> {
    match script::byte(line, 0) {
        b'\n' | b'#' => Ok(s),
        _ => {
            let colon = script::after(line, 0, b':');
            rt.write_all(lent::part(line, colon))?;
            answer(rt, line, script::after(line, colon, b' '), kept, s)
        }
    }
}

fn run(rt: &impl Print, text: &[u8], kept: &mut [u8]) -> io::Result<()> {
    let mut s = State {
        kept: 0,
        out: 2048,
        scratch: 8200,
    };
    // line by line, and not by `split_inclusive`: in a function that is generic over its printer the prover does not accept that loop
    let mut at = 0;
    while at < text.len() {
        let end = script::after(text, at, b'\n');
        s = case(rt, &text[at..end], kept, s)?;
        at = end;
    }
    Ok(())
}

fn main(rt: HostRuntime) -> io::Result<()> {
    let mut text = streams::large_buffer();
    let n = streams::read_full(&mut rt.stdin(), &mut text);
    let mut kept = lent::output();
    run(&rt, &text[..n], &mut kept)
}
