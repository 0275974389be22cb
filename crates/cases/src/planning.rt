// Plannings and commitments.
// Rests on crates `plan` and `script`.
ghost use Rattle.std.specs.Prelude.{◌≤◌};

use plan::Accepted;
use script::lent::State;
use script::{lent, print};
use std::io;
use ticket::Refusal;

// What planning or a commitment answers.
type Answer = Result<Accepted, Refusal>;

// These two drop what the calls promise, so that what follows them costs no proof.
fn plan_once(ticket: &[u8], out: &mut [u8], scratch: &mut [u32]) -> Answer {
    plan::plan(ticket, out, scratch)
}

fn commit_once(record: &[u8], input: &[u8], out: &mut [u8], scratch: &mut [u32]) -> Answer {
    let caller = script::four(input, 0);
    let event = script::four(input, 4);
    let opens = script::four(input, 8);
    let closes = script::four(input, 12);
    plan::commit(record, caller, event, opens, closes, out, scratch)
}

// Commit to the record, or plan the input.
fn answer(letter: u8, input: &[u8], record: &[u8], out: &mut [u8], scratch: &mut [u32]) -> Answer {
    if letter == b'c' {
        commit_once(record, input, out, scratch)
    } else {
        plan_once(input, out, scratch)
    }
}

// Flag, open and close.
fn window(rt: &impl Print, record: &[u8], at: usize) -> io::Result<()>
    requires { at ≤ 3000 }
{
    print::number(rt, script::byte(record, at) as u32)?;
    print::number(rt, script::four(record, at + 1))?;
    print::number(rt, script::four(record, at + 5))
}

// The counts of five devices.
fn counts(rt: &impl Print, record: &[u8], at: usize) -> io::Result<()>
    requires { at ≤ 3000 }
{
    for o in 0..ticket::DEVICES {
        print::number(rt, script::two(record, at + 2 * o))?;
    }
    Ok(())
}

// The windows of the record that ends at a place, and its counts.
fn windows(rt: &impl Print, record: &[u8], end: usize) -> io::Result<()>
    requires { end ≤ 2048 }
{
    let n = script::two(record, 4) as usize;
    let back = 12 + 9 * n;
    if end < back {
        return Ok(());
    }
    for i in 0..n {
        window(rt, record, end - back + 9 * i)?;
    }
    counts(rt, record, end - 10)
}

// Whether a record of some length begins with the ticket of `given`, and then has as many windows as that has events, and five counts.
fn begins(length: usize, given: &[u8], out: &[u8]) -> bool {
    let n = script::two(out, 4);
    let end = length.min(2048);
    let back = 14 + 9 * n as usize;
    if end < back {
        return false;
    }
    script::two(out, end - back) == n
        && script::two(out, end - 12) == 5
        && lent::part(out, end - back) == lent::part(given, end - back)
}

// Whether all is right: `given` is the ticket planned, or the record committed to. What lies past the record, and scratch, are as they must be.
fn right(answer: &Answer, given: &[u8], out: &[u8], scratch: &[u32]) -> bool {
    let (begins, length) = match answer {
        Ok(accepted) => (begins(accepted.length, given, out), accepted.length),
        Err(_) => (true, 0),
    };
    begins
        && lent::written(lent::part(out, length), out)
        && lent::is_cleared(ticket::answer_number(answer), scratch)
}

fn show(rt: &impl Print, answer: &Answer, out: &[u8]) -> io::Result<()> {
    print::number(rt, ticket::answer_number(answer))?;
    match answer {
        Ok(accepted) => {
            print::length(rt, accepted.length)?;
            print::number(rt, accepted.total)?;
            windows(rt, out, accepted.length.min(2048))
        }
        Err(_) => {
            print::length(rt, 0)?;
            print::number(rt, 0)
        }
    }
}

// After `plan` the record is compared with the input, after the other calls with the kept record.
fn report(
    rt: &impl Print,
    letter: u8,
    answer: &Answer,
    input: &[u8],
    record: &[u8],
    out: &[u8],
    scratch: &[u32],
) -> io::Result<()> {
    show(rt, answer, out)?;
    let given = if letter == b'p' { input } else { record };
    print::end(rt, right(answer, given, out, scratch))
}

// One call with some of an output and of scratch lent; the length of the record, if there is one.
fn call_in(
    rt: &impl Print,
    letter: u8,
    input: &[u8],
    record: &[u8],
    s: State,
    out: &mut [u8],
    scratch: &mut [u32],
) -> io::Result<Option<usize>> {
    let n = s.out.min(out.len());
    let m = s.scratch.min(scratch.len());
    let answer = answer(letter, input, record, &mut out[..n], &mut scratch[..m]);
    report(rt, letter, &answer, input, record, out, scratch)?;
    Ok(answer.ok().map(|accepted| accepted.length))
}

// One call; an accepted record is kept.
pub fn call(
    rt: &impl Print,
    letter: u8,
    input: &[u8],
    kept: &mut [u8],
    s: State,
) -> io::Result<State> {
    let mut out = lent::output();
    let mut scratch = lent::scratch();
    let record = lent::part(kept, s.kept);
    match call_in(rt, letter, input, record, s, &mut out, &mut scratch)? {
        None => Ok(s),
        Some(n) => Ok(State {
            kept: script::copy(lent::part(&out, n), kept),
            ..s
        }),
    }
}
