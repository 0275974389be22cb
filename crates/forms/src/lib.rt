// The cases that read and write tickets and records: the calls, and what they answer.
// Rests on the crates `reading`, `reading_records`, `writing` and `writing_records`, on the structs of `ticket`, and on `script` for input, output and printing.

#![tactic(auto)]

ghost use Rattle.std.specs.Prelude.{◌≡◌, ◌≤◌, length, take, IfOk};
ghost use Rattle.std.specs.Result.{result_unwrap_or};
ghost use Rattle.script.specs.Lent.{Decides, untouched, holding};

use script::{lent, print};
use std::io;
use ticket::{Record, Refusal, Ticket};

// What is read and written: tickets and records.
trait Form: Copy {
    fn read(s: &[u8]) -> Result<Self, Refusal>;

    fn write(self, out: &mut [u8]) -> Result<usize, Refusal>;
}

impl Form for Ticket {
    fn read(s: &[u8]) -> Result<Self, Refusal> {
        reading::read_ticket(s)
    }

    fn write(self, out: &mut [u8]) -> Result<usize, Refusal> {
        writing::write_ticket(self, out)
    }
}

impl Form for Record {
    fn read(s: &[u8]) -> Result<Self, Refusal> {
        reading_records::read_record(s)
    }

    fn write(self, out: &mut [u8]) -> Result<usize, Refusal> {
        writing_records::write_record(self, out)
    }
}

// ---- writing

// The number and the length, and whether the output is right: the first of the bytes expected, or as it was.
fn say_written(
    rt: &impl Print,
    written: Result<usize, Refusal>,
    expected: &[u8],
    out: &[u8],
) -> io::Result<bool>
    ensures { IfOk result (λ right. Decides right (out.now ≡ holding (take (result_unwrap_or written 0) expected.now) untouched)) }
{
    print::number(rt, ticket::answer_number(&written))?;
    let length = written.unwrap_or(0);
    print::length(rt, length)?;
    Ok(lent::written(lent::part(expected, length), out))
}

fn write_form<F: Form>(rt: &impl Print, form: F, expected: &[u8], room: usize) -> io::Result<bool>
    requires { room ≤ 2048 }
{
    let mut out = lent::output();
    let written = form.write(&mut out[..room]);
    say_written(rt, written, expected, &out)
}

// ---- reading, and writing what was read

// The input as a ticket or a record; whether what is written of it are the bytes expected.
fn rewrite<F: Form>(rt: &impl Print, input: &[u8], expected: &[u8]) -> io::Result<bool> {
    let form = F::read(input);
    print::number(rt, ticket::answer_number(&form))?;
    match form {
        Ok(form) => write_form(rt, form, expected, 2048),
        Err(_) => Ok(true),
    }
}

// What is written of what was read is the input, unless a case expects other bytes, to fail.
pub fn read(rt: &impl Print, input: &[u8], expected: &[u8]) -> io::Result<()> {
    let ticket = rewrite::<Ticket>(rt, input, expected)?;
    let record = rewrite::<Record>(rt, input, expected)?;
    print::end(rt, ticket & record)
}

// ---- parts

// Whether some bytes are refused for their end.
fn is_short<F: Form>(s: &[u8]) -> bool {
    matches!(F::read(s), Err(Refusal::Short))
}

// The first length whose part of the input is not refused for its end.
fn cut<F: Form>(s: &[u8]) -> usize {
    for n in 0..s.len() {
        if !is_short::<F>(&s[..n]) {
            return n;
        }
    }
    s.len()
}

pub fn every(rt: &impl Print, input: &[u8]) -> io::Result<()> {
    print::length(rt, cut::<Ticket>(input))?;
    print::length(rt, cut::<Record>(input))?;
    print::end(rt, true)
}

// ---- writing values that no reading gives

// The number whose two's complement bits stand in four bytes at a place.
pub fn bound_at(s: &[u8], at: usize) -> i32 {
    i32::from_le_bytes(script::four(s, at).to_le_bytes())
}

// Every `step`th value of the input from a place on.
pub fn spread<T: Copy, F: Fn(&[u8], usize) -> T>(
    value: F,
    s: &[u8],
    start: usize,
    step: usize,
    out: &mut [T],
)
    requires value { F.IsAlwaysCallable value }
    requires places { (start ≤ 2000) × (step ≤ 9) × (length out.old ≤ 2048) }
{
    for i in 0..out.len() {
        out[i] = value(s, start + step * i);
    }
}

// The same as an array.
fn field<T: Copy, F: Fn(&[u8], usize) -> T, const N: usize>(
    value: F,
    zero: T,
    s: &[u8],
    start: usize,
    step: usize,
) -> [T; N]
    requires value { F.IsAlwaysCallable value }
    requires places { (start ≤ 2000) × (step ≤ 9) × (N ≤ 2048) }
{
    let mut out = [zero; N];
    spread(value, s, start, step, &mut out);
    out
}

// The ticket that 1,584 bytes with 40 events and 256 rules say, with no value tested.
fn ticket_of(s: &[u8]) -> Ticket {
    Ticket {
        horizon: script::four(s, 0),
        events: script::two(s, 4) as usize,
        owners: field(script::byte, 0, s, 6, 1),
        rules: script::two(s, 46) as usize,
        from: field(script::byte, 0, s, 48, 6),
        to: field(script::byte, 0, s, 49, 6),
        bound: field(bound_at, 0, s, 50, 6),
    }
}

// The same of a record of 1,958 bytes.
fn record_of(s: &[u8]) -> Record {
    Record {
        ticket: ticket_of(s),
        flags: field(script::byte, 0, s, 1586, 9),
        opens: field(script::four, 0, s, 1587, 9),
        closes: field(script::four, 0, s, 1591, 9),
        counts: field(script::two, 0, s, 1948, 2),
    }
}

pub fn write(rt: &impl Print, input: &[u8], room: usize) -> io::Result<()> {
    let n = room.min(2048);
    let ticket = write_form(rt, ticket_of(input), input, n)?;
    let record = write_form(rt, record_of(input), input, n)?;
    print::end(rt, ticket & record)
}
