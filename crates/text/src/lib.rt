// The text of an answer, written into a lent slice. Each function answers the index after what it wrote.
// The slice and the index stand apart: for a struct of both each contract would have to say that it still holds the slice that was lent.
// Rests on `ticket` for the struct of a record.

#![tactic(auto)]

ghost use Rattle.std.specs.Prelude.{◌≡◌, ◌+◌, ◌*◌, ◌<◌, ◌≤◌, [], ◌∷◌, ◌++◌, length};
ghost use Rattle.text.specs.Text.{decimal, refusal, heading, event_line, totals_line, each, line_at, record_text};
ghost use Rattle.text.specs.Text.{digit as Text·digit};
ghost use Rattle.text.specs.Stores.{Puts};

use ticket::Record;

fn digit(d: u32) -> u8
    requires { d < 10 }
    ensures { result ≡ Text·digit d }
{
    b'0' + d as u8
}

// One byte.
pub fn put_byte(out: &mut [u8], at: usize, b: u8) -> usize
    requires { at < length out.old }
    ensures { Puts (b ∷ []) out.old out.new at result }
{
    out[at] = b;
    at + 1
}

// x in decimal digits.
// `write!` into a slice would answer a `Result`, which a slice with room enough has no use for.
fn put_number(out: &mut [u8], at: usize, x: u32) -> usize
    requires { at + length (decimal x) ≤ length out.old }
    ensures { Puts (decimal x) out.old out.new at result }
{
    if x < 10 {
        return put_byte(out, at, digit(x));
    }
    let next = put_number(out, at, x / 10);
    put_byte(out, next, digit(x % 10))
}

// x and the byte that ends it.
pub fn put_part(out: &mut [u8], at: usize, x: u32, end: u8) -> usize
    requires { at + 11 ≤ length out.old }
    ensures puts { Puts (decimal x ++ end ∷ []) out.old out.new at result }
    ensures upper_bound { result ≤ at + 11 }
{
    let next = put_number(out, at, x);
    put_byte(out, next, end)
}

// The bytes of a word, one by one: a copy of as many as it has would have the archives for C need `memmove`.
pub fn put_word(out: &mut [u8], at: usize, word: &[u8]) -> usize
    requires { at + length word.now ≤ length out.old }
    ensures { Puts word.now out.old out.new at result }
{
    for i in 0..word.len() {
        out[at + i] = word[i];
    }
    at + word.len()
}

fn put_event(out: &mut [u8], at: usize, event: u32, owner: u8, opens: u32, closes: u32) -> usize
    requires { at + 44 ≤ length out.old }
    ensures puts { Puts (event_line event owner (record { opens = opens; closes = closes })) out.old out.new at result }
    ensures upper_bound { result ≤ at + 44 }
{
    let a = put_part(out, at, event, b' ');
    let b = put_part(out, a, u32::from(owner), b' ');
    let c = put_part(out, b, opens, b' ');
    put_part(out, c, closes, b'\n')
}

// The lines of a plan's events.
fn put_events(out: &mut [u8], at: usize, plan: &Record) -> usize
    requires { (plan.now.ticket.events ≤ 40) × (at + 44 * plan.now.ticket.events ≤ length out.old) }
    ensures puts { Puts (each plan.now.ticket.events (line_at plan.now.ticket.owners plan.now.opens plan.now.closes)) out.old out.new at result }
    ensures upper_bound { result ≤ at + 44 * plan.now.ticket.events }
{
    let mut next = at;
    for i in 0..plan.ticket.events {
        let event = (i + 1) as u32;
        let owner = plan.ticket.owners[i];
        next = put_event(out, next, event, owner, plan.opens[i], plan.closes[i]);
    }
    next
}

fn put_heading(out: &mut [u8], n: u32, total: u32) -> usize
    requires { 27 ≤ length out.old }
    ensures puts { Puts (heading n total) out.old out.new 0 result }
    ensures upper_bound { result ≤ 27 }
{
    let a = put_word(out, 0, b"plan ");
    let b = put_part(out, a, n, b' ');
    put_part(out, b, total, b'\n')
}

// A refusal.
pub fn put_refusal(out: &mut [u8], number: u32) -> usize
    requires { 19 ≤ length out.old }
    ensures { Puts (refusal number) out.old out.new 0 result }
{
    let a = put_word(out, 0, b"refused ");
    put_part(out, a, number, b'\n')
}

// A plan.
pub fn put_plan(out: &mut [u8], plan: Record, total: u32) -> usize
    requires { (plan.ticket.events ≤ 40) × (1787 ≤ length out.old) }
    ensures puts { Puts (record_text plan total) out.old out.new 0 result }
    ensures upper_bound { result ≤ 1787 }
{
    let next = put_heading(out, plan.ticket.events as u32, total);
    put_events(out, next, &plan)
}

// The line of the five part totals.
pub fn put_totals(out: &mut [u8], at: usize, totals: &[u32; 5]) -> usize
    requires { at + 55 ≤ length out.old }
    ensures puts { Puts (totals_line totals.now) out.old out.new at result }
    ensures upper_bound { result ≤ at + 55 }
{
    let a = put_part(out, at, totals[0], b' ');
    let b = put_part(out, a, totals[1], b' ');
    let c = put_part(out, b, totals[2], b' ');
    let d = put_part(out, c, totals[3], b' ');
    put_part(out, d, totals[4], b'\n')
}
