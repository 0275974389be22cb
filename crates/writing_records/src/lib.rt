// Writes records. A refusal leaves the output as it was.
// Rests on crate ticket, which has the structs and the bytes that the contracts name, and on crate writing, which writes the record's ticket.

#![tactic(auto)]

ghost use Rattle.std.specs.Prelude.{◌≡◌, ℕ, ◌+◌, ◌*◌, ◌≤◌, ◌<◌, length, []};
ghost use Rattle.std.proofs.lemmas.List.Edits.{sets};
ghost use Rattle.ticket.specs.Refusal.{tested};
ghost use Rattle.ticket.specs.Writer.{bytes, each, window_bytes, write_window, write_state};
ghost use Rattle.ticket.specs.Writing.{firsts, tests, entry_in, count_in, state_of, test_window, test_count, test_record, Storable, over, record_written, record_output};
ghost use Rattle.writing_records.specs.Parts.{plan_bytes};

use ticket::{DEVICES, RECORD_BYTES, Record, Refusal};

// Whether each window of r, with its flag, is one for the horizon.
fn test_windows(r: &Record) -> Result<(), Refusal>
    requires { r.now.ticket.events ≤ 40 }
    ensures { result ≡ tested (tests r.now.ticket.events (test_window r.now) []) }
{
    for i in 0..r.ticket.events {
        ticket::test_window(r.ticket.horizon, r.flags[i], r.opens[i], r.closes[i])?;
    }
    Ok(())
}

// Whether the count of each device is one.
fn test_counts(r: &Record) -> Result<(), Refusal>
    requires { r.now.ticket.events ≤ 40 }
    ensures { result ≡ tested (tests 5 (test_count r.now) []) }
{
    let flags = ticket::flag_counts(&r.ticket.owners, &r.flags, r.ticket.events);
    for o in 0..DEVICES {
        ticket::test_count(flags[o], r.counts[o])?;
    }
    Ok(())
}

// Whether r is a record.
fn test_record(r: &Record) -> Result<(), Refusal>
    ensures { result ≡ tested (test_record r.now []) }
{
    writing::test_ticket(r.ticket)?;
    test_windows(r)?;
    test_counts(r)
}

// A window after its flag, or in a part after its event's number, at `at`.
pub fn put_window(out: &mut [u8], at: usize, flag: u8, opens: u32, closes: u32)
    requires { at + 9 ≤ length out.old }
    ensures { out.new ≡ sets out.old at (window_bytes flag opens closes) }
{
    out[at] = flag;
    writing::put_u32(out, at + 1, opens);
    writing::put_u32(out, at + 5, closes);
}

// The windows of r with their flags at `at`.
fn put_windows(out: &mut [u8], at: usize, r: &Record)
    requires storable { Storable r.now }
    requires in_bounds { at + 9 * r.now.ticket.events ≤ length out.old }
    ensures { out.new ≡ sets out.old at (each write_window (firsts r.now.ticket.events (entry_in r.now))) }
{
    for i in 0..r.ticket.events {
        put_window(out, at + 9 * i, r.flags[i], r.opens[i], r.closes[i]);
    }
}

// The counts of r at `at`.
fn put_counts(out: &mut [u8], at: usize, r: &Record)
    requires { at + 10 ≤ length out.old }
    ensures { out.new ≡ sets out.old at (each (bytes 2) (firsts 5 (count_in r.now))) }
{
    for (o, count) in r.counts.iter().enumerate() {
        writing::put_u16(out, at + 2 * o, *count as usize);
    }
}

// What comes after the ticket of r, at `at`.
fn put_plan(out: &mut [u8], at: usize, r: &Record)
    requires storable { Storable r.now }
    requires events_in_bounds { at + 14 + 9 * r.now.ticket.events ≤ length out.old }
    ensures { out.new ≡ sets out.old at (plan_bytes r.now) }
{
    let n = r.ticket.events;
    writing::put_u16(out, at, n);
    put_windows(out, at + 2, r);
    writing::put_u16(out, at + 2 + 9 * n, DEVICES);
    put_counts(out, at + 4 + 9 * n, r);
}

// The bytes of r at the start of out, with no test. How many they are.
pub fn put_record(r: Record, out: &mut [u8]) -> usize
    requires storable { Storable r }
    requires in_bounds { 1958 ≤ length out.old }
    ensures value { result ≡ length (write_state (state_of r)) }
    ensures out_after { out.new ≡ over (write_state (state_of r)) out.old }
{
    let n = r.ticket.events;
    let m = r.ticket.rules;
    writing::put_ticket(r.ticket, out);
    put_plan(out, 8 + n + 6 * m, &r);
    22 + 10 * n + 6 * m
}

// The record at the start of out: how many bytes it takes.
pub fn write_record(r: Record, out: &mut [u8]) -> Result<usize, Refusal>
    ensures value { result ≡ record_written out.old r }
    ensures out_after { out.new ≡ record_output out.old r }
{
    if out.len() < RECORD_BYTES {
        return Err(Refusal::Room);
    }
    test_record(&r)?;
    Ok(put_record(r, out))
}
