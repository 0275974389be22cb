// Reads records. An answer is what was read, or the refusal and nothing else.
// Rests on crate ticket, which has the structs and the parsers that the contracts name, and on crate reading, which reads the record's ticket.

#![tactic(auto)]

ghost use Rattle.std.specs.Prelude.{◌≡◌, ◌+◌, ◌*◌, ◌≤◌, length, drop, IfOk};
ghost use Rattle.ticket.specs.Format.{read_same};
ghost use Rattle.ticket.specs.Refusal.{tested};
ghost use Rattle.ticket.specs.Stored.{whole_record};
ghost use Rattle.reading_records.specs.Parts.{window_at, windows_at, window_section, count_at, counts_at, count_section};

use ticket::{DEVICES, ReadTicket, Record, Refusal, Ticket};

// The parts take the lent bytes and a place in them, as those of crate reading do.

// Whether the two bytes at `at` are the number x.
fn same_at(s: &[u8], at: usize, x: usize) -> Result<(), Refusal>
    requires { at ≤ length s.now }
    ensures { result ≡ tested (read_same x (drop at s.now)) }
{
    if s.len() - at < 2 {
        return Err(Refusal::Short);
    }
    if reading::u16_at(s, at) != x {
        return Err(Refusal::Layout);
    }
    Ok(())
}

// ---- windows

#[derive(Drop)]
struct Window {
    flag: u8,
    opens: u32,
    closes: u32,
}

// The window with its flag at `at`, for the horizon h.
fn window_at(s: &[u8], at: usize, h: u32) -> Result<Window, Refusal>
    requires { at ≤ length s.now }
    ensures { result ≡ window_at s.now at h }
{
    if s.len() - at < 9 {
        return Err(Refusal::Short);
    }
    let flag = s[at];
    let opens = reading::u32_at(s, at + 1);
    let closes = reading::u32_at(s, at + 5);
    ticket::test_window(h, flag, opens, closes)?;
    Ok(Window {
        flag,
        opens,
        closes,
    })
}

// Windows with their flags, in the three arrays that a record has for them.
#[derive(Drop)]
struct Windows {
    flags: [u8; Ticket::EVENTS],
    opens: [u32; Ticket::EVENTS],
    closes: [u32; Ticket::EVENTS],
}

// n windows for the horizon h.
fn windows_at(s: &[u8], at: usize, n: usize, h: u32) -> Result<Windows, Refusal>
    requires { (at ≤ length s.now) × (n ≤ 40) }
    ensures { result ≡ windows_at s.now at n h }
{
    let mut flags = [0u8; Ticket::EVENTS];
    let mut opens = [0u32; Ticket::EVENTS];
    let mut closes = [0u32; Ticket::EVENTS];
    for i in 0..n {
        let window = window_at(s, at + 9 * i, h)?;
        flags[i] = window.flag;
        opens[i] = window.opens;
        closes[i] = window.closes;
    }
    Ok(Windows {
        flags,
        opens,
        closes,
    })
}

// The section of windows at `at`: the number of events, which is n, and their windows.
fn window_section(s: &[u8], at: usize, n: usize, h: u32) -> Result<Windows, Refusal>
    requires { (at ≤ length s.now) × (n ≤ 40) }
    ensures { result ≡ window_section s.now at n h }
{
    same_at(s, at, n)?;
    windows_at(s, at + 2, n, h)
}

// ---- counts

// The count at `at` of a device with x flags set.
fn count_at(s: &[u8], at: usize, x: u32) -> Result<u32, Refusal>
    requires { at ≤ length s.now }
    ensures { result ≡ count_at s.now at x }
{
    if s.len() - at < 2 {
        return Err(Refusal::Short);
    }
    let count = reading::u16_at(s, at) as u32;
    ticket::test_count(x, count)?;
    Ok(count)
}

// The counts of devices with xs flags set.
fn counts_at(s: &[u8], at: usize, xs: &[u32; DEVICES]) -> Result<[u32; DEVICES], Refusal>
    requires { at ≤ length s.now }
    ensures { result ≡ counts_at s.now at xs.now }
{
    let mut counts = [0u32; DEVICES];
    for o in 0..DEVICES {
        counts[o] = count_at(s, at + 2 * o, xs[o])?;
    }
    Ok(counts)
}

// The section of counts at `at`: the number of devices, which is 5, and their counts.
fn count_section(s: &[u8], at: usize, xs: &[u32; DEVICES]) -> Result<[u32; DEVICES], Refusal>
    requires { at ≤ length s.now }
    ensures { result ≡ count_section s.now at xs.now }
{
    same_at(s, at, DEVICES)?;
    counts_at(s, at + 2, xs)
}

// ---- the record

// A whole record: a ticket, read through a reader, and the two sections that go on where the ticket ends; nothing may come after them, so the place past them is the end of the bytes.
pub fn read_record(s: &[u8]) -> Result<Record, Refusal>
    ensures value { result ≡ whole_record s.now }
    ensures past { IfOk result (λ r. length s.now ≡ 22 + 10 * r.ticket.events + 6 * r.ticket.rules) }
{
    let ReadTicket { ticket, next } = reading::first_ticket(s)?;
    let n = ticket.events;
    let Windows {
        flags,
        opens,
        closes,
    } = window_section(s, next, n, ticket.horizon)?;
    let xs = ticket::flag_counts(&ticket.owners, &flags, n);
    let counts = count_section(s, next + 2 + 9 * n, &xs)?;
    let end = next + 14 + 9 * n;
    if end < s.len() {
        return Err(Refusal::Trailing);
    }
    Ok(Record {
        ticket,
        flags,
        opens,
        closes,
        counts,
    })
}
