// What a device sees of a record, on bytes: the record is read, its windows are tested, and the events that the caller may see go into the lent output.
// The promise of `view` is an equation with the outcome that crate `viewing` defines (specs/View) of all that the call is lent.
// Rests on `reading_records` for the record, on `causes` for what its struct says, on `fitness` for the test of its windows, and on `writing` and
// `writing_records` for the bytes.

#![tactic(auto)]

ghost use Rattle.std.specs.Prelude.{◌≡◌, ◌+◌, ◌*◌, ◌≤◌, ◌<◌, length};
ghost use Rattle.std.proofs.lemmas.List.Edits.{sets};
ghost use Rattle.ticket.specs.Writer.{each};
ghost use Rattle.ticket.specs.Writing.{state_of};
ghost use Rattle.causes.specs.Structs.{Canonical};
ghost use Rattle.viewing.specs.View.{may_see, seen, write_seen, viewed, viewing};
ghost use Rattle.view.specs.Returned.{returned, told};
ghost use Rattle.view.specs.Stored.{seen_of, shown};

use ticket::{Record, Refusal};

// A view holds its count, of two bytes, and 40 events, of ten bytes each.
pub const VIEW_BYTES: usize = 402;

// How many devices there are, in the type of a caller.
const DEVICES: u32 = ticket::DEVICES as u32;

// The device that sees all events.
const DATABASE: u32 = 4;

// Whether the caller may see an event of the owner.
fn may_see(caller: u32, owner: u8) -> bool
    ensures { result ≡ may_see caller owner }
{
    if caller == DATABASE {
        return true;
    }
    owner as u32 == caller
}

// Store an event's number, then its flag and its window, at `at`.
fn put_event(out: &mut [u8], at: usize, event: u8, flag: u8, opens: u32, closes: u32)
    requires { (flag ≤ 1) × (at + 10 ≤ length out.old) }
    ensures { out.new ≡ sets out.old at (write_seen (seen_of event flag opens closes)) }
{
    out[at] = event;
    writing_records::put_window(out, at + 1, flag, opens, closes);
}

// Store an event after the k that are stored, if it may be seen. How many are stored then.
fn show_event(
    out: &mut [u8],
    k: usize,
    seen: bool,
    event: u8,
    flag: u8,
    opens: u32,
    closes: u32,
) -> usize
    requires { (k < 40) × (flag ≤ 1) × (402 ≤ length out.old) }
    ensures value { result ≡ k + length (shown seen (seen_of event flag opens closes)) }
    ensures out_after { out.new ≡ sets out.old (2 + 10 * k) (each write_seen (shown seen (seen_of event flag opens closes))) }
{
    if !seen {
        return k;
    }
    put_event(out, 2 + 10 * k, event, flag, opens, closes);
    k + 1
}

// Store the events that the caller may see after their count. How many they are.
fn put_events(r: &Record, caller: u32, out: &mut [u8]) -> usize
    requires { Canonical r.now × (402 ≤ length out.old) }
    ensures value { result ≡ length (seen caller (state_of r.now)) }
    ensures out_after { out.new ≡ sets out.old 2 (each write_seen (seen caller (state_of r.now))) }
{
    let n = r.ticket.events;
    let mut k = 0;
    for i in 0..n {
        let owner = r.ticket.owners[i];
        let flag = r.flags[i];
        let opens = r.opens[i];
        let closes = r.closes[i];
        let event = (i + 1) as u8;
        k = show_event(out, k, may_see(caller, owner), event, flag, opens, closes);
    }
    k
}

// What the caller sees of a record that was read, into the output. How many bytes it is. Never inlined, so that what stands on the stack for it does not stand there while the record is read.
#[inline(never)]
fn write_view(r: &Record, caller: u32, out: &mut [u8]) -> Result<usize, Refusal>
    requires { Canonical r.now × (402 ≤ length out.old) }
    ensures value { told result ≡ returned (viewed caller (state_of r.now) out.old) }
    ensures out_after { out.new ≡ (viewed caller (state_of r.now) out.old).out }
{
    if !fitness::fit(r.ticket, &r.opens, &r.closes) {
        return Err(Refusal::Unfit);
    }
    let k = put_events(r, caller, out);
    writing::put_u16(out, 0, k);
    Ok(2 + 10 * k)
}

// What the caller sees of the record that the bytes hold: its events and their windows go into the output. How many bytes they are.
pub fn view(record: &[u8], caller: u32, out: &mut [u8]) -> Result<usize, Refusal>
    ensures value { told result ≡ returned (viewing «record».now caller out.old) }
    ensures out_after { out.new ≡ (viewing «record».now caller out.old).out }
{
    if out.len() < VIEW_BYTES {
        return Err(Refusal::Room);
    }
    if DEVICES <= caller {
        return Err(Refusal::Caller);
    }
    // looked at where it lies: `?` would lay the record on the stack once more
    let read = reading_records::read_record(record);
    match &read {
        Err(refusal) => Err(*refusal),
        Ok(r) => write_view(r, caller, out),
    }
}
