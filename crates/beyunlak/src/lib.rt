// The nine functions that a host program in C calls: planning, the latest plan and commitment on numbers and byte slices, what a device sees of a record, the table
// of distances, that table after some of its stops, the reason why a ticket is impossible, the mended ticket, and one device's part.
// They answer numbers, and store what else there is through references, as C takes it; those that are alike but for the call are C's too.
// The first three hold the scratch that crate `plan` works in, so that number 10 says that the output is too short. Nobody sees it, so it is not cleared.

#![tactic(auto)]

ghost use Rattle.std.specs.Prelude.{◌≡◌, map, length, replicate};
ghost use Rattle.runs.specs.Calls.{planning, planning_latest, committing};
ghost use Rattle.temporal.specs.Table.{table_of};
ghost use Rattle.table.specs.Lent.{rule_of};
ghost use Rattle.stops.specs.After.{table_after};
ghost use Rattle.reasons.specs.Reasoning.{reasoning};
ghost use Rattle.mending.specs.Mending.{mending};
ghost use Rattle.parts.specs.Parting.{parting};
ghost use Rattle.viewing.specs.View.{viewing};

use ticket::RECORD_BYTES;

// The record of the plan of a ticket, at the start of `out`. The answer is 0, or the number of the first cause to refuse.
#[unsafe(no_mangle)]
pub extern "C" fn beyunlak_plan(ticket: &[u8], out: &mut [u8]) -> u32
    ensures value { result ≡ (planning ticket.now out.old (replicate 2400 0)).number }
    ensures out_after { out.new ≡ (planning ticket.now out.old (replicate 2400 0)).out }
{
    if out.len() < RECORD_BYTES {
        return 10;
    }
    let mut lent = [0u32; 1824];
    let planned = plan::plan_bytes(ticket, false, out, &mut lent);
    ticket::answer_number(&planned)
}

// The record of the latest plan of a ticket, at the start of `out`. The answer is 0, or the number of the first cause to refuse.
#[unsafe(no_mangle)]
pub extern "C" fn beyunlak_plan_latest(ticket: &[u8], out: &mut [u8]) -> u32
    ensures value { result ≡ (planning_latest ticket.now out.old (replicate 2400 0)).number }
    ensures out_after { out.new ≡ (planning_latest ticket.now out.old (replicate 2400 0)).out }
{
    if out.len() < RECORD_BYTES {
        return 10;
    }
    let mut lent = [0u32; 1824];
    let latest = plan::plan_bytes(ticket, true, out, &mut lent);
    ticket::answer_number(&latest)
}

// The record after the device `caller` commits its event to `open` to `close`, at the start of `out`. The answer is 0, or the number of the first cause to refuse.
#[unsafe(no_mangle)]
pub extern "C" fn beyunlak_commit(
    record: &[u8],
    caller: u32,
    event: u32,
    open: u32,
    close: u32,
    out: &mut [u8],
) -> u32
    ensures value { result ≡ (committing «record».now caller event «open» close out.old (replicate 2400 0)).number }
    ensures out_after { out.new ≡ (committing «record».now caller event «open» close out.old (replicate 2400 0)).out }
{
    if out.len() < RECORD_BYTES {
        return 10;
    }
    let mut lent = [0u32; 1824];
    let committed = plan::commit_bytes(record, caller, event, open, close, out, &mut lent);
    ticket::answer_number(&committed)
}

// What the device `caller` sees of a record: its events with their flags and windows, after their count, at the start of `out`. The answer is 0, or the number of the
// first cause to refuse.
#[unsafe(no_mangle)]
pub extern "C" fn beyunlak_view(record: &[u8], caller: u32, out: &mut [u8]) -> u32
    ensures value { result ≡ (viewing «record».now caller out.old).number }
    ensures out_after { out.new ≡ (viewing «record».now caller out.old).out }
{
    let viewed = view::view(record, caller, out);
    ticket::answer_number(&viewed)
}

// The table of distances of a session, row by row, at the start of `out`. The answer is 0, or the number of the first cause to refuse.
#[unsafe(no_mangle)]
pub extern "C" fn beyunlak_table(
    horizon: u32,
    events: u32,
    rules: &[table::Rule],
    out: &mut [i32],
) -> u32
    ensures { (result, out.new) ≡ table_of horizon events (map rule_of rules.now) out.old }
{
    ticket::answer_number(&table::table(horizon, events, rules, out))
}

// The working table of a ticket after the first `stops` of its stops, row by row, at the start of `out`. The answer is 0, or the number of the first cause to
// refuse.
#[unsafe(no_mangle)]
pub extern "C" fn beyunlak_table_after(ticket: &[u8], stops: u32, out: &mut [i32]) -> u32
    ensures { (result, out.new) ≡ table_after ticket.now stops out.old }
{
    ticket::answer_number(&stops::table_after(ticket, stops, out))
}

// Why a ticket has no schedule: the text of a ring of rules, at the start of `out`, with the names of the two lists. The answer is 0, or the number of the
// first cause to refuse; `length` is the length of the text.
#[unsafe(no_mangle)]
pub extern "C" fn beyunlak_reason<'a>(
    ticket: &'a [u8],
    labels: &'a [u8],
    roster: &'a [u8],
    out: &mut [u8],
    length: &mut u32,
) -> u32
    ensures value { result ≡ (reasoning ticket.now labels.now roster.now out.old).number }
    ensures length_after { length.new ≡ (reasoning ticket.now labels.now roster.now out.old).length }
    ensures out_after { out.new ≡ (reasoning ticket.now labels.now roster.now out.old).out }
{
    let explained = reason::reason(ticket, labels, roster, out);
    *length = explained.unwrap_or(0);
    ticket::answer_number(&explained)
}

// The mended ticket at the start of `out`, and the numbers of the dropped rules, after their count, at the start of `dropped`. The answer is 0, or the number of
// the first cause to refuse.
#[unsafe(no_mangle)]
pub extern "C" fn beyunlak_mend(ticket: &[u8], out: &mut [u8], dropped: &mut [u8]) -> u32
    ensures value { result ≡ (mending ticket.now out.old dropped.old).number }
    ensures out_after { out.new ≡ (mending ticket.now out.old dropped.old).out }
    ensures dropped_after { dropped.new ≡ (mending ticket.now out.old dropped.old).list }
{
    let mended = mend::mend(ticket, out, dropped);
    ticket::answer_number(&mended)
}

// The events of one device and their windows in the plan of its part, after their count, at the start of `out`. The answer is 0, or the number of the first cause
// to refuse.
#[unsafe(no_mangle)]
pub extern "C" fn beyunlak_part(ticket: &[u8], device: u32, out: &mut [u8]) -> u32
    ensures value { result ≡ (parting ticket.now device out.old).number }
    ensures out_after { out.new ≡ (parting ticket.now device out.old).out }
{
    let parted = part::part(ticket, device, out);
    ticket::answer_number(&parted)
}
