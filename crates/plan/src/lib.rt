// Planning and commitment on bytes: a ticket or a record is read, decided upon in the lent scratch, and the record is written into the lent output.
// Each promise of `plan`, `plan_latest` and `commit` is an equation with the outcome that crate `runs` defines (specs/Calls) of all that the call is lent.
// Rests on `causes` for what refuses a commitment and for clearing the scratch, on `reading`, `reading_records` and `writing_records` for the bytes, on `latest`, `windows` and
// `fitness` for the windows.

#![tactic(auto)]

ghost use Rattle.std.specs.Prelude.{◌≡◌, ◌≤◌, length};
ghost use Rattle.temporal.specs.Ticket.{total};
ghost use Rattle.temporal.specs.Plan.{plan_for, cause, commit, accepted, asking};
ghost use Rattle.temporal.specs.Run.{Valid};
ghost use Rattle.ticket.specs.Parser.{wholly};
ghost use Rattle.ticket.specs.Refusal.{answer_number};
ghost use Rattle.ticket.specs.Format.{read_ticket};
ghost use Rattle.ticket.specs.Stored.{whole_ticket};
ghost use Rattle.ticket.specs.Writer.{write_state};
ghost use Rattle.ticket.specs.Writing.{content, state_of, over};
ghost use Rattle.causes.specs.Zeroed.{past};
ghost use Rattle.runs.specs.Calls.{answered, after_reading, planning, planning_latest, commit_read, committing};
ghost use Rattle.plan.specs.Returned.{returned, told};
ghost use Rattle.causes.specs.Structs.{Canonical};
ghost use Rattle.plan.specs.Meets.{Meets};

use ticket::{Record, Refusal, Ticket};

// How many devices there are, in the type of a caller.
const DEVICES: u32 = ticket::DEVICES as u32;

// An accepted call: the record's length and its total width.
#[derive(Clone, Copy, Debug, PartialEq, Eq)]
pub struct Accepted {
    pub length: usize,
    pub total: u32,
}

// Write the record into the output.
fn write_out(r: &Record, out: &mut [u8]) -> Accepted
    requires { Canonical r.now × (1958 ≤ length out.old) }
    ensures value { result ≡ record {
      length = length (write_state (state_of r.now));
      total = total (state_of r.now).ticket (state_of r.now).windows;
    } }
    ensures out_after { out.new ≡ over (write_state (state_of r.now)) out.old }
{
    let total = fitness::total(r.ticket, &r.opens, &r.closes);
    let length = writing_records::put_record(*r, out);
    Accepted { length, total }
}

// Plan a ticket that was read: the latest plan where `latest` says so. It is an input, of which the contract speaks (`plan_for latest`); a plan as a closure would bring
// its whole contract along. Never inlined, so that what stands on the stack for it does not stand there while the ticket is read.
#[inline(never)]
fn plan_ticket(
    t: &Ticket,
    latest: bool,
    out: &mut [u8],
    scratch: &mut [u32],
) -> Result<Accepted, Refusal>
    requires valid { Valid (content t.now) }
    requires in_bounds { (1958 ≤ length out.old) × (1824 ≤ length scratch.old) }
    ensures { Meets (answered out.old scratch.old (plan_for latest (content t.now))) scratch.old (told result) out.new scratch.new }
{
    let mut r = Record {
        ticket: *t,
        flags: [0; Ticket::EVENTS],
        opens: [0; Ticket::EVENTS],
        closes: [0; Ticket::EVENTS],
        counts: [0; ticket::DEVICES],
    };
    let found = latest::plan_windows(
        &mut scratch[..1824],
        *t,
        latest,
        &mut r.opens,
        &mut r.closes,
    );
    if !found {
        return Err(Refusal::Impossible);
    }
    Ok(write_out(&r, out))
}

// The ticket that the bytes hold. Never inlined, so that what reading needs of the stack is free again when it has answered.
#[inline(never)]
fn read(ticket: &[u8]) -> Result<Ticket, Refusal>
    ensures { result ≡ whole_ticket ticket.now }
{
    reading::read_ticket(ticket)
}

// Plan the ticket that the bytes hold, where there is room: the latest plan where `latest` says so (an input, as above). Of the scratch the first 1,824 numbers are
// used, and not cleared.
pub fn plan_bytes(
    ticket: &[u8],
    latest: bool,
    out: &mut [u8],
    scratch: &mut [u32],
) -> Result<Accepted, Refusal>
    requires { (1958 ≤ length out.old) × (1824 ≤ length scratch.old) }
    ensures { Meets (after_reading out.old scratch.old (plan_for latest) (wholly read_ticket ticket.now))
        scratch.old (told result) out.new scratch.new }
{
    // looked at where it lies: `?` would lay the ticket on the stack once more
    let read = read(ticket);
    match &read {
        Err(refusal) => Err(*refusal),
        Ok(t) => plan_ticket(t, latest, out, scratch),
    }
}

// Plan the ticket that the bytes hold: the record goes into the output.
pub fn plan(ticket: &[u8], out: &mut [u8], scratch: &mut [u32]) -> Result<Accepted, Refusal>
    ensures value { told result ≡ returned (planning ticket.now out.old scratch.old) }
    ensures out_after { out.new ≡ (planning ticket.now out.old scratch.old).out }
    ensures scratch_after { scratch.new ≡ (planning ticket.now out.old scratch.old).scratch }
{
    if causes::short(out.len(), scratch.len()) {
        return Err(Refusal::Room);
    }
    let answer = plan_bytes(ticket, false, out, scratch);
    causes::clear(scratch);
    answer
}

// The latest plan of the ticket that the bytes hold: the record goes into the output. A function of its own beside `plan`, since each is an equation with its own outcome.
pub fn plan_latest(ticket: &[u8], out: &mut [u8], scratch: &mut [u32]) -> Result<Accepted, Refusal>
    ensures value { told result ≡ returned (planning_latest ticket.now out.old scratch.old) }
    ensures out_after { out.new ≡ (planning_latest ticket.now out.old scratch.old).out }
    ensures scratch_after { scratch.new ≡ (planning_latest ticket.now out.old scratch.old).scratch }
{
    if causes::short(out.len(), scratch.len()) {
        return Err(Refusal::Room);
    }
    let answer = plan_bytes(ticket, true, out, scratch);
    causes::clear(scratch);
    answer
}

// Commit the event of the record to the window by the caller, and make the free windows as wide as they can be.
fn commit_event(
    r: &mut Record,
    caller: u32,
    event: u32,
    opens: u32,
    closes: u32,
    scratch: &mut [u32],
)
    requires canonical { Canonical r.old × (cause (state_of r.old) (asking caller event opens closes) ≡ 0) }
    requires in_bounds { 1824 ≤ length scratch.old }
    ensures canonical_2 { Canonical r.new × (commit (state_of r.old) (asking caller event opens closes) ≡ accepted (state_of r.new)) }
    ensures scratch_unchanged { past 2400 scratch.new ≡ past 2400 scratch.old }
{
    windows::commit_window(
        &mut scratch[..1824],
        r.ticket,
        &mut r.flags,
        &mut r.opens,
        &mut r.closes,
        event as usize,
        opens,
        closes,
    );
    r.counts[caller as usize] += 1;
}

// The first cause to refuse the commitment. Never inlined, so that the copy of the record that it hands on is off the stack when it has answered.
#[inline(never)]
fn test_commitment(
    r: &Record,
    caller: u32,
    event: u32,
    opens: u32,
    closes: u32,
) -> Result<(), Refusal>
    requires { Canonical r.now × (caller ≤ 4) }
    ensures { answer_number result ≡ cause (state_of r.now) (asking caller event opens closes) }
{
    causes::cause(*r, caller, event, opens, closes)
}

// Commit to a record that was read. Never inlined, so that what stands on the stack for it does not stand there while the record is read.
#[inline(never)]
fn commit_record(
    r: &Record,
    caller: u32,
    event: u32,
    opens: u32,
    closes: u32,
    out: &mut [u8],
    scratch: &mut [u32],
) -> Result<Accepted, Refusal>
    requires { Canonical r.now × (caller ≤ 4) × (1958 ≤ length out.old) × (1824 ≤ length scratch.old) }
    ensures { Meets (answered out.old scratch.old (commit (state_of r.now) (asking caller event opens closes)))
        scratch.old (told result) out.new scratch.new }
{
    test_commitment(r, caller, event, opens, closes)?;
    let mut next = *r;
    commit_event(&mut next, caller, event, opens, closes, scratch);
    Ok(write_out(&next, out))
}

// Commit to the record that the bytes hold, where there is room. Of the scratch the first 1,824 numbers are used, and not cleared.
pub fn commit_bytes(
    record: &[u8],
    caller: u32,
    event: u32,
    opens: u32,
    closes: u32,
    out: &mut [u8],
    scratch: &mut [u32],
) -> Result<Accepted, Refusal>
    requires { (1958 ≤ length out.old) × (1824 ≤ length scratch.old) }
    ensures { Meets (commit_read «record».now caller event opens closes out.old scratch.old)
        scratch.old (told result) out.new scratch.new }
{
    if DEVICES <= caller {
        return Err(Refusal::Caller);
    }
    // looked at where it lies: `?` would lay the record on the stack once more
    let read = reading_records::read_record(record);
    match &read {
        Err(refusal) => Err(*refusal),
        Ok(r) => commit_record(r, caller, event, opens, closes, out, scratch),
    }
}

// Commit the event of a record to a window: the new record goes into the output.
pub fn commit(
    record: &[u8],
    caller: u32,
    event: u32,
    opens: u32,
    closes: u32,
    out: &mut [u8],
    scratch: &mut [u32],
) -> Result<Accepted, Refusal>
    ensures value { told result ≡ returned (committing «record».now caller event opens closes out.old scratch.old) }
    ensures out_after { out.new ≡ (committing «record».now caller event opens closes out.old scratch.old).out }
    ensures scratch_after { scratch.new ≡ (committing «record».now caller event opens closes out.old scratch.old).scratch }
{
    if causes::short(out.len(), scratch.len()) {
        return Err(Refusal::Room);
    }
    let answer = commit_bytes(record, caller, event, opens, closes, out, scratch);
    causes::clear(scratch);
    answer
}
