// What the tests call beside the functions of crate `beyunlak`: both plans and commitment with lent scratch, reading a ticket or a record and
// writing it back, and writing a ticket or a record of given values. Each answers the refusal number; a second result is stored through a reference,
// and a struct comes in by its fields, as C takes it.

#![tactic(auto)]

ghost use Rattle.std.specs.Prelude.{◌≡◌, pos};
ghost use Rattle.ticket.specs.Format.{read_ticket, read_state};
ghost use Rattle.std.specs.Result.{result_unwrap_or};
ghost use Rattle.ticket.specs.Refusal.{answer_number};
ghost use Rattle.ticket.specs.Writing.{written_of, output_of, record_written, record_output};
ghost use Rattle.runs.specs.Calls.{planning, planning_latest, committing};
ghost use Rattle.harness.specs.Rewriting.{rewriting};
ghost use Rattle.harness.specs.Values.{placed, valued, recorded};
ghost use Rattle.harness.specs.Rewriting.{narrow as Rewriting·narrow};

// A length as C has it: the largest number where it is above that.
fn narrow(x: usize) -> u32
    ensures { result ≡ Rewriting·narrow x }
{
    x.min(u32::MAX as usize) as u32
}

#[unsafe(no_mangle)]
pub extern "C" fn harness_plan(
    ticket: &[u8],
    out: &mut [u8],
    scratch: &mut [u32],
    size: &mut u32,
    sum: &mut u32,
) -> u32
    ensures value { result ≡ (planning ticket.now out.old scratch.old).number }
    ensures out_after { out.new ≡ (planning ticket.now out.old scratch.old).out }
    ensures scratch_after { scratch.new ≡ (planning ticket.now out.old scratch.old).scratch }
    ensures size_after { size.new ≡ Rewriting·narrow (planning ticket.now out.old scratch.old).length }
    ensures sum_after { sum.new ≡ (planning ticket.now out.old scratch.old).total }
{
    let planned = plan::plan(ticket, out, scratch);
    *size = narrow(planned.map_or(0, |accepted| accepted.length));
    *sum = planned.map_or(0, |accepted| accepted.total);
    ticket::answer_number(&planned)
}

#[unsafe(no_mangle)]
pub extern "C" fn harness_plan_latest(
    ticket: &[u8],
    out: &mut [u8],
    scratch: &mut [u32],
    size: &mut u32,
    sum: &mut u32,
) -> u32
    ensures value { result ≡ (planning_latest ticket.now out.old scratch.old).number }
    ensures out_after { out.new ≡ (planning_latest ticket.now out.old scratch.old).out }
    ensures scratch_after { scratch.new ≡ (planning_latest ticket.now out.old scratch.old).scratch }
    ensures size_after { size.new ≡ Rewriting·narrow (planning_latest ticket.now out.old scratch.old).length }
    ensures sum_after { sum.new ≡ (planning_latest ticket.now out.old scratch.old).total }
{
    let latest = plan::plan_latest(ticket, out, scratch);
    *size = narrow(latest.map_or(0, |accepted| accepted.length));
    *sum = latest.map_or(0, |accepted| accepted.total);
    ticket::answer_number(&latest)
}

#[unsafe(no_mangle)]
pub extern "C" fn harness_commit(
    record: &[u8],
    caller: u32,
    event: u32,
    open: u32,
    close: u32,
    out: &mut [u8],
    scratch: &mut [u32],
    size: &mut u32,
    sum: &mut u32,
) -> u32
    ensures value { result ≡ (committing «record».now caller event «open» close out.old scratch.old).number }
    ensures out_after { out.new ≡ (committing «record».now caller event «open» close out.old scratch.old).out }
    ensures scratch_after { scratch.new ≡ (committing «record».now caller event «open» close out.old scratch.old).scratch }
    ensures size_after { size.new ≡ Rewriting·narrow (committing «record».now caller event «open» close out.old scratch.old).length }
    ensures sum_after { sum.new ≡ (committing «record».now caller event «open» close out.old scratch.old).total }
{
    let committed = plan::commit(record, caller, event, open, close, out, scratch);
    *size = narrow(committed.map_or(0, |accepted| accepted.length));
    *sum = committed.map_or(0, |accepted| accepted.total);
    ticket::answer_number(&committed)
}

#[unsafe(no_mangle)]
pub extern "C" fn harness_rewrite_ticket(ticket: &[u8], out: &mut [u8], size: &mut u32) -> u32
    ensures value { result ≡ (rewriting 1584 read_ticket ticket.now out.old).number }
    ensures out_after { out.new ≡ (rewriting 1584 read_ticket ticket.now out.old).out }
    ensures size_after { size.new ≡ (rewriting 1584 read_ticket ticket.now out.old).length }
{
    *size = 0;
    if out.len() < ticket::TICKET_BYTES {
        return 10;
    }
    match reading::read_ticket(ticket) {
        Err(refusal) => refusal.number(),
        Ok(t) => {
            let written = writing::write_ticket(t, out);
            *size = narrow(written.unwrap_or(0));
            ticket::answer_number(&written)
        }
    }
}

#[unsafe(no_mangle)]
pub extern "C" fn harness_rewrite_record(record: &[u8], out: &mut [u8], size: &mut u32) -> u32
    ensures value { result ≡ (rewriting 1958 read_state «record».now out.old).number }
    ensures out_after { out.new ≡ (rewriting 1958 read_state «record».now out.old).out }
    ensures size_after { size.new ≡ (rewriting 1958 read_state «record».now out.old).length }
{
    *size = 0;
    if out.len() < ticket::RECORD_BYTES {
        return 10;
    }
    match reading_records::read_record(record) {
        Err(refusal) => refusal.number(),
        Ok(r) => {
            let written = writing_records::write_record(r, out);
            *size = narrow(written.unwrap_or(0));
            ticket::answer_number(&written)
        }
    }
}

// The first N numbers of s, then zeros.
fn places<T: Copy, const N: usize>(zero: T, s: &[T]) -> [T; N]
    ensures { result ≡ placed zero N s.now }
{
    let mut places = [zero; N];
    let n = s.len().min(N);
    places[..n].copy_from_slice(&s[..n]);
    places
}

// The ticket of these values.
fn ticket_of(
    horizon: u32,
    events: u32,
    owners: &[u8],
    rules: u32,
    from: &[u8],
    to: &[u8],
    bound: &[i32],
) -> ticket::Ticket
    ensures { result ≡ valued horizon events owners.now rules from.now to.now bound.now }
{
    ticket::Ticket {
        horizon,
        events: events as usize,
        owners: places(0, owners),
        rules: rules as usize,
        from: places(0, from),
        to: places(0, to),
        bound: places(0, bound),
    }
}

#[unsafe(no_mangle)]
pub extern "C" fn harness_write_ticket(
    horizon: u32,
    events: u32,
    owners: &[u8],
    rules: u32,
    from: &[u8],
    to: &[u8],
    bound: &[i32],
    out: &mut [u8],
    size: &mut u32,
) -> u32
    ensures value { result ≡ answer_number (written_of out.old (valued horizon events owners.now rules from.now to.now bound.now)) }
    ensures out_after { out.new ≡ output_of out.old (valued horizon events owners.now rules from.now to.now bound.now) }
    ensures size_after { size.new
        ≡ Rewriting·narrow (result_unwrap_or (written_of out.old (valued horizon events owners.now rules from.now to.now bound.now)) 0) }
{
    let t = ticket_of(horizon, events, owners, rules, from, to, bound);
    let written = writing::write_ticket(t, out);
    *size = narrow(written.unwrap_or(0));
    ticket::answer_number(&written)
}

#[unsafe(no_mangle)]
pub extern "C" fn harness_write_record(
    horizon: u32,
    events: u32,
    owners: &[u8],
    rules: u32,
    from: &[u8],
    to: &[u8],
    bound: &[i32],
    flags: &[u8],
    opens: &[u32],
    closes: &[u32],
    counts: &[u32],
    out: &mut [u8],
    size: &mut u32,
) -> u32
    ensures value { result ≡ answer_number (record_written out.old
        (recorded (valued horizon events owners.now rules from.now to.now bound.now)
        flags.now opens.now closes.now counts.now)) }
    ensures out_after { out.new ≡ record_output out.old
        (recorded (valued horizon events owners.now rules from.now to.now bound.now)
        flags.now opens.now closes.now counts.now) }
    ensures size_after { size.new ≡ Rewriting·narrow (result_unwrap_or (record_written out.old
        (recorded (valued horizon events owners.now rules from.now to.now bound.now)
        flags.now opens.now closes.now counts.now)) 0) }
{
    let t = ticket_of(horizon, events, owners, rules, from, to, bound);
    let record = ticket::Record {
        ticket: t,
        flags: places(0, flags),
        opens: places(0, opens),
        closes: places(0, closes),
        counts: places(0, counts),
    };
    let written = writing_records::write_record(record, out);
    *size = narrow(written.unwrap_or(0));
    ticket::answer_number(&written)
}
