// What the program prints for the bytes of a ticket: they are planned, the record that planning wrote is read and printed, and under it the totals of the five
// devices' parts. Where `latest` says so, it is the latest plan.
// Rests on `plan`, on `reading_records` for the record, on `part_windows` for the totals, and on `text` for the text.

ghost use Rattle.std.specs.Prelude.{◌≡◌, ◌≤◌, length};
ghost use Rattle.io.specs.Counts.{IsPrefixLen};
ghost use Rattle.text.specs.Stores.{Puts};
ghost use Rattle.planner.specs.Printed.{printed};

// What the program prints for a ticket, or for its latest plan: `latest` is an input, of which the contract speaks (`printed latest`).
pub fn print(ticket: &[u8], latest: bool, text: &mut [u8]) -> usize
    requires { 1842 ≤ length text.old }
    ensures puts { Puts (printed latest ticket.now) text.old text.new 0 result }
    ensures prefix_len { IsPrefixLen result text.new }
{
    let mut out = [0u8; ticket::RECORD_BYTES];
    let mut lent = [0u32; 1824];
    let accepted = match plan::plan_bytes(ticket, latest, &mut out, &mut lent) {
        Ok(accepted) => accepted,
        Err(refusal) => return text::put_refusal(text, refusal.number()),
    };
    let plan = reading_records::read_record(&out[..accepted.length]).unwrap();
    let next = text::put_plan(text, plan, accepted.total);
    let totals = part_windows::totals(plan.ticket);
    text::put_totals(text, next, &totals)
}
