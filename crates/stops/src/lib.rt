// The table of a ticket after some of its stops, on bytes (02, change 3): the ticket is read, that it has a schedule is tested, and the working entries after
// so many stops are written into the lent output. The promise of `table_after` is an equation with the outcome that specs/After defines of all that the call
// is lent. Rests on `reading` for the ticket, on `table` for the entries before the first stop, and on `closure` for the stops.

#![tactic(auto)]

ghost use Rattle.std.specs.Prelude.{◌≡◌, ◌≤◌, length};
ghost use Rattle.temporal.specs.Distance.{consistent};
ghost use Rattle.temporal.specs.Run.{Valid};
ghost use Rattle.ticket.specs.Writing.{content};
ghost use Rattle.ticket.specs.Refusal.{answer_number};
ghost use Rattle.closure.specs.Matrix.{entry, Everywhere};
ghost use Rattle.closure.specs.Start.{first_entries};
ghost use Rattle.stops.specs.After.{worked, table_after};

use table::OUTPUT;
use ticket::{Refusal, Ticket};

// The entries before the first stop.
pub fn first_entries(t: Ticket) -> [u64; 1681]
    requires { Valid (content t) }
    ensures { (length result ≡ 1681) × Everywhere 40 (λ i j. entry result i j ≡ first_entries (content t) i j) }
{
    let rules = table::gathered(t.rules, &t.from, &t.to, &t.bound);
    table::ruled(u64::from(t.horizon), &rules[..t.rules])
}

// Whether the ticket has a schedule.
fn has_schedule(t: Ticket) -> bool
    requires { Valid (content t) }
    ensures { result ≡ consistent (content t) }
{
    let mut w = first_entries(t);
    closure::closure(&mut w, t.events)
}

// The working table of a ticket that was read.
fn work(t: Ticket, stops: u32, out: &mut [i32]) -> Result<(), Refusal>
    requires { Valid (content t) × (1681 ≤ length out.old) }
    ensures { (answer_number result, out.new) ≡ worked (content t) stops out.old }
{
    if !has_schedule(t) {
        return Err(Refusal::Impossible);
    }
    let n = t.events;
    let taken = (stops as usize).min(n + 1);
    let mut w = first_entries(t);
    closure::take_stops(&mut w, n, taken);
    closure::write(&w, n, out);
    Ok(())
}

// The working table of the ticket that the bytes hold, after the first `stops` of its stops. A refusal leaves the output as it is.
pub fn table_after(ticket: &[u8], stops: u32, out: &mut [i32]) -> Result<(), Refusal>
    ensures { (answer_number result, out.new) ≡ table_after ticket.now stops out.old }
{
    if out.len() < OUTPUT {
        return Err(Refusal::Room);
    }
    work(reading::read_ticket(ticket)?, stops, out)
}
