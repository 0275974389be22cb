// The tests that refuse a call before its windows are sought: too little room, and the causes against a commitment; and the clearing of the scratch that ends each
// call.
// Rests on `temporal` for the causes, on `runs` for room and clearing, on `ticket` and `potentials` for the record's struct and arrays, and on `fitness` for the test of its windows.

#![tactic(auto)]

ghost use Rattle.std.specs.Prelude.{◌≡◌, ◌∷◌, ◌≤◌, not, ◌&&◌, ◌||◌, eqb, leb, ltb, length, get_or};
ghost use Rattle.temporal.specs.Plan.{cause, asking};
ghost use Rattle.ticket.specs.Refusal.{answer_number};
ghost use Rattle.ticket.specs.Writing.{firsts, state_of};
ghost use Rattle.network.specs.Stored.{at};
ghost use Rattle.runs.specs.Calls.{cleared};
ghost use Rattle.causes.specs.Structs.{Canonical};
ghost use Rattle.causes.specs.FirstCause.{first_cause};

use ticket::{Refusal, Ticket};

// The most events, in the type of an event that is named.
const EVENTS: u32 = Ticket::EVENTS as u32;

// The least numbers of scratch, and how many are cleared.
const SCRATCH: usize = 2400;

// Whether an output or scratch of these lengths is too short.
pub fn short(out: usize, scratch: usize) -> bool
    ensures { result ≡ not (leb 1958 out && leb 2400 scratch) }
{
    out < ticket::RECORD_BYTES || scratch < SCRATCH
}

// Put 0 into the first 2,400 numbers.
pub fn clear(scratch: &mut [u32])
    requires { 2400 ≤ length scratch.old }
    ensures { scratch.new ≡ cleared scratch.old }
{
    scratch[..SCRATCH].fill(0);
}

// Whether a window does not lie inside the one from first to last.
fn outside(opens: u32, closes: u32, first: u32, last: u32) -> bool
    ensures { result ≡ (ltb closes opens || (ltb opens first || ltb last closes)) }
{
    closes < opens || opens < first || last < closes
}

// The first cause to refuse a device's commitment, if there is one: whether the event is its own, whether the window leaves the event's, and the device's count.
fn first_cause(fit: bool, own: bool, leaves: bool, count: u32) -> Result<(), Refusal>
    ensures { answer_number result ≡ first_cause fit own leaves count }
{
    if !fit {
        return Err(Refusal::Unfit);
    }
    if !own {
        return Err(Refusal::Foreign);
    }
    if leaves {
        return Err(Refusal::Outside);
    }
    if count == ticket::COUNT_MAX {
        return Err(Refusal::Full);
    }
    Ok(())
}

// The number that an array has for an event, 0 for point 0 and past the array.
fn number_at(xs: &[u32; Ticket::EVENTS], event: u32) -> u32
    requires { length xs.now ≡ 40 }
    ensures { result ≡ at (0 ∷ xs.now) event }
{
    if event == 0 || EVENTS < event {
        return 0;
    }
    xs[event as usize - 1]
}

// Whether the device owns the event; no device owns an event that is none of the n.
fn owns(n: u32, owners: &[u8; Ticket::EVENTS], event: u32, device: u32) -> bool
    requires { (n ≤ 40) × (device ≤ 4) }
    ensures { result ≡ eqb (get_or (5 ∷ firsts n (λ i. at owners.now i)) event 5) device }
{
    if event == 0 || n < event {
        return false;
    }
    u32::from(owners[event as usize - 1]) == device
}

// The first cause to refuse a device's commitment to the record.
pub fn cause(
    r: ticket::Record,
    caller: u32,
    event: u32,
    opens: u32,
    closes: u32,
) -> Result<(), Refusal>
    requires { Canonical r × (caller ≤ 4) }
    ensures { answer_number result ≡ cause (state_of r) (asking caller event opens closes) }
{
    let t = r.ticket;
    let fit = fitness::fit(t, &r.opens, &r.closes);
    let own = owns(t.events as u32, &t.owners, event, caller);
    let leaves = outside(
        opens,
        closes,
        number_at(&r.opens, event),
        number_at(&r.closes, event),
    );
    first_cause(fit, own, leaves, r.counts[caller as usize])
}
