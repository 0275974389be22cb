// One device's part of a ticket on bytes: the ticket is read, and the events and windows of the device's part go into the lent output.
// The promise of `part` is an equation with the outcome that crate `parts` defines (specs/Parting) of all that the call is lent.
// Rests on `part_windows` for the part, on `reading` for the ticket, and on `writing` and `writing_records` for the bytes.

#![tactic(auto)]

ghost use Rattle.std.specs.Prelude.{◌≡◌, ℕ, suc, ◌+◌, ◌≤◌, ◌<◌, length};
ghost use Rattle.std.proofs.lemmas.List.Edits.{sets};
ghost use Rattle.temporal.specs.Run.{Valid};
ghost use Rattle.network.specs.Stored.{at};
ghost use Rattle.ticket.specs.Writer.{bytes, each};
ghost use Rattle.ticket.specs.Writing.{firsts, content};
ghost use Rattle.parts.specs.Parting.{write_numbered, parted, parting};
ghost use Rattle.part.specs.Returned.{returned, told};
ghost use Rattle.part.specs.Stored.{numbered_in};

use ticket::{Refusal, Ticket};

// A part holds its count, of two bytes, and 40 events, of nine bytes each.
pub const PART_BYTES: usize = 362;

// How many devices there are, in the type of a device that is named.
const DEVICES: u32 = ticket::DEVICES as u32;

// Store the events of a part after its count, each with its window.
fn put_events<'a>(
    out: &mut [u8],
    n: usize,
    points: &'a [usize; 41],
    opens: &'a [u32; 40],
    closes: &'a [u32; 40],
)
    requires { (n ≤ 40) × (362 ≤ length out.old) × ((q : ℕ) → q < n → at points.now (suc q) ≤ 40) }
    ensures { out.new ≡ sets out.old 2 (each write_numbered (firsts n (numbered_in points.now opens.now closes.now))) }
{
    for i in 0..n {
        let event = points[i + 1] as u8;
        writing_records::put_window(out, 2 + 9 * i, event, opens[i], closes[i]);
    }
}

// An accepted call: the part's length and its total.
#[derive(Clone, Copy, Debug, PartialEq, Eq)]
pub struct Accepted {
    pub length: usize,
    pub total: u32,
}

// The device's part of a ticket that was read, into the output.
fn write_part(t: Ticket, device: u8, out: &mut [u8]) -> Result<Accepted, Refusal>
    requires { Valid (content t) × (362 ≤ length out.old) }
    ensures value { told result ≡ returned (parted device (content t) out.old) }
    ensures out_after { out.new ≡ (parted device (content t) out.old).out }
{
    let Some(p) = part_windows::plan_part(t, device) else {
        return Err(Refusal::Impossible);
    };
    writing::put_u16(out, 0, p.events);
    put_events(out, p.events, &p.points, &p.opens, &p.closes);
    Ok(Accepted {
        length: 2 + 9 * p.events,
        total: p.total,
    })
}

// The device's part of the ticket that the bytes hold: its events and their windows go into the output.
pub fn part(ticket: &[u8], device: u32, out: &mut [u8]) -> Result<Accepted, Refusal>
    ensures value { told result ≡ returned (parting ticket.now device out.old) }
    ensures out_after { out.new ≡ (parting ticket.now device out.old).out }
{
    if out.len() < PART_BYTES {
        return Err(Refusal::Room);
    }
    if DEVICES <= device {
        return Err(Refusal::Owner);
    }
    let t = reading::read_ticket(ticket)?;
    write_part(t, device as u8, out)
}
