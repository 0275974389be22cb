// The reason why a ticket is impossible, on bytes: the ticket is read, the two lists of names are tested, the ring is sought, and its text is written into
// the lent output. The promise of `reason` is an equation with the outcome that crate `reasons` defines (specs/Reasoning) of all that the call is lent.
// Rests on `reading` for the ticket, on `names` for the lists, on `ring` for the ring, and on `ring_text` for its text.

#![tactic(auto)]

ghost use Rattle.std.specs.Prelude.{◌≡◌, ◌≤◌, length};
ghost use Rattle.temporal.specs.Run.{Valid};
ghost use Rattle.ticket.specs.Writing.{content};
ghost use Rattle.reasons.specs.Reasoning.{explaining, reasoning};
ghost use Rattle.reason.specs.Returned.{returned, told};

use ticket::{DEVICES, Refusal, Ticket};

// An output holds the longest text.
pub const TEXT_BYTES: usize = 2_200;

// Explain a ticket that was read. How long the text is.
fn explain<'a>(
    t: Ticket,
    labels: &'a [u8],
    roster: &'a [u8],
    out: &mut [u8],
) -> Result<u32, Refusal>
    requires { Valid (content t) × (2200 ≤ length out.old) }
    ensures value { told result ≡ returned (explaining (content t) labels.now roster.now out.old) }
    ensures out_after { out.new ≡ (explaining (content t) labels.now roster.now out.old).out }
{
    if !names::well_formed(labels, t.events) {
        return Err(Refusal::Names);
    }
    if !names::well_formed(roster, DEVICES) {
        return Err(Refusal::Names);
    }
    let Some(found) = ring::ring(t) else {
        return Err(Refusal::Possible);
    };
    let length = ring_text::put_ring(out, t, &found.rules, found.count, labels, roster);
    Ok(length as u32)
}

// Explain the ticket that the bytes hold: the text of the ring goes into the output. How long it is.
pub fn reason<'a>(
    ticket: &'a [u8],
    labels: &'a [u8],
    roster: &'a [u8],
    out: &mut [u8],
) -> Result<u32, Refusal>
    ensures value { told result ≡ returned (reasoning ticket.now labels.now roster.now out.old) }
    ensures out_after { out.new ≡ (reasoning ticket.now labels.now roster.now out.old).out }
{
    if out.len() < TEXT_BYTES {
        return Err(Refusal::Room);
    }
    let t = reading::read_ticket(ticket)?;
    explain(t, labels, roster, out)
}
