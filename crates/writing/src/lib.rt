// Writes tickets. A refusal leaves the output as it was.
// Rests on crate ticket, which has the structs and the bytes that the contracts name.

#![tactic(auto)]

ghost use Rattle.std.specs.Prelude.{◌≡◌, ◌+◌, ◌*◌, ◌≤◌, ◌<◌, length, []};
ghost use Rattle.std.proofs.lemmas.List.Edits.{sets};
ghost use Rattle.ticket.specs.Refusal.{tested};
ghost use Rattle.ticket.specs.Writer.{bytes, each, write_rule, write_ticket};
ghost use Rattle.ticket.specs.Writing.{firsts, tests, content, rule_in, test_owner, test_rule, test_ticket, written_of, output_of};

use ticket::{Refusal, TICKET_BYTES, Ticket};

// The bytes at `at`.
fn put_bytes(out: &mut [u8], at: usize, bytes: &[u8])
    requires { at + length bytes.now ≤ length out.old }
    ensures { out.new ≡ sets out.old at bytes.now }
{
    out[at..at + bytes.len()].copy_from_slice(bytes);
}

// The number x in the two bytes at `at`.
pub fn put_u16(out: &mut [u8], at: usize, x: usize)
    requires { at + 2 ≤ length out.old }
    ensures { out.new ≡ sets out.old at (bytes 2 x) }
{
    put_bytes(out, at, &x.to_le_bytes()[..2]);
}

// The number x in the four bytes at `at`.
pub fn put_u32(out: &mut [u8], at: usize, x: u32)
    requires { at + 4 ≤ length out.old }
    ensures { out.new ≡ sets out.old at (bytes 4 x) }
{
    put_bytes(out, at, &x.to_le_bytes());
}

// Whether the owners of t are devices.
fn test_owners(t: &Ticket) -> Result<(), Refusal>
    requires { t.now.events ≤ 40 }
    ensures { result ≡ tested (tests t.now.events (test_owner t.now) []) }
{
    for owner in &t.owners[..t.events] {
        if 4 < *owner {
            return Err(Refusal::Owner);
        }
    }
    Ok(())
}

// Whether each rule of t is one over its events.
fn test_rules(t: &Ticket) -> Result<(), Refusal>
    requires { t.now.rules ≤ 256 }
    ensures { result ≡ tested (tests t.now.rules (test_rule t.now) []) }
{
    for i in 0..t.rules {
        ticket::test_rule(t.events, t.from[i], t.to[i], t.bound[i])?;
    }
    Ok(())
}

// The rule i of t at `at`: its points, and the bits of its bound.
fn put_rule(out: &mut [u8], at: usize, t: &Ticket, i: usize)
    requires { (i < 256) × (at + 6 ≤ length out.old) }
    ensures { out.new ≡ sets out.old at (write_rule (rule_in t.now i)) }
{
    out[at] = t.from[i];
    out[at + 1] = t.to[i];
    put_bytes(out, at + 2, &t.bound[i].to_le_bytes());
}

// The rules of t at `at`.
fn put_rules(out: &mut [u8], at: usize, t: &Ticket)
    requires { (t.now.rules ≤ 256) × (at + 6 * t.now.rules ≤ length out.old) }
    ensures { out.new ≡ sets out.old at (each write_rule (firsts t.now.rules (rule_in t.now))) }
{
    for i in 0..t.rules {
        put_rule(out, at + 6 * i, t, i);
    }
}

// Whether t is a ticket.
pub fn test_ticket(t: Ticket) -> Result<(), Refusal>
    ensures { result ≡ tested (test_ticket t []) }
{
    if Ticket::HORIZON < t.horizon {
        return Err(Refusal::Horizon);
    }
    if Ticket::EVENTS < t.events {
        return Err(Refusal::Events);
    }
    test_owners(&t)?;
    if Ticket::RULES < t.rules {
        return Err(Refusal::Rules);
    }
    test_rules(&t)
}

// The bytes of t at the start of out.
pub fn put_ticket(t: Ticket, out: &mut [u8])
    requires { (t.events ≤ 40) × (t.rules ≤ 256) × (1584 ≤ length out.old) }
    ensures { out.new ≡ sets out.old 0 (write_ticket (content t)) }
{
    let n = t.events;
    put_u32(out, 0, t.horizon);
    put_u16(out, 4, n);
    put_bytes(out, 6, &t.owners[..n]);
    put_u16(out, 6 + n, t.rules);
    put_rules(out, 8 + n, &t);
}

// The ticket at the start of out: how many bytes it takes.
pub fn write_ticket(t: Ticket, out: &mut [u8]) -> Result<usize, Refusal>
    ensures value { result ≡ written_of out.old t }
    ensures out_after { out.new ≡ output_of out.old t }
{
    if out.len() < TICKET_BYTES {
        return Err(Refusal::Room);
    }
    test_ticket(t)?;
    put_ticket(t, out);
    Ok(8 + t.events + 6 * t.rules)
}
