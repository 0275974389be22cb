// Mending a ticket on bytes: the kept rules go into one output, as a ticket, and the numbers of the dropped ones into another.
// The promise of `mend` is an equation with the outcome that crate `mending` defines (specs/Mending) of all that the call is lent.
// Rests on `select` for which rules are kept, and on `reading` and `writing` for the bytes.

#![tactic(auto)]

ghost use Rattle.std.specs.Prelude.{◌≡◌, ◌≤◌, length};
ghost use Rattle.std.proofs.lemmas.List.Edits.{sets};
ghost use Rattle.temporal.specs.Run.{Valid};
ghost use Rattle.network.specs.Stored.{at};
ghost use Rattle.ticket.specs.Writing.{firsts, content};
ghost use Rattle.mending.specs.Mending.{write_numbers, accepting, mending};
ghost use Rattle.mend.specs.Returned.{returned, told};

use ticket::{Refusal, TICKET_BYTES, Ticket};

// A list holds its count and 256 numbers, of two bytes each.
pub const LIST_BYTES: usize = 514;

// Store the first n numbers at the start of the list, after their count.
fn put_numbers(numbers: &[usize; 256], n: usize, list: &mut [u8])
    requires { (n ≤ 256) × (514 ≤ length list.old) }
    ensures { list.new ≡ sets list.old 0 (write_numbers (firsts n (at numbers.now))) }
{
    writing::put_u16(list, 0, n);
    for i in 0..n {
        writing::put_u16(list, 2 + 2 * i, numbers[i]);
    }
}

// A mended ticket: its length, and that of the list.
#[derive(Clone, Copy, Debug, PartialEq, Eq)]
pub struct Lengths {
    pub length: usize,
    pub listed: usize,
}

// Mend a ticket that was read, into the outputs.
fn write_mended(t: Ticket, out: &mut [u8], list: &mut [u8]) -> Lengths
    requires { Valid (content t) × (1584 ≤ length out.old) × (514 ≤ length list.old) }
    ensures value { told (Ok result) ≡ returned (accepting (content t) out.old list.old) }
    ensures out_after { out.new ≡ (accepting (content t) out.old list.old).out }
    ensures list_after { list.new ≡ (accepting (content t) out.old list.old).list }
{
    let m = select::mend_ticket(t);
    let n = m.dropped;
    writing::put_ticket(m.ticket, out);
    put_numbers(&m.numbers, n, list);
    Lengths {
        length: 8 + m.ticket.events + 6 * m.ticket.rules,
        listed: 2 + 2 * n,
    }
}

// Mend the ticket that the bytes hold: the mended ticket goes into the output, and the numbers of the dropped rules into the list.
pub fn mend(ticket: &[u8], out: &mut [u8], list: &mut [u8]) -> Result<Lengths, Refusal>
    ensures value { told result ≡ returned (mending ticket.now out.old list.old) }
    ensures out_after { out.new ≡ (mending ticket.now out.old list.old).out }
    ensures list_after { list.new ≡ (mending ticket.now out.old list.old).list }
{
    if out.len() < TICKET_BYTES {
        return Err(Refusal::Room);
    }
    if list.len() < LIST_BYTES {
        return Err(Refusal::Room);
    }
    let t = reading::read_ticket(ticket)?;
    Ok(write_mended(t, out, list))
}
