// Reads tickets. An answer is what was read, or the refusal and nothing else.
// Rests on crate ticket, which has the structs and the parsers that the contracts name.

#![tactic(auto)]

ghost use Rattle.std.specs.Prelude.{◌≡◌, ◌+◌, ◌*◌, ◌≤◌, length, drop, IfOk};
ghost use Rattle.ticket.specs.Parser.{got, little};
ghost use Rattle.ticket.specs.Stored.{whole_ticket};
ghost use Rattle.reading.specs.Parts.{owners_at, rule_at, rules_at, all_rules_at, front_at, ticket_at};

use ticket::{ReadTicket, Refusal, Ticket};

// The number of the two bytes at `at`.
pub fn u16_at(s: &[u8], at: usize) -> usize
    requires { at + 2 ≤ length s.now }
    ensures { little 2 (drop at s.now) ≡ got result (drop (at + 2) s.now) }
{
    usize::from(u16::from_le_bytes([s[at], s[at + 1]]))
}

// The number of the four bytes at `at`.
pub fn u32_at(s: &[u8], at: usize) -> u32
    requires { at + 4 ≤ length s.now }
    ensures { little 4 (drop at s.now) ≡ got result (drop (at + 4) s.now) }
{
    u32::from_le_bytes([s[at], s[at + 1], s[at + 2], s[at + 3]])
}

// The parts take the lent bytes and a place in them. A part of the bytes, as `&s[at..]`, would be no plainer: contracts read it as a `take` of a `drop`, which each call's proof has to undo.

// The n owners at `at`.
fn owners_at(s: &[u8], at: usize, n: usize) -> Result<[u8; Ticket::EVENTS], Refusal>
    requires { (at ≤ length s.now) × (n ≤ 40) }
    ensures { result ≡ owners_at s.now at n }
{
    let mut owners = [0u8; Ticket::EVENTS];
    for i in 0..n {
        if s.len() - at <= i {
            return Err(Refusal::Short);
        }
        let b = s[at + i];
        if 4 < b {
            return Err(Refusal::Owner);
        }
        owners[i] = b;
    }
    Ok(owners)
}

#[derive(Drop)]
struct Rule {
    from: u8,
    to: u8,
    bound: i32,
}

// The rule at `at`, over n events.
fn rule_at(s: &[u8], at: usize, n: usize) -> Result<Rule, Refusal>
    requires { at ≤ length s.now }
    ensures { result ≡ rule_at s.now at n }
{
    if s.len() - at < 6 {
        return Err(Refusal::Short);
    }
    let from = s[at];
    let to = s[at + 1];
    let bound = u32_at(s, at + 2).cast_signed();
    ticket::test_rule(n, from, to, bound)?;
    Ok(Rule { from, to, bound })
}

// Rules, in the three arrays that a ticket has for them.
#[derive(Drop)]
struct Rules {
    count: usize,
    from: [u8; Ticket::RULES],
    to: [u8; Ticket::RULES],
    bound: [i32; Ticket::RULES],
}

// m rules over n events.
fn rules_at(s: &[u8], at: usize, n: usize, m: usize) -> Result<Rules, Refusal>
    requires { (at ≤ length s.now) × (m ≤ 256) }
    ensures { result ≡ rules_at s.now at n m }
{
    let mut from = [0u8; Ticket::RULES];
    let mut to = [0u8; Ticket::RULES];
    let mut bound = [0i32; Ticket::RULES];
    for i in 0..m {
        let rule = rule_at(s, at + 6 * i, n)?;
        from[i] = rule.from;
        to[i] = rule.to;
        bound[i] = rule.bound;
    }
    Ok(Rules {
        count: m,
        from,
        to,
        bound,
    })
}

// The number of rules, and the rules over n events after it.
fn all_rules_at(s: &[u8], at: usize, n: usize) -> Result<Rules, Refusal>
    requires { at ≤ length s.now }
    ensures { result ≡ all_rules_at s.now at n }
{
    if s.len() - at < 2 {
        return Err(Refusal::Short);
    }
    let m = u16_at(s, at);
    if Ticket::RULES < m {
        return Err(Refusal::Rules);
    }
    rules_at(s, at + 2, n, m)
}

#[derive(Drop)]
struct Front {
    horizon: u32,
    events: usize,
}

// The first two numbers of the ticket that starts at `at`.
fn front_at(s: &[u8], at: usize) -> Result<Front, Refusal>
    ensures { result ≡ front_at s.now at }
{
    if s.len() < at || s.len() - at < 4 {
        return Err(Refusal::Short);
    }
    let horizon = u32_at(s, at);
    if Ticket::HORIZON < horizon {
        return Err(Refusal::Horizon);
    }
    let next = at + 4;
    if s.len() - next < 2 {
        return Err(Refusal::Short);
    }
    let events = u16_at(s, next);
    if Ticket::EVENTS < events {
        return Err(Refusal::Events);
    }
    Ok(Front { horizon, events })
}

// The ticket that starts at `at`; next is past it.
fn ticket_at(s: &[u8], at: usize) -> Result<ReadTicket, Refusal>
    ensures { result ≡ ticket_at s.now at }
{
    let Front { horizon, events } = front_at(s, at)?;
    let owners = owners_at(s, at + 6, events)?;
    let Rules {
        count,
        from,
        to,
        bound,
    } = all_rules_at(s, at + 6 + events, events)?;
    let ticket = Ticket {
        horizon,
        events,
        owners,
        rules: count,
        from,
        to,
        bound,
    };
    Ok(ReadTicket {
        ticket,
        next: at + 8 + events + 6 * count,
    })
}

// The lent bytes, and the place where reading goes on.
#[derive(Drop)]
pub struct Reader<'a> {
    pub src: &'a [u8],
    pub at: usize,
}

impl<'a> Reader<'a> {
    // A reader made over the lent bytes stands at their start.
    pub fn new(src: &'a [u8]) -> Reader<'a>
        ensures { (result.src ≡ src.entry) × (result.at ≡ 0) }
    {
        Reader { src, at: 0 }
    }

    // The ticket at the reader's place; next is the place past it.
    pub fn next_ticket(self) -> Result<ReadTicket, Refusal>
        ensures { result ≡ ticket_at self.entry.src.now self.entry.at }
    {
        ticket_at(self.src, self.at)
    }
}

// The ticket at the start of s, read through a reader.
pub fn first_ticket(s: &[u8]) -> Result<ReadTicket, Refusal>
    ensures { result ≡ ticket_at s.now 0 }
{
    Reader::new(s).next_ticket()
}

// A whole ticket: nothing may come after it, so the place past it is the end of the bytes.
pub fn read_ticket(s: &[u8]) -> Result<Ticket, Refusal>
    ensures value { result ≡ whole_ticket s.now }
    ensures past { IfOk result (λ t. length s.now ≡ 8 + t.events + 6 * t.rules) }
{
    let read = first_ticket(s)?;
    if read.next < s.len() {
        return Err(Refusal::Trailing);
    }
    Ok(read.ticket)
}
