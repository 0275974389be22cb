// Writes the text of a ring of rules, line by line: the point-line writer and the rule-line writer call each other until no rule is left.
// Rests on `ticket` for the struct, on `text` for numbers and words, and on `names` for the names. What the text is stands in `reasons` (specs/Text).

#![tactic(auto)]

ghost use Rattle.std.specs.Prelude.{◌≡◌, true, ◌+◌, ◌*◌, ◌≤◌, [], ◌∷◌, ◌++◌, length, take};
ghost use Rattle.temporal.specs.Lists.{All};
ghost use Rattle.temporal.specs.Ticket.{events};
ghost use Rattle.temporal.specs.Run.{Valid};
ghost use Rattle.ticket.specs.Writing.{content};
ghost use Rattle.text.specs.Stores.{Puts};
ghost use Rattle.names.specs.Names.{well_formed};
ghost use Rattle.paths.specs.Rules.{Number};
ghost use Rattle.reasons.specs.Text.{signed_decimal, at_line, point_line, rule_line, ring_text};
ghost use Rattle.ring_text.specs.Sheet.{lent, from_in, bound_in, rule_text, point_text, Writable};
ghost use Rattle.ring_text.specs.Lines.{Pointed};

use ticket::Ticket;

// c with its sign, and the byte that ends its line.
fn put_signed(out: &mut [u8], at: usize, c: i32) -> usize
    requires { at + 12 ≤ length out.old }
    ensures { Puts (signed_decimal c ++ 10 ∷ []) out.old out.new at result }
{
    let next = if c < 0 {
        text::put_byte(out, at, b'-')
    } else {
        at
    };
    text::put_part(out, next, c.unsigned_abs(), b'\n')
}

// The line of an event with these names.
fn put_event<'a>(out: &mut [u8], at: usize, label: &'a [u8], device: &'a [u8]) -> usize
    requires { at + 5 + length label.now + length device.now ≤ length out.old }
    ensures { Puts (at_line label.now device.now) out.old out.new at result }
{
    let a = text::put_word(out, at, b"at ");
    let b = text::put_word(out, a, label);
    let c = text::put_byte(out, b, b' ');
    let d = text::put_word(out, c, device);
    text::put_byte(out, d, b'\n')
}

// The line of rule x, with bound c.
fn put_rule(out: &mut [u8], at: usize, x: u32, c: i32) -> usize
    requires { at + 27 ≤ length out.old }
    ensures { Puts (rule_line x c) out.old out.new at result }
{
    let a = text::put_word(out, at, b"by ");
    let b = text::put_part(out, a, x, b' ');
    put_signed(out, b, c)
}

// What the text of a ring is written from: the ticket, and the names of its events and of the devices.
#[derive(Clone, Copy)]
struct Sheet<'a> {
    ticket: &'a Ticket,
    labels: &'a [u8],
    roster: &'a [u8],
}

impl<'a> Sheet<'a> {
    // The point that rule x goes from.
    fn from_of(&self, x: u32) -> usize
        requires { (1 ≤ x) × (self.now.ticket.now.rules ≤ 256) }
        ensures { result ≡ from_in (lent self.now) x }
    {
        let k = x as usize;
        let m = self.ticket.rules;
        if k <= m {
            return usize::from(self.ticket.from[k - 1]);
        }
        if (k - m) % 2 == 1 {
            return (k - m + 1) / 2;
        }
        0
    }

    // The bound of rule x.
    fn bound_of(&self, x: u32) -> i32
        requires { (1 ≤ x) × (self.now.ticket.now.rules ≤ 256) × (self.now.ticket.now.horizon ≤ 1000000) }
        ensures { result ≡ bound_in (lent self.now) x }
    {
        let k = x as usize;
        let m = self.ticket.rules;
        if k <= m {
            return self.ticket.bound[k - 1];
        }
        if (k - m) % 2 == 1 {
            return 0;
        }
        self.ticket.horizon as i32
    }

    // The line of point p.
    fn put_point(&self, out: &mut [u8], at: usize, p: usize) -> usize
        requires { (at + 37 ≤ length out.old) × Pointed (lent self.now) p }
        ensures { Puts (point_line self.now.ticket.now.owners self.now.labels.now self.now.roster.now p) out.old out.new at result }
    {
        if p == 0 {
            return text::put_word(out, at, b"at start\n");
        }
        let i = p - 1;
        let owner = usize::from(self.ticket.owners[i]);
        let label = names::name(self.labels, self.roster, false, i);
        let device = names::name(self.labels, self.roster, true, owner);
        put_event(out, at, label, device)
    }

    // The lines of the rules that are left in a ring, from a point line on.
    #[cycle(point_line_rule_line)]
    fn point_line(&self, out: &mut [u8], at: usize, ring: &[u32]) -> usize
        requires room { at + 53 * length ring.now + 11 ≤ length out.old }
        requires writable { Writable (lent self.now) ring.now }
        ensures { Puts (point_text (lent self.now) ring.now) out.old out.new at result }
    {
        let Some((&x, rest)) = ring.split_first() else {
            return at;
        };
        let next = self.put_point(out, at, self.from_of(x));
        self.rule_line(out, next, x, rest)
    }

    // The same from the line of rule x on.
    #[cycle(point_line_rule_line)]
    fn rule_line(&self, out: &mut [u8], at: usize, x: u32, rest: &[u32]) -> usize
        requires room { at + 53 * length rest.now + 27 ≤ length out.old }
        requires writable { Writable (lent self.now) (x ∷ rest.now) }
        ensures { Puts (rule_text (lent self.now) x (point_text (lent self.now) rest.now)) out.old out.new at result }
    {
        let next = put_rule(out, at, x, self.bound_of(x));
        self.point_line(out, next, rest)
    }
}

// The text of the ring of `count` rules of a valid ticket.
pub fn put_ring<'a>(
    out: &mut [u8],
    t: Ticket,
    ring: &'a [u32; 41],
    count: usize,
    labels: &'a [u8],
    roster: &'a [u8],
) -> usize
    requires valid { Valid (content t) }
    requires ring_len { (length ring.now ≡ 41) × (count ≤ 41) × All (Number (content t)) (take count ring.now) }
    requires t_value { (well_formed labels.now (events (content t)) ≡ true) × (well_formed roster.now 5 ≡ true) }
    requires in_bounds { 2200 ≤ length out.old }
    ensures { Puts (ring_text (content t) labels.now roster.now (take count ring.now))
        out.old out.new 0 result }
{
    let sheet = Sheet {
        ticket: &t,
        labels,
        roster,
    };
    sheet.point_line(out, 0, &ring[..count])
}
