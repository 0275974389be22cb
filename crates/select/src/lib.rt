// The selection among a ticket's rules, on the struct: each rule is kept that can be kept with those kept before it, and the others are dropped.
// The promise of `mend_ticket` is an equation with the mended ticket and the dropped numbers that crate `mending` defines (specs/Selection).
// Rests on `network` for the limits of the points, and on `schedule` for adding one rule.

#![tactic(auto)]

ghost use Rattle.std.specs.Prelude.{◌≡◌, ◌+◌, ◌*◌, ◌<◌, ◌≤◌, [], length};
ghost use Rattle.temporal.specs.Run.{Valid};
ghost use Rattle.network.specs.Stored.{at};
ghost use Rattle.ticket.specs.Writing.{firsts, content};
ghost use Rattle.potentials.specs.Arrays.{Given};
ghost use Rattle.schedule.specs.Schedule.{Tried};
ghost use Rattle.mending.specs.Selection.{mended, dropped};
ghost use Rattle.select.specs.Selecting.{kept_struct, keeps, lists};

use ticket::Ticket;

// The mended ticket, and the numbers of the dropped rules, of which the first `dropped` count. The library has no heap, so they stand in an array.
#[derive(Drop)]
pub struct Mended {
    pub ticket: Ticket,
    pub dropped: usize,
    pub numbers: [usize; 256],
}

impl Mended {
    // Keep rule j of t.
    fn keep(&mut self, t: &Ticket, j: usize)
        requires { (self.old.ticket.rules < 256) × (j < 256) }
        ensures { self.new ≡ keeps self.old t.now j }
    {
        let kept = self.ticket.rules;
        self.ticket.from[kept] = t.from[j];
        self.ticket.to[kept] = t.to[j];
        self.ticket.bound[kept] = t.bound[j];
        self.ticket.rules += 1;
    }

    // List the number of a rule that is dropped.
    fn list(&mut self, number: usize)
        requires { self.old.dropped < 256 }
        ensures { self.new ≡ lists self.old number }
    {
        self.numbers[self.dropped] = number;
        self.dropped += 1;
    }
}

// Take the rules in ticket order, from a network that has the limits of the points.
fn select(
    net: &mut [u32],
    t: &Ticket,
    tails: &mut [u32],
    heads: &mut [u32],
    times: &mut [u32; 81],
) -> Mended
    requires given { Given t.now }
    requires valid { Valid (content t.now) × (8 * t.now.events + 4 * t.now.rules ≤ length net.old) }
    requires tried { Tried net.old (length net.old) (kept_struct t.now []) times.old tails.old heads.old 0 }
    requires rules_in_bounds { (81 + t.now.rules ≤ length tails.old) × (81 + t.now.rules ≤ length heads.old) }
    ensures ticket_value { content result.ticket ≡ mended (content t.now) }
    ensures numbers_value { firsts result.dropped (at result.numbers) ≡ dropped (content t.now) }
{
    let mut mended = Mended {
        ticket: Ticket {
            rules: 0,
            from: [0; 256],
            to: [0; 256],
            bound: [0; 256],
            ..*t
        },
        dropped: 0,
        numbers: [0; 256],
    };
    for j in 0..t.rules {
        let kept = mended.ticket.rules;
        if schedule::admit_rule_of(net, t, j, kept, tails, heads, times) {
            mended.keep(t, j);
        } else {
            mended.list(j + 1);
        }
    }
    mended
}

// The ticket with the kept rules, and the numbers of the dropped ones.
pub fn mend_ticket(t: Ticket) -> Mended
    requires { Valid (content t) }
    ensures ticket_value { content result.ticket ≡ mended (content t) }
    ensures numbers_value { firsts result.dropped (at result.numbers) ≡ dropped (content t) }
{
    let mut net = [0u32; 1344];
    let low = [0u32; 81];
    let high = [t.horizon; 81];
    network::boxes(&mut net, t.events, &low, &high);
    let mut tails = [0u32; 400];
    let mut heads = [0u32; 400];
    let mut times = [0u32; 81];
    select(&mut net, &t, &mut tails, &mut heads, &mut times)
}
