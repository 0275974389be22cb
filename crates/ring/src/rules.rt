// The rules of a ticket, written and unwritten, by their numbers.
// Rests on `ticket` for the struct, and on `demands` for the cost of a bound.

ghost use Rattle.std.specs.Prelude.{◌≡◌, ◌+◌, ◌≤◌, ◌<◌, set};
ghost use Rattle.temporal.specs.Run.{Valid};
ghost use Rattle.ticket.specs.Writing.{content};
ghost use Rattle.ring.specs.Stored.{Small};

use network::BIAS;
use ticket::Ticket;

// The points that a rule goes from and to, and its cost: its bound plus BIAS, so nothing is negative.
#[derive(Clone, Copy)]
pub(crate) struct Rule {
    pub(crate) from: u8,
    pub(crate) to: u8,
    pub(crate) cost: u32,
}

// The numbers 1 to `count` are those of the rules. Place 0 is not used, and the places past them are for "no rule". There is no heap, so it is an array with its
// count.
#[derive(Drop)]
pub(crate) struct Rules {
    pub(crate) count: usize,
    pub(crate) list: [Rule; 338],
    ghost few: { count ≤ 336 },
    ghost small: { Small list },
}

impl Rules {
    ghost use Rattle.ring.specs.Places.{Whole};

    // Add a rule.
    fn push(&mut self, from: u8, to: u8, cost: u32)
        requires room { self.old.count < 336 }
        requires small { (from ≤ 40) × (to ≤ 40) × (cost ≤ 2000000) }
        ensures count_after { self.new.count ≡ self.old.count + 1 }
        ensures list_after { self.new.list ≡ set self.old.list (self.old.count + 1) (record { from = from; to = to; cost = cost }) }
    {
        self.count += 1;
        self.list[self.count] = Rule { from, to, cost };
    }

    // The rules of a ticket: those written, and two unwritten ones for each event.
    #[tactic(auto, using(ticket::proofs::Content::limits))]
    pub(crate) fn of(t: &Ticket) -> Self
        requires { Valid (content t.now) }
        ensures { Whole (content t.now) result }
    {
        let no_rule = Rule {
            from: 0,
            to: 0,
            cost: 0,
        };
        let mut rules = Rules {
            count: 0,
            list: [no_rule; 338],
        };
        for j in 0..t.rules {
            rules.push(t.from[j], t.to[j], demands::cost(t.bound[j]));
        }
        for i in 1..=t.events as u8 {
            rules.push(i, 0, BIAS);
            rules.push(0, i, BIAS + t.horizon);
        }
        rules
    }
}
