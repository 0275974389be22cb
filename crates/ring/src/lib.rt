// The ring of rules that says why a ticket has no schedule: found from the least costs of walks, root by root, and then rule by rule.
// The rules stand in rules.rt, the table of a root in walks.rt. Rests on `ticket` for the struct, on `demands` for the cost of a bound, and on `rings`, which
// says what the ring is and why the search finds it.

#![tactic(auto)]

ghost use Rattle.std.specs.Prelude.{◌≡◌, ℕ, ◌+◌, ◌≤◌, T};
ghost use Rattle.temporal.specs.Run.{Valid};
ghost use Rattle.ticket.specs.Writing.{content};
ghost use Rattle.rings.specs.Ring as theory;
ghost use Rattle.ring.specs.FirstOr.{FirstOr};
ghost use Rattle.ring.specs.WalkTable.{WalkTable, Ready, Round};
ghost use Rattle.ring.specs.Answer.{printed};
ghost use Rattle.ring.specs.Search.{opens, Begins, Joins, Follows};

use network::BIAS;
use rules::Rules;
use ticket::Ticket;
use walks::Walks;

mod rules;
mod walks;

// The numbers of the ring's rules, with 0 in the places past them. There is no heap, so it is an array with its count.
#[derive(Drop)]
pub struct Found {
    pub count: usize,
    pub rules: [u32; 41],
}

// How the ring starts, by the roots tried so far: the fewest rules, n + 2 if there is no ring, and the lowest rule from one of them that can be the first.
// An Option would take these two numbers all the same, as the bounds that the first root is searched below.
#[derive(Drop)]
struct Start {
    count: usize,
    first: usize,
}

impl Rules {
    // ---- the least costs of walks to one root

    // Fill the row behind row r: one round over the rules.
    fn round(&self, w: &mut Walks, r: usize)
        requires ready { Ready r w.old.costs }
        requires r_bound { r ≤ 40 }
        ensures { Round self.now r self.now.count w.old.costs w.new.costs }
    {
        for e in 1..=self.count {
            let rule = self.list[e];
            let cost = rule.cost + w.at(r, rule.to);
            w.lower(r + 1, rule.from, cost);
        }
    }

    // Fill the table of root q, up to row `last`.
    fn walks_to(&self, w: &mut Walks, q: u8, last: usize)
        requires { (q ≤ 40) × (last ≤ 41) }
        ensures { WalkTable self.now q last w.new.costs }
    {
        w.clear();
        w.lower(0, q, 0);
        for r in 0..last {
            self.round(w, r);
        }
    }

    // The first rule below `end` that can be taken at point p after cost s, with r rules behind it; `end` if there is none.
    // With an Option `follow` would need a branch that no ticket reaches.
    fn pick(&self, w: &Walks, r: usize, s: u32, limit: u32, p: u8, end: usize) -> usize
        requires { (r ≤ 41) × (s ≤ 100000000) × (1 ≤ end) × (end ≤ 338) }
        ensures { FirstOr (λ x. T (opens self.now w.now.costs r s limit p x)) end result }
    {
        for e in 1..end {
            let rule = self.list[e];
            if rule.from == p && s + rule.cost + w.at(r, rule.to) < limit {
                return e;
            }
        }
        end
    }

    // ---- the ring

    // The start, with root q tried too. Where a ring through q has fewer rules, it goes through none of the roots before it, so no rule from there is its first.
    fn through(&self, w: &mut Walks, q: u8, start: Start) -> Start
        requires { (q ≤ 40) × (1 ≤ start.count) × (start.count ≤ 42) × (1 ≤ start.first) × (start.first ≤ self.now.count + 1) }
        ensures { Joins self.now q start result }
    {
        let best = start.count;
        self.walks_to(w, q, best - 1);
        let count = w.nearer(q, best);
        let end = if count < best {
            self.count + 1
        } else {
            start.first
        };
        let limit = (count as u32) * BIAS;
        let first = self.pick(w, count - 1, 0, limit, q, end);
        Start { count, first }
    }

    // The start, tried root by root, in one pass.
    fn beginning(&self, w: &mut Walks, n: usize) -> Start
        requires { n ≤ 40 }
        ensures { Begins n self.now (n + 1) result }
    {
        let mut start = Start {
            count: n + 2,
            first: self.count + 1,
        };
        for q in 0..=n as u8 {
            start = self.through(w, q, start);
        }
        start
    }

    // The rules of the ring: the first, and then each the lowest number with which the ring can still be closed. The table is that of its root.
    fn follow(&self, w: &Walks, first: usize, count: usize) -> [u32; 41]
        requires { (first ≤ self.now.count + 1) × (1 ≤ count) × (count ≤ 41) }
        ensures { Follows self.now w.now.costs first count result }
    {
        let limit = (count as u32) * BIAS;
        let mut out = [0; 41];
        out[0] = first as u32;
        let mut rule = self.list[first];
        let mut s = rule.cost;
        for i in 1..count {
            let e = self.pick(w, count - 1 - i, s, limit, rule.to, self.count + 1);
            out[i] = e as u32;
            rule = self.list[e];
            s += rule.cost;
        }
        out
    }
}

// The ring of rules of a valid ticket that is printed, where it has no schedule.
#[tactic(auto, using(ticket::proofs::Content::limits))]
pub fn ring(t: Ticket) -> Option<Found>
    requires { Valid (content t) }
    ensures { result ≡ printed (theory.ring (content t)) }
{
    let n = t.events;
    let rules = Rules::of(&t);
    let mut w = Walks::none();
    let Start { count, first } = rules.beginning(&mut w, n);
    if n + 1 < count {
        return None;
    }
    rules.walks_to(&mut w, rules.list[first].from, count - 1);
    let rules = rules.follow(&w, first, count);
    Some(Found { count, rules })
}
