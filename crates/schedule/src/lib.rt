// A schedule of a ticket's struct, where there is one: by relaxation, else by a network of the points that grows rule by rule.
// Rests on `ticket` for the struct, on `demands` for the rules, on `network` for the edges, and on `admit` for adding one more.

#![tactic(auto)]

ghost use Rattle.std.specs.Prelude.{◌≡◌, true, ◌+◌, ◌*◌, ◌<◌, ◌≤◌, pos, length, get_or};
ghost use Rattle.temporal.specs.Bound.{biased};
ghost use Rattle.network.specs.Stored.{at};
ghost use Rattle.network.specs.Grow.{Growing};
ghost use Rattle.admit.specs.Admit.{Admits};
ghost use Rattle.potentials.specs.Arrays.{Given};
ghost use Rattle.demands.specs.Rules.{SmallRule};
ghost use Rattle.schedule.specs.Schedule.{Low, Tried, Decided};
ghost use Rattle.schedule.specs.Relax.{HoldFrom, Raised};

use network::BIAS;

// What raising for a rule did: the rule held, a time was raised, or it cannot be raised so far.
#[derive(Clone, Copy, PartialEq, Eq)]
enum Step {
    Kept,
    Raised,
    Stuck,
}

// Raise the time of rule j's `from` to what the rule asks.
#[tactic(auto, using(potentials::specs::Nodes::close_self))]
fn raise(times: &mut [u32; 81], t: &ticket::Ticket, j: usize) -> Step
    requires given { Given t.now }
    requires j_in_bounds { j < t.now.rules }
    requires low { Low t.now.events t.now.horizon times.old }
    ensures low_2 { Low t.now.events t.now.horizon times.new }
    ensures raised { Raised t.now j times.old times.new result }
{
    let from = usize::from(t.from[j]);
    let cost = demands::cost(t.bound[j]);
    let asked = times[usize::from(t.to[j])] + BIAS;
    if asked <= times[from] + cost {
        return Step::Kept;
    }
    if from == 0 || t.horizon < asked - cost {
        return Step::Stuck;
    }
    times[from] = asked - cost;
    Step::Raised
}

// Raise the times, rule by rule and round after round, until all rules hold, which the answer 0 says, or one cannot be kept. The rules from the answer on hold.
// A round that raises nothing ends where the rules hold from before. A schedule takes a round for each point and one more.
fn relax(t: &ticket::Ticket, times: &mut [u32; 81]) -> usize
    requires given { Given t.now }
    requires low { Low t.now.events t.now.horizon times.old }
    ensures low_2 { Low t.now.events t.now.horizon times.new }
    ensures hold_from { HoldFrom t.now times.new result }
{
    let mut kept = t.rules;
    for _ in 0..42 {
        let mut last = 0;
        for j in 0..t.rules {
            if last == 0 && j == kept {
                return 0;
            }
            match raise(times, t, j) {
                Step::Kept => {}
                Step::Raised => last = j + 1,
                Step::Stuck => return t.rules,
            }
        }
        if last == 0 {
            return 0;
        }
        kept = last;
    }
    kept
}

// Add a rule to the network of the points, after j others, with the times moved as need be. Whether it can be kept.
pub fn admit_rule(
    net: &mut [u32],
    n: usize,
    j: usize,
    tails: &mut [u32],
    heads: &mut [u32],
    times: &mut [u32; 81],
    from: u8,
    to: u8,
    bound: i32,
) -> bool
    requires growing { Growing net.old (2 * n + j) (n + 1) times.old tails.old heads.old }
    requires small_rule { SmallRule n from to bound }
    requires n_bound { (n ≤ 40) × (j < 256) × (4 * (2 * n + j) + 3 < length net.old) }
    requires j_in_bounds { (81 + j < length tails.old) × (81 + j < length heads.old) }
    ensures { Admits net.old net.new (2 * n + j) (n + 1) times.new tails.new heads.new from to (biased bound) result }
{
    admit::admit(
        net,
        2 * n + j,
        n + 1,
        tails,
        heads,
        times,
        usize::from(from),
        usize::from(to),
        demands::cost(bound),
    )
}

// The same for rule j of a ticket.
pub fn admit_rule_of(
    net: &mut [u32],
    t: &ticket::Ticket,
    j: usize,
    kept: usize,
    tails: &mut [u32],
    heads: &mut [u32],
    times: &mut [u32; 81],
) -> bool
    requires growing { Growing net.old (2 * t.now.events + kept) (t.now.events + 1) times.old tails.old heads.old }
    requires small_rule { (j < 256) × SmallRule t.now.events (at t.now.from j) (at t.now.to j) (get_or t.now.bound j (pos 0)) }
    requires n_bound { (t.now.events ≤ 40) × (kept < 256) × (4 * (2 * t.now.events + kept) + 3 < length net.old) }
    requires j_in_bounds { (81 + kept < length tails.old) × (81 + kept < length heads.old) }
    ensures { Admits net.old net.new (2 * t.now.events + kept) (t.now.events + 1) times.new tails.new heads.new
        (at t.now.from j) (at t.now.to j) (biased (get_or t.now.bound j (pos 0))) result }
{
    admit_rule(
        net, t.events, kept, tails, heads, times, t.from[j], t.to[j], t.bound[j],
    )
}

// Add the rules to the network of the points, one after the other, until one cannot be kept.
fn admit_rules(
    net: &mut [u32],
    t: &ticket::Ticket,
    tails: &mut [u32],
    heads: &mut [u32],
    times: &mut [u32; 81],
) -> bool
    requires given { Given t.now }
    requires rules_in_bounds { 8 * t.now.events + 4 * t.now.rules ≤ length net.old }
    requires tried { Tried net.old (length net.old) t.now times.old tails.old heads.old 0 }
    requires rules_in_bounds_2 { (81 + t.now.rules ≤ length tails.old) × (81 + t.now.rules ≤ length heads.old) }
    ensures decided { Decided t.now times.new result }
    ensures net_len_unchanged { length net.new ≡ length net.old }
{
    for j in 0..t.rules {
        if !admit_rule_of(net, t, j, j, tails, heads, times) {
            return false;
        }
    }
    true
}

// From any times within the horizon to those of a schedule, where there is one: the rules are added one after the other.
fn search(net: &mut [u32], t: &ticket::Ticket, times: &mut [u32; 81]) -> bool
    requires given { Given t.now }
    requires rules_in_bounds { 8 * t.now.events + 4 * t.now.rules ≤ length net.old }
    requires low { Low t.now.events t.now.horizon times.old }
    ensures decided { Decided t.now times.new result }
    ensures net_len_unchanged { length net.new ≡ length net.old }
{
    let low = [0u32; 81];
    let high = [t.horizon; 81];
    network::boxes(net, t.events, &low, &high);
    let mut tails = [0u32; 400];
    let mut heads = [0u32; 400];
    admit_rules(net, t, &mut tails, &mut heads, times)
}

// The times of a schedule, where there is one.
pub fn schedule(net: &mut [u32], t: &ticket::Ticket, times: &mut [u32; 81]) -> bool
    requires given { Given t.now }
    requires rules_in_bounds { 8 * t.now.events + 4 * t.now.rules ≤ length net.old }
    requires low { Low t.now.events t.now.horizon times.old }
    ensures decided { Decided t.now times.new result }
    ensures net_len_unchanged { length net.new ≡ length net.old }
{
    relax(t, times) == 0 || search(net, t, times)
}
