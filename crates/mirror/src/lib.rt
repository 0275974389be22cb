// The mirror of a ticket's struct, and windows turned back: each tick t becomes the horizon minus t.
// The bounds of the mirror are cut at the horizon, so that it is a ticket again where every rule with the start can be kept (specs/Cut).
// Rests on `ticket` for the struct and on `potentials` for windows in arrays.

#![tactic(auto)]

ghost use Rattle.std.specs.Prelude.{◌≡◌, ◌≤◌, ◌<◌, length, pos, get_or};
ghost use Rattle.temporal.specs.Lists.{All};
ghost use Rattle.temporal.specs.Run.{Valid};
ghost use Rattle.network.specs.Stored.{at};
ghost use Rattle.ticket.specs.Writing.{rule_in, content};
ghost use Rattle.potentials.specs.Arrays.{window_list, Within};
ghost use Rattle.demands.specs.Rules.{Tests};
ghost use Rattle.mirror.specs.Mirror.{mirror_windows};
ghost use Rattle.mirror.specs.Cut.{Possible, cut_mirror, cut_mirror_bound};
ghost use Rattle.mirror.specs.Structs.{Bounds, Below};

// Whether ticks from 0 to the horizon can keep rule j with the start, which has tick 0; of a rule between events nothing is asked.
#[tactic(auto, using(crate::proofs::Structs::few_rules))]
fn possible(t: &ticket::Ticket, j: usize) -> bool
    requires valid { Valid (content t.now) }
    requires j_in_bounds { j < t.now.rules }
    ensures { Tests result (Possible t.now.horizon (rule_in t.now j)) }
{
    match (t.from[j], t.to[j]) {
        (0, _) => 0 <= t.bound[j],
        (_, 0) => -(t.horizon as i32) <= t.bound[j],
        _ => true,
    }
}

// Whether every rule is so. Where one is not, there is no schedule.
pub fn all_possible(t: ticket::Ticket) -> bool
    requires { Valid (content t) }
    ensures { Tests result (All (Possible t.horizon) (content t).rules) }
{
    (0..t.rules).all(|j| possible(&t, j))
}

// The bound of the mirror of rule j: from point 0 the horizon less, to point 0 the horizon more and cut at it.
#[tactic(auto, using(crate::proofs::Structs::few_rules))]
fn mirror_bound(t: &ticket::Ticket, j: usize) -> i32
    requires valid { Valid (content t.now) }
    requires j_in_bounds { j < t.now.rules }
    ensures { result ≡ cut_mirror_bound t.now.horizon (at t.now.from j) (at t.now.to j) (get_or t.now.bound j (pos 0)) }
{
    let h = t.horizon as i32;
    match (t.from[j], t.to[j]) {
        (0, _) => t.bound[j] - h,
        (_, 0) => (t.bound[j] + h).min(h),
        _ => t.bound[j],
    }
}

// The bounds of the mirrors of all rules.
#[tactic(auto, using(crate::proofs::Structs::few_rules))]
fn mirror_bounds(t: &ticket::Ticket) -> [i32; 256]
    requires { Valid (content t.now) }
    ensures { Bounds t.now result t.now.rules }
{
    let mut bounds = [0i32; 256];
    for j in 0..t.rules {
        bounds[j] = mirror_bound(t, j);
    }
    bounds
}

// The mirror of a ticket, its bounds cut at the horizon.
pub fn mirror_ticket(t: ticket::Ticket) -> ticket::Ticket
    requires { Valid (content t) }
    ensures { content result ≡ cut_mirror (content t) }
{
    ticket::Ticket {
        from: t.to,
        to: t.from,
        bound: mirror_bounds(&t),
        ..t
    }
}

// Turn the windows of n events back: the close becomes the open, the open the close.
pub fn mirror_windows(horizon: u32, n: usize, opens: &mut [u32; 40], closes: &mut [u32; 40])
    requires n_bound { (n ≤ 40) × (length opens.old ≡ 40) × (length closes.old ≡ 40) }
    requires below { Below horizon n opens.old × Below horizon n closes.old }
    ensures closes_after { window_list n opens.new closes.new ≡ mirror_windows horizon (window_list n opens.old closes.old) }
    ensures within { Within n opens.old opens.new × Within n closes.old closes.new }
{
    for i in 0..n {
        (opens[i], closes[i]) = (horizon - closes[i], horizon - opens[i]);
    }
}
