// Planning and commitment on a ticket's struct: the best windows, by a network of opens and closes.
// Event i + 1 has the places i of the arrays. An edge is four numbers of the lent slice: tail, head, biased cost, flow.
// The slice and the arrays are lent one by one: for a struct that held them each contract would have to say that its references are still those that were lent.
// Rests on `ticket` for the struct, on `potentials` and `demands` for the network, on `schedule` for where to start, on `flow` for the widest windows, and on `fitness` for the law of their total.

#![tactic(auto)]

ghost use Rattle.std.specs.Prelude.{◌≡◌, true, ◌+◌, ◌*◌, ◌≤◌, length, replicate};
ghost use Rattle.temporal.specs.Ends.{Ends};
ghost use Rattle.temporal.specs.Best.{Chosen};
ghost use Rattle.temporal.specs.FitSets.{Grows};
ghost use Rattle.temporal.specs.Run.{Valid};
ghost use Rattle.network.specs.Stored.{at};
ghost use Rattle.network.specs.Grow.{Flowless};
ghost use Rattle.flow.specs.Solve.{Spans};
ghost use Rattle.ticket.specs.Writing.{content};
ghost use Rattle.potentials.specs.Arrays.{window_list, flag_list, Given, Within};
ghost use Rattle.windows.specs.Promises.{Workspace, Planned, Committed};
ghost use Rattle.windows.specs.Boxes.{Allowed};
ghost use Rattle.windows.specs.Weights.{Weighs};
ghost use Rattle.windows.specs.Widest.{Widened};
ghost use Rattle.schedule.specs.Schedule.{Decided};
ghost use Rattle.windows.specs.Settle.{StartsWithin, Asked};

// The weights of the events, each that of its owner.
pub fn weigh(n: usize, owners: &[u8; 40], weight: &mut [u32; 81])
    requires n_bound { n ≤ 40 }
    requires weighs { Weighs owners.now weight.old 0 }
    ensures { Weighs owners.now weight.new n }
{
    for i in 0..n {
        weight[i + 1] = temporal::weight(owners[i]);
    }
}

// From a potential that keeps the network to the widest one that is least, each event with the weight of its owner.
fn widest(net: &mut [u32], n: usize, m: usize, owners: &[u8; 40], pot: &mut [u32; 81])
    requires n_bound { (n ≤ 40) × (m ≤ 4 * n + 319) }
    requires flowless { Flowless net.old m (2 * n + 1) pot.old }
    requires spans { Spans net.old m n }
    ensures widened { Widened net.old m n owners.now pot.new }
    ensures net_len_unchanged { length net.new ≡ length net.old }
{
    let mut weight = [0u32; 81];
    weigh(n, owners, &mut weight);
    let mut tails = [0u32; 400];
    let mut heads = [0u32; 400];
    flow::solve(net, m, n, &mut tails, &mut heads, pot, &weight);
}

// From a potential within the boxes to the best windows within them.
fn settle(
    net: &mut [u32],
    t: &ticket::Ticket,
    low: &[u32; 81],
    high: &[u32; 81],
    pot: &mut [u32; 81],
    opens: &mut [u32; 40],
    closes: &mut [u32; 40],
)
    requires given { Given t.now }
    requires workspace { Workspace t.now net.old opens.old closes.old }
    requires starts_within { StartsWithin t.now (at low.now) (at high.now) pot.old }
    ensures chosen { Chosen (content t.now) (Allowed t.now (at low.now) (at high.now)) (window_list t.now.events opens.new closes.new) }
    ensures within { Within t.now.events opens.old opens.new × Within t.now.events closes.old closes.new }
    ensures net_len_unchanged { length net.new ≡ length net.old }
{
    let n = t.events;
    demands::build(net, *t, low, high);
    widest(net, n, 5 * n + t.rules, &t.owners, pot);
    potentials::read_windows(n, pot, opens, closes);
}

// From the times of a schedule to the windows of the plan.
fn place(
    net: &mut [u32],
    t: &ticket::Ticket,
    pot: &mut [u32; 81],
    opens: &mut [u32; 40],
    closes: &mut [u32; 40],
)
    requires given { Given t.now }
    requires workspace { Workspace t.now net.old opens.old closes.old }
    requires decided { Decided t.now pot.old true }
    ensures chosen { Chosen (content t.now) (Allowed t.now (at (replicate 81 0)) (at (replicate 81 t.now.horizon))) (window_list t.now.events opens.new closes.new) }
    ensures within { Within t.now.events opens.old opens.new × Within t.now.events closes.old closes.new }
    ensures net_len_unchanged { length net.new ≡ length net.old }
{
    let low = [0u32; 81];
    let high = [t.horizon; 81];
    potentials::spread(t.events, pot);
    settle(net, t, &low, &high, pot, opens, closes);
}

// The windows of the plan; false where there is no schedule.
#[tactic(auto, using(potentials::specs::Arrays::valid_given))]
pub fn plan_windows(
    net: &mut [u32],
    t: ticket::Ticket,
    opens: &mut [u32; 40],
    closes: &mut [u32; 40],
) -> bool
    requires valid { Valid (content t) }
    requires workspace { Workspace t net.old opens.old closes.old }
    ensures planned { Planned t opens.old closes.old opens.new closes.new result }
    ensures net_len_unchanged { length net.new ≡ length net.old }
{
    let mut pot = [0u32; 81];
    if !schedule::schedule(net, &t, &mut pot) {
        return false;
    }
    place(net, &t, &mut pot, opens, closes);
    true
}

// From fit windows to the best of those that keep the committed ones and contain the others.
fn widen(
    net: &mut [u32],
    t: &ticket::Ticket,
    flags: &[u8; 40],
    opens: &mut [u32; 40],
    closes: &mut [u32; 40],
)
    requires given { Given t.now }
    requires workspace { Workspace t.now net.old opens.old closes.old }
    requires ends { Ends (content t.now) (window_list t.now.events opens.old closes.old) }
    ensures chosen { Chosen (content t.now) (Grows (content t.now) (flag_list t.now.events flags.now) (window_list t.now.events opens.old closes.old))
        (window_list t.now.events opens.new closes.new) }
    ensures within { Within t.now.events opens.old opens.new × Within t.now.events closes.old closes.new }
    ensures net_len_unchanged { length net.new ≡ length net.old }
{
    let mut pot = [0u32; 81];
    potentials::lay(t.events, opens, closes, &mut pot);
    let mut low = pot;
    let mut high = pot;
    potentials::limits(t.horizon, t.events, flags, &mut low, &mut high);
    settle(net, t, &low, &high, &mut pot, opens, closes);
}

// Commit an event to the window from first to last, and widen the windows of the events that are not committed.
#[tactic(auto, using(potentials::specs::Arrays::valid_given, crate::specs::Settle::asked_event))]
pub fn commit_window(
    net: &mut [u32],
    t: ticket::Ticket,
    flags: &mut [u8; 40],
    opens: &mut [u32; 40],
    closes: &mut [u32; 40],
    event: usize,
    first: u32,
    last: u32,
)
    requires workspace { Workspace t net.old opens.old closes.old }
    requires asked { Asked t flags.old opens.old closes.old event first last }
    ensures committed { Committed t flags.old opens.old closes.old flags.new opens.new closes.new event first last }
    ensures net_len_unchanged { length net.new ≡ length net.old }
{
    let i = event - 1;
    flags[i] = 1;
    opens[i] = first;
    closes[i] = last;
    widen(net, &t, flags, opens, closes);
}
