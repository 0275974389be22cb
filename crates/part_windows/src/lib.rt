// One device's part of a ticket's struct: its events, the windows of its plan, and its total; and the totals of all five.
// Rests on `parts` for what a part is, on `schedule` for whether there is a schedule, on `stops` and `closure` for the distances, on `part_network` for the network
// that keeps them, on `windows` and `flow` for the widest windows, and on `fitness` for their total.

#![tactic(auto)]

ghost use Rattle.std.specs.Prelude.{◌≡◌, true, false, MatchOption, ℕ, ◌+◌, ◌*◌, ◌<◌, ◌≤◌, T, length, replicate};
ghost use Rattle.temporal.specs.Distance.{consistent};
ghost use Rattle.temporal.specs.Run.{Valid};
ghost use Rattle.network.specs.Stored.{at};
ghost use Rattle.network.specs.Grow.{Flowless};
ghost use Rattle.flow.specs.Solve.{Spans};
ghost use Rattle.ticket.specs.Writing.{content};
ghost use Rattle.potentials.specs.Arrays.{window_list};
ghost use Rattle.windows.specs.Widest.{Widened};
ghost use Rattle.closure.specs.Matrix.{entry};
ghost use Rattle.parts.specs.Part.{part_plan, part_totals};
ghost use Rattle.part_windows.specs.Entries.{Distances};
ghost use Rattle.part_windows.specs.Planned.{GivenPart, IsPart};

use ticket::Ticket;

// The distances of a ticket: the entries of its matrix after all stops, if it has a schedule. That is tested first, so that no stop has to be looked at.
fn close(t: Ticket) -> Option<[u64; 1681]>
    requires { Valid (content t) }
    ensures { MatchOption result (consistent (content t) ≡ false)
        (λ w. (consistent (content t) ≡ true) × Distances (content t) t.events (entry w)) }
{
    // room for the edges of a ticket's rules and limits
    let mut net = [0u32; 1344];
    let mut times = [0u32; 81];
    if !schedule::schedule(&mut net, &t, &mut times) {
        return None;
    }
    let n = t.events;
    let mut entries = stops::first_entries(t);
    closure::take_stops(&mut entries, n, n + 1);
    Some(entries)
}

// From a potential that keeps the network to the widest one that is least, each event with the weight of the device.
// Its lists are longer than those of `windows::widest`. One function for both would have their length as a const parameter, and `tools/arrays` could not read off the
// code that planning has no array above 400.
fn widest(net: &mut [u32], n: usize, m: usize, device: u8, pot: &mut [u32; 81])
    requires n_bound { (n ≤ 40) × (m ≤ 4 * n + 1680) }
    requires flowless { Flowless net.old m (2 * n + 1) pot.old }
    requires spans { Spans net.old m n }
    ensures { Widened net.old m n (replicate 40 device) pot.new }
{
    // lists of the edges of the largest part that are no box edges
    let mut tails = [0u32; 1761];
    let mut heads = [0u32; 1761];
    let mut weight = [0u32; 81];
    let owners = [device; 40];
    windows::weigh(n, &owners, &mut weight);
    flow::solve(net, m, n, &mut tails, &mut heads, pot, &weight);
}

// The windows of the plan of the part that has these points.
fn plan_points(
    t: Ticket,
    device: u8,
    n: usize,
    points: &[usize; 41],
    w: &[u64; 1681],
    opens: &mut [u32; 40],
    closes: &mut [u32; 40],
)
    requires given_part { GivenPart t device n points.now w.now }
    requires opens_len { (length opens.old ≡ 40) × (length closes.old ≡ 40) }
    ensures { window_list n opens.new closes.new ≡ part_plan device (content t) }
{
    // room for the edges of the largest part, 200 of its windows and 1,640 distances, and for one more
    let mut net = [0u32; 7364];
    let mut pot = [0u32; 81];
    let m = part_network::build(&mut net, t.horizon, n, points, w);
    part_network::lay_earliest(n, points, w, &mut pot);
    widest(&mut net, n, m, device, &mut pot);
    potentials::read_windows(n, &pot, opens, closes);
}

// A part of a ticket that has a schedule: how many events it has, their numbers from place 1 on, the windows of its plan, and their total.
#[derive(Clone, Copy)]
pub struct Part {
    pub events: usize,
    pub points: [usize; 41],
    pub opens: [u32; 40],
    pub closes: [u32; 40],
    pub total: u32,
}

// The device's part of a ticket with these distances.
fn part_of(t: Ticket, device: u8, w: &[u64; 1681]) -> Part
    requires { Valid (content t) × T (consistent (content t)) × Distances (content t) t.events (entry w.now) }
    ensures { IsPart device (content t) result }
{
    let owners = t.owners;
    let mut points = [0usize; 41];
    let events = part_network::members(t.events, &owners, device, &mut points);
    let mut opens = [0u32; 40];
    let mut closes = [0u32; 40];
    plan_points(t, device, events, &points, w, &mut opens, &mut closes);
    let own = [device; 40];
    let total = fitness::total_of(events, &own, &opens, &closes);
    Part {
        events,
        points,
        opens,
        closes,
        total,
    }
}

// The device's part of a ticket, if it has a schedule.
pub fn plan_part(t: Ticket, device: u8) -> Option<Part>
    requires { Valid (content t) }
    ensures { MatchOption result (consistent (content t) ≡ false)
        (λ p. (consistent (content t) ≡ true) × IsPart device (content t) p) }
{
    let entries = close(t)?;
    Some(part_of(t, device, &entries))
}

// The totals of the five parts of a ticket that has a schedule, in owner order.
pub fn totals(t: Ticket) -> [u32; ticket::DEVICES]
    requires { Valid (content t) × T (consistent (content t)) }
    ensures { result ≡ part_totals (content t) }
{
    let entries = close(t).unwrap();
    let camera = part_of(t, 0, &entries);
    let wheel = part_of(t, 1, &entries);
    let lamps = part_of(t, 2, &entries);
    let stage = part_of(t, 3, &entries);
    let database = part_of(t, 4, &entries);
    [
        camera.total,
        wheel.total,
        lamps.total,
        stage.total,
        database.total,
    ]
}
