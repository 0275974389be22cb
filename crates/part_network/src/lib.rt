// The network of one device's part: its points, and the window network that keeps the distances between them.
// The distances come as entries of a closed matrix. The part's point q stands at the ticket's point `points[q]`; an edge is four numbers of the lent slice: tail,
// head, biased cost, flow.
// Rests on `parts` for what a part is, on `closure` for the matrix, and on `network`, `potentials` and `demands` for the edges.

#![tactic(auto)]

ghost use Rattle.std.specs.Prelude.{◌≡◌, List, ℕ, suc, ◌+◌, ◌*◌, ◌-◌, ◌<◌, ◌≤◌, length, replicate};
ghost use Rattle.temporal.specs.Bound.{biased};
ghost use Rattle.network.specs.Stored.{at};
ghost use Rattle.potentials.specs.Pairs.{Nodes, Pairs};
ghost use Rattle.ticket.specs.Writing.{firsts};
ghost use Rattle.demands.specs.Network.{Built};
ghost use Rattle.closure.specs.Signed.{lower};
ghost use Rattle.closure.specs.Matrix.{entry};
ghost use Rattle.parts.specs.Part.{joined, rule_between, all_rules};
ghost use Rattle.part_network.specs.Points.{Placed, added};
ghost use Rattle.part_network.specs.Lay.{Ranged, bound_in, Lays};
ghost use Rattle.part_network.specs.Dense.{dense};

// An event that the device owns is the part's next point. How many events the part has then.
fn add_member(points: &mut [usize; 41], m: usize, event: usize, owner: u8, device: u8) -> usize
    requires { (length points.old ≡ 41) × (m < 40) }
    ensures { (points.new, result) ≡ added points.old m event owner device }
{
    if owner == device {
        points[m + 1] = event;
        return m + 1;
    }
    m
}

// The points of the device's part: the session start, and its events, rising. How many events there are.
pub fn members(n: usize, owners: &[u8; 40], device: u8, points: &mut [usize; 41]) -> usize
    requires { (n ≤ 40) × (length points.old ≡ 41) × (at points.old 0 ≡ 0) }
    ensures { Placed device (firsts n (at owners.now)) points.new result }
{
    let mut m = 0;
    for i in 0..n {
        m = add_member(points, m, i + 1, owners[i], device);
    }
    m
}

// The distances between the points of a part of n events.
#[derive(Clone, Copy)]
struct Distances<'a> {
    n: usize,
    points: &'a [usize; 41],
    w: &'a [u64; 1681],
    ghost few: { n ≤ 40 },
    ghost ranged: { Ranged n points.now w.now },
}

impl<'a> Distances<'a> {
    // The biased cost of the distance from point i to point j.
    fn cost(&self, i: usize, j: usize) -> u32
        requires { (i ≤ self.now.n) × (j ≤ self.now.n) }
        ensures { result ≡ biased (bound_in self.now.points.now self.now.w.now i j) }
    {
        (self.w[41 * self.points[i] + self.points[j]] - 1_000_000) as u32
    }

    // Store the distance from point i to point j as edge e; none from a point to itself. Which edge is next.
    fn put_one(&self, net: &mut [u32], e: usize, i: usize, j: usize) -> usize
        requires { (i ≤ self.now.n) × (j ≤ self.now.n) × (4 * e + 3 < length net.old) × (e < 4000) }
        ensures { Lays net.old net.new self.now.n e (rule_between (bound_in self.now.points.now self.now.w.now) i j) result }
    {
        if i == j {
            return e;
        }
        network::put(net, e, i, demands::close_node(self.n, j), self.cost(i, j));
        e + 1
    }

    // Store the distances from point i, from edge e on. Which edge is next.
    fn put_row(&self, net: &mut [u32], e: usize, i: usize) -> usize
        requires { (i ≤ self.now.n) × (4 * e + 164 ≤ length net.old) × (e < 3900) }
        ensures { Lays net.old net.new self.now.n e (joined (suc self.now.n) (rule_between (bound_in self.now.points.now self.now.w.now) i)) result }
    {
        let mut next = e;
        for j in 0..=self.n {
            next = self.put_one(net, next, i, j);
        }
        next
    }

    // Store all distances, from edge e on. Which edge is next.
    fn put_all(&self, net: &mut [u32], e: usize) -> usize
        requires { (e ≤ 200) × (7364 ≤ length net.old) }
        ensures { Lays net.old net.new self.now.n e (all_rules self.now.n (bound_in self.now.points.now self.now.w.now)) result }
    {
        let mut next = e;
        for i in 0..=self.n {
            next = self.put_row(net, next, i);
        }
        next
    }
}

// Store the window network of the part: boxes from 0 to the horizon, the order of each window, and the distances. How many edges it has.
pub fn build(
    net: &mut [u32],
    horizon: u32,
    n: usize,
    points: &[usize; 41],
    w: &[u64; 1681],
) -> usize
    requires n_bound { (n ≤ 40) × (horizon ≤ 1000000) × (7364 ≤ length net.old) }
    requires ranged { Ranged n points.now w.now }
    ensures value { result ≡ 5 * n + length (all_rules n (bound_in points.now w.now)) }
    ensures net_len_unchanged { length net.new ≡ length net.old }
    ensures by_index { (owners : List ℕ)
        → Built net.new (dense horizon n owners (all_rules n (bound_in points.now w.now))) (at (replicate 81 0)) (at (replicate 81 horizon)) }
{
    let low = [0u32; 81];
    let high = [horizon; 81];
    network::boxes(net, 2 * n, &low, &high);
    demands::order(net, n);
    Distances { n, points, w }.put_all(net, 5 * n)
}

// The earliest time of each event of the part, as a window that opens and closes then.
pub fn lay_earliest(n: usize, points: &[usize; 41], w: &[u64; 1681], pot: &mut [u32; 81])
    requires n_bound { n ≤ 40 }
    requires nodes { Nodes pot.old }
    requires by_index { (q : ℕ) → q ≤ n → (at points.now q ≤ 40) × (entry w.now (at points.now q) 0 ≤ 2000000) }
    ensures { Pairs n (λ (i : ℕ). 2000000 - entry w.now (at points.now (suc i)) 0) (λ (i : ℕ). 2000000 - entry w.now (at points.now (suc i)) 0)
        pot.new n }
{
    for i in 0..n {
        let x = (2_000_000 - w[41 * points[i + 1]]) as u32;
        pot[i + 1] = x;
        pot[n + i + 1] = x;
    }
}
