// The rules of a ticket's struct as demands on nodes: whether times keep them, and the window network that asks for them.
// An edge is four numbers of the lent slice: tail, head, biased cost, flow.
// Rests on `ticket` for the struct, on `potentials` for the nodes, and on `network` for the edges.

#![tactic(auto)]

ghost use Rattle.std.specs.Prelude.{◌≡◌, ℕ, ◌+◌, ◌*◌, ◌<◌, ◌≤◌, length};
ghost use Rattle.temporal.specs.Bound.{above, below, biased};
ghost use Rattle.network.specs.Stored.{at};
ghost use Rattle.network.specs.Edges.{Extends};
ghost use Rattle.potentials.specs.Arrays.{Given};
ghost use Rattle.potentials.specs.Nodes.{close_node};
ghost use Rattle.demands.specs.Rules.{Tests, Holds, Obeyed};
ghost use Rattle.demands.specs.Network.{Order, Built, Limits};

use network::BIAS;

// The biased cost of a bound.
pub fn cost(z: i32) -> u32
    requires { (above z ≤ 1000000) × (below z ≤ 1000000) }
    ensures { result ≡ biased z }
{
    (BIAS as i32 + z) as u32
}

// The node of a point's close; for n = 0 the point itself.
pub fn close_node(n: usize, point: usize) -> usize
    requires { (n ≤ 40) × (point ≤ 40) }
    ensures { result ≡ close_node n point }
{
    if point == 0 { 0 } else { n + point }
}

// Whether rule j holds of the times of nodes, from the node of its `from` to the close of its `to`.
#[tactic(auto, using(potentials::specs::Nodes::close_most))]
fn holds(t: &ticket::Ticket, j: usize, n: usize, pot: &[u32; 81]) -> bool
    requires given { Given t.now }
    requires j_in_bounds { j < t.now.rules }
    requires n_le_events { (n ≤ t.now.events) × ((v : ℕ) → v ≤ n + t.now.events → at pot.now v ≤ 1000000) }
    ensures { Tests result (Holds t.now n (at pot.now) j) }
{
    let head = close_node(n, usize::from(t.to[j]));
    pot[head] + BIAS <= pot[usize::from(t.from[j])] + cost(t.bound[j])
}

// Whether all rules hold.
pub fn obeyed(t: ticket::Ticket, n: usize, pot: &[u32; 81]) -> bool
    requires given { Given t }
    requires n_le_events { (n ≤ t.events) × ((v : ℕ) → v ≤ n + t.events → at pot.now v ≤ 1000000) }
    ensures { Tests result (Obeyed t n (at pot.now)) }
{
    (0..t.rules).all(|j| holds(&t, j, n, pot))
}

// Store, for each event, the edge that keeps its open at most its close.
pub fn order(net: &mut [u32], n: usize)
    requires { (n ≤ 40) × (20 * n ≤ length net.old) }
    ensures extends { Extends net.old net.new (4 * n) }
    ensures order { Order net.new n n }
{
    for i in 0..n {
        network::put(net, 4 * n + i, n + i + 1, i + 1, BIAS);
    }
}

// Store the window network: the boxes of all opens and closes, their order, and the rules.
#[tactic(auto, using(potentials::specs::Nodes::close_most))]
pub fn build(net: &mut [u32], t: ticket::Ticket, low: &[u32; 81], high: &[u32; 81])
    requires given { Given t }
    requires rules_in_bounds { 20 * t.events + 4 * t.rules ≤ length net.old }
    requires limits { Limits t (at low.now) (at high.now) }
    ensures built { Built net.new t (at low.now) (at high.now) }
    ensures net_len_unchanged { length net.new ≡ length net.old }
{
    let n = t.events;
    network::boxes(net, 2 * n, low, high);
    order(net, n);
    for j in 0..t.rules {
        let head = close_node(n, usize::from(t.to[j]));
        network::put(
            net,
            5 * n + j,
            usize::from(t.from[j]),
            head,
            cost(t.bound[j]),
        );
    }
}
