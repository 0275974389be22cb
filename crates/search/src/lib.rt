// Searches in a difference network. A search from a root finds the nodes from which it is reached over edges with no slack, and over edges with flow
// backwards; it goes on by distances. At its end, at distance d, the nodes nearer than d are raised once, each by what it lacks of d.
// Rests on crate network, which stores the edges, and on crates visit and scan, which make the steps of a search.

#![tactic(auto)]

ghost use Rattle.std.specs.Prelude.{◌≡◌, ℕ, ◌+◌, ◌*◌, ◌-◌, ◌<◌, ◌≤◌};
ghost use Rattle.network.specs.Stored.{at, Beyond, Network, Potential};
ghost use Rattle.search.specs.Tree.{Reached};
ghost use Rattle.search.specs.Nearest.{LeastKey, Nearest};
ghost use Rattle.network.specs.Index.{Index};
ghost use Rattle.search.specs.Raise.{Movable, Lifted};
ghost use Rattle.search.specs.Reach.{Goals, Begins, Explored};

pub use visit::Trail;

// The least of the keys.
fn least_key(key: &[u32; 81]) -> u32
    ensures { LeastKey key.now 81 result }
{
    let mut best = key[0];
    for v in 1..81 {
        best = best.min(key[v]);
    }
    best
}

// A node with the least key.
fn nearest(key: &[u32; 81]) -> usize
    ensures { Nearest key.now result }
{
    let best = least_key(key);
    key.iter().position(|x| *x == best).unwrap()
}

// The node after w, if its key is d, the least that a key can be, else a node with the least key.
fn next(key: &[u32; 81], w: usize, d: u32) -> usize
    requires { (w < 81) × ((v : ℕ) → v < 81 → d ≤ at key.now v) }
    ensures { Nearest key.now result }
{
    let after = w + 1;
    if after < 81 && key[after] == d {
        return after;
    }
    nearest(key)
}

// Raise the nodes nearer than d by the difference, with the origin kept in place.
fn raise(pot: &mut [u32; 81], dist: &[u32; 81], nodes: usize, d: u32)
    requires { Movable pot.old dist.now d nodes }
    ensures { Lifted pot.old pot.new dist.now d nodes }
{
    let base = dist[0].min(d);
    for v in 0..nodes {
        pot[v] = pot[v] + base - dist[v].min(d);
    }
}

// The last node with a goal above 0 from place lo of order on and below hi.
fn last_goal(order: &[usize; 81], goal: &[u32; 81], lo: usize, hi: usize) -> Option<usize>
    requires { (lo ≤ hi) × (hi ≤ 81) × ((k : ℕ) → k < hi → at order.now k < 81) }
    ensures { Goals order.now goal.now lo hi result }
{
    for k in (lo..hi).rev() {
        let v = order[k];
        if 0 < goal[v] {
            return Some(v);
        }
    }
    None
}

// Search from root until a node with a goal above 0 is reached, or all are reached and none has a goal. Nodes that are not scanned by then are as far as any:
// no edge at them leads nearer. The result is that node.
fn explore(
    net: &[u32],
    m: usize,
    nodes: usize,
    tails: &[u32],
    heads: &[u32],
    pot: &[u32; 81],
    trail: &mut Trail,
    root: usize,
    goal: &[u32; 81],
) -> Option<usize>
    requires { Begins net.now m nodes pot.now tails.now heads.now root }
    ensures { Explored net.now m nodes pot.now trail.new root goal.now result }
{
    trail.start(root);
    // the first seen of the nodes that are reached have no goal
    let mut seen = 0;
    while seen < nodes {
        if let Some(node) = last_goal(&trail.order, goal, seen, trail.reached) {
            return Some(node);
        }
        seen = trail.reached;
        if trail.scanned == trail.reached {
            let w = next(&trail.key, trail.order[seen - 1], trail.distance);
            trail.distance = trail.dist[w];
            trail.join(w);
        } else {
            scan::scan(net, m, nodes, tails, heads, pot, trail);
        }
    }
    None
}

// Reach nodes from root until one with a goal above 0 is found, or until all are reached. The result is that node.
pub fn reach(
    net: &[u32],
    m: usize,
    nodes: usize,
    tails: &[u32],
    heads: &[u32],
    pot: &mut [u32; 81],
    trail: &mut Trail,
    root: usize,
    goal: &[u32; 81],
) -> Option<usize>
    requires network { Network net.now m nodes }
    requires potential { Potential net.now m pot.old }
    requires index { Index net.now m (2 * nodes - 2) 0 tails.now }
    requires index_2 { Index net.now m (2 * nodes - 2) 1 heads.now }
    requires root_lt_nodes { root < nodes }
    ensures reached { Reached net.now m nodes pot.new trail.new.stamp trail.new.via root goal.now result }
    ensures rooted { trail.new.root ≡ root }
    ensures beyond { Beyond pot.old pot.new nodes }
{
    let found = explore(net, m, nodes, tails, heads, pot, trail, root, goal);
    // at distance 0 nothing moves
    if 0 < trail.distance {
        raise(pot, &trail.dist, nodes, trail.distance);
    }
    found
}
