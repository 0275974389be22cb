// A warm start: from a potential of a network with no flow to a wider one, all nodes together and then node by node, before any flow runs.
// Event i of 1 to n has a lo node, i, and a hi node, n + i. How wide the result is is not promised: only that it is a potential.
// Rests on crates network, which stores and lists the edges, and edge, which says how far one node can move, and all together.

#![tactic(auto)]

ghost use Rattle.std.specs.Prelude.{◌≡◌, ℕ, ◌+◌, ◌*◌, ◌-◌, ◌<◌, ◌≤◌, length};
ghost use Rattle.network.specs.Stored.{at, Beyond, flow_of, Network, Potential};
ghost use Rattle.network.specs.Index.{Index};
ghost use Rattle.warm.specs.Center.{Shifted};
ghost use Rattle.warm.specs.Highest.{Highest};

use network::{ByHead, ByTail};

// Raise each hi node as far as it can: no flow runs yet. `sink` differs in the side, the nodes and how far each moves: one function for both would take all three.
fn rise(edges: &ByHead<'_>, n: usize, pot: &mut [u32; 81])
    requires nodes { edges.now.nodes ≡ 2 * n + 1 }
    requires potential { Potential edges.now.net.now edges.now.m pot.old }
    requires by_index { (e : ℕ) → e < edges.now.m → flow_of edges.now.net.now e ≡ 0 }
    ensures potential_2 { Potential edges.now.net.now edges.now.m pot.new }
    ensures beyond { Beyond pot.old pot.new (2 * n + 1) }
{
    for v in n + 1..2 * n + 1 {
        pot[v] = edge::height(edges, pot, v);
    }
}

// Lower each lo node as far as it can: no flow runs yet.
fn sink(edges: &ByTail<'_>, n: usize, pot: &mut [u32; 81])
    requires nodes { edges.now.nodes ≡ 2 * n + 1 }
    requires potential { Potential edges.now.net.now edges.now.m pot.old }
    requires by_index { (e : ℕ) → e < edges.now.m → flow_of edges.now.net.now e ≡ 0 }
    ensures potential_2 { Potential edges.now.net.now edges.now.m pot.new }
    ensures beyond { Beyond pot.old pot.new (2 * n + 1) }
{
    for v in 1..n + 1 {
        pot[v] = edge::depth(edges, pot, v);
    }
}

// Raise nodes 1 to nodes - 1 by h.
fn shift(pot: &mut [u32; 81], nodes: usize, h: u32)
    requires pot_len { (length pot.old ≡ 81) × (0 < nodes) × (nodes ≤ 81) × (h ≤ 1000000) }
    requires by_index { (v : ℕ) → v < nodes → at pot.old v ≤ 1000000 }
    ensures { Shifted pot.old pot.new nodes h }
{
    for v in 1..nodes {
        pot[v] += h;
    }
}

// The highest time of the nodes 1 to n, 0 if there are none.
fn highest(pot: &[u32; 81], n: usize) -> u32
    requires { n < 81 }
    ensures { Highest pot.now n result }
{
    let mut top: u32 = 0;
    for time in &pot[1..n + 1] {
        top = top.max(*time);
    }
    top
}

// Where all lo nodes stand low, move everything up by half the headroom, then lower the lo nodes again: so windows grow both ways.
fn center(edges: &ByTail<'_>, n: usize, pot: &mut [u32; 81])
    requires nodes { edges.now.nodes ≡ 2 * n + 1 }
    requires potential { Potential edges.now.net.now edges.now.m pot.old }
    requires by_index { (e : ℕ) → e < edges.now.m → flow_of edges.now.net.now e ≡ 0 }
    ensures potential_2 { Potential edges.now.net.now edges.now.m pot.new }
    ensures beyond { Beyond pot.old pot.new (2 * n + 1) }
{
    let room = edge::headroom(edges, pot);
    let h = room / 2;
    if 0 < h && highest(pot, n) <= room {
        shift(pot, edges.nodes, h);
        sink(edges, n, pot);
    }
}

// A wider potential: everything moves to the middle of its room, then the hi nodes rise.
pub fn widen(net: &[u32], m: usize, n: usize, tails: &[u32], heads: &[u32], pot: &mut [u32; 81])
    requires network { Network net.now m (2 * n + 1) }
    requires potential { Potential net.now m pot.old }
    requires index { Index net.now m (2 * (2 * n + 1) - 2) 0 tails.now }
    requires index_2 { Index net.now m (2 * (2 * n + 1) - 2) 1 heads.now }
    requires by_index { (e : ℕ) → e < m → flow_of net.now e ≡ 0 }
    ensures potential_2 { Potential net.now m pot.new }
    ensures beyond { Beyond pot.old pot.new (2 * n + 1) }
{
    let nodes = 2 * n + 1;
    let by_tail = ByTail {
        net,
        m,
        nodes,
        list: tails,
    };
    let by_head = ByHead {
        net,
        m,
        nodes,
        list: heads,
    };
    center(&by_tail, n, pot);
    rise(&by_head, n, pot);
}
