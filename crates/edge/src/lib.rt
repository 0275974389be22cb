// How far the edges of a difference network let its nodes move: how high and how low a node can be while the others stay, and how far all nodes can rise together.
// Rests on crate network, which stores and lists the edges.

#![tactic(auto)]

ghost use Rattle.std.specs.Prelude.{◌≡◌, ◌+◌, ◌*◌, ◌-◌, ◌<◌};
ghost use Rattle.network.specs.Stored.{at, tail_of, cost_of, Demand, Potential};
ghost use Rattle.network.specs.Index.{end_of};
ghost use Rattle.edge.specs.Limit.{EdgeFits};
ghost use Rattle.edge.specs.Slack.{slack_of, LeastSlack};
ghost use Rattle.edge.specs.Height.{Height};
ghost use Rattle.edge.specs.Depth.{Depth};
ghost use Rattle.edge.specs.Headroom.{Headroom, BoxRoom};

use network::{BIAS, ByHead, ByTail, Edges};

// What edge e allows its head: the time of its tail plus its cost.
pub fn limit(net: &[u32], pot: &[u32; 81], e: usize) -> u32
    requires { EdgeFits net.now pot.now e }
    ensures { result ≡ at pot.now (tail_of net.now e) + cost_of net.now e }
{
    let p = 4 * e;
    let a = net[p] as usize;
    pot[a] + net[p + 2]
}

// What the demand of edge e leaves over. Its end by SIDE is v, so that only the other is read.
fn slack<const SIDE: usize>(net: &[u32], pot: &[u32; 81], e: usize, v: usize) -> u32
    requires edge_fits { EdgeFits net.now pot.now e }
    requires demand { Demand net.now pot.now e }
    requires end { (SIDE < 2) × (end_of net.now SIDE e ≡ v) }
    ensures { result ≡ slack_of net.now pot.now e }
{
    let (a, b) = if SIDE == 0 {
        (v, net[4 * e + 1] as usize)
    } else {
        (net[4 * e] as usize, v)
    };
    pot[a] + net[4 * e + 2] - (pot[b] + BIAS)
}

// The least slack of the edges in the list of node v, at most `most`.
fn least_slack<const SIDE: usize>(
    edges: &Edges<'_, SIDE>,
    pot: &[u32; 81],
    v: usize,
    most: u32,
) -> u32
    requires potential { Potential edges.now.net.now edges.now.m pot.now }
    requires v_bound { v < edges.now.nodes }
    ensures { LeastSlack edges.now.net.now edges.now.m (2 * edges.now.nodes - 2) SIDE pot.now v most result }
{
    let mut least = most;
    let mut next = edges.last(v);
    while let Some(e) = next {
        let slack = slack::<SIDE>(edges.net, pot, e, v);
        if slack == 0 {
            return 0;
        }
        least = least.min(slack);
        next = edges.before(e);
    }
    least
}

// The highest that node v can be while the other nodes stay. `depth` differs in the side, the box edge and the sign: one function for both would take all three.
pub fn height(edges: &ByHead<'_>, pot: &[u32; 81], v: usize) -> u32
    requires potential { Potential edges.now.net.now edges.now.m pot.now }
    requires v_nonzero { (0 < v) × (v < edges.now.nodes) }
    ensures { Height edges.now.net.now edges.now.m pot.now v result }
{
    let most = slack::<1>(edges.net, pot, 2 * v - 1, v);
    pot[v] + least_slack(edges, pot, v, most)
}

// The lowest that node v can be while the other nodes stay.
pub fn depth(edges: &ByTail<'_>, pot: &[u32; 81], v: usize) -> u32
    requires potential { Potential edges.now.net.now edges.now.m pot.now }
    requires v_nonzero { (0 < v) × (v < edges.now.nodes) }
    ensures { Depth edges.now.net.now edges.now.m pot.now v result }
{
    let most = slack::<0>(edges.net, pot, 2 * v - 2, v);
    pot[v] - least_slack(edges, pot, v, most)
}

// How far the boxes let all nodes but the origin rise, at most 1_000_000.
fn box_room(edges: &ByTail<'_>, pot: &[u32; 81]) -> u32
    requires potential { Potential edges.now.net.now edges.now.m pot.now }
    ensures { BoxRoom edges.now.net.now pot.now edges.now.nodes result }
{
    let mut best: u32 = 1_000_000;
    for v in 1..edges.nodes {
        best = best.min(slack::<1>(edges.net, pot, 2 * v - 1, v));
    }
    best
}

// How far all nodes but the origin can rise together, at most 1_000_000.
pub fn headroom(edges: &ByTail<'_>, pot: &[u32; 81]) -> u32
    requires potential { Potential edges.now.net.now edges.now.m pot.now }
    ensures { Headroom edges.now.net.now edges.now.m pot.now result }
{
    let room = box_room(edges, pot);
    least_slack(edges, pot, 0, room)
}
