// The path that a search found, by links from a node to the root: how much flow it has room for, and that flow pushed along it.
// Rests on crate network, which stores the edges, on search for the tree of links, on carry for what is taken off a supply, and on edge for where an edge stands.

#![tactic(auto)]

ghost use Rattle.std.specs.Prelude.{◌≡◌, ◌+◌, ◌*◌, ◌-◌, ◌<◌, ◌≤◌, min};
ghost use Rattle.network.specs.Stored.{at, Network};
ghost use Rattle.search.specs.Tree.{Linked};
ghost use Rattle.path.specs.Way.{Roomy};
ghost use Rattle.path.specs.Push.{Walkable, Walked, Loaded, Sends};

use search::Trail;

// The other end of an edge from a to b, seen from cur.
fn other(a: usize, b: usize, cur: usize) -> usize
    ensures { (a ≡ cur → result ≡ b) × ((a ≡ cur → ⊥) → result ≡ a) }
{
    if a == cur { b } else { a }
}

// The flow x of an edge with tail a after f units went over it from cur.
fn moved(x: u32, a: usize, cur: usize, f: u32) -> u32
    requires { (x < 1000) × (f ≤ 3) × ((a ≡ cur → ⊥) → f ≤ x) }
    ensures { (a ≡ cur → result ≡ x + f) × ((a ≡ cur → ⊥) → result ≡ x - f) }
{
    if a == cur { x + f } else { x - f }
}

// Walk edge e from node cur to its other end, f units of flow with it.
fn walk(net: &mut [u32], e: usize, cur: usize, f: u32) -> usize
    requires { Walkable net.old e cur f }
    ensures { Walked net.old net.new e cur f result }
{
    let p = 4 * e;
    let a = net[p] as usize;
    let b = net[p + 1] as usize;
    net[p + 3] = moved(net[p + 3], a, cur, f);
    other(a, b, cur)
}

// How much of f units an edge with tail a and flow x has room for, from cur: an edge that is walked back gives up its flow.
fn spare(x: u32, a: usize, cur: usize, f: u32) -> u32
    ensures { (a ≡ cur → result ≡ f) × ((a ≡ cur → ⊥) → result ≡ min f x) }
{
    if a == cur { f } else { f.min(x) }
}

// How much of want units the links from start to the root have room for.
fn room(net: &[u32], m: usize, nodes: usize, trail: &Trail, start: usize, want: u32) -> u32
    requires network { Network net.now m nodes }
    requires linked { Linked net.now m nodes trail.now.stamp trail.now.via trail.now.root }
    requires start_lt_nodes { (start < nodes) × (0 < at trail.now.stamp start) × (0 < want) }
    ensures { Roomy net.now trail.now.via trail.now.root start want result }
{
    let mut f = want;
    let mut cur = start;
    while cur != trail.root {
        let p = 4 * trail.via[cur];
        let a = net[p] as usize;
        let b = net[p + 1] as usize;
        f = spare(net[p + 3], a, cur, f);
        cur = other(a, b, cur);
    }
    f
}

// Push flow from start along the links to the root: of the supply of start and of want as much as the links have room for. The result is how much.
pub fn push(
    net: &mut [u32],
    m: usize,
    nodes: usize,
    trail: &Trail,
    start: usize,
    supply: &mut [u32; 81],
    want: u32,
) -> u32
    requires { Loaded net.old m nodes trail.now.stamp trail.now.via trail.now.root start supply.old want }
    ensures { Sends net.old net.new m nodes trail.now.stamp trail.now.via trail.now.root start supply.old supply.new want result }
{
    let f = room(net, m, nodes, trail, start, supply[start].min(want));
    let mut cur = start;
    while cur != trail.root {
        cur = walk(net, trail.via[cur], cur, f);
    }
    carry::take(supply, start, f);
    f
}
