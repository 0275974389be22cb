// The widest potential of a difference network, and of the widest the least: by a flow that proves it.
// Event i of 1 to n has a lo node, i, and a hi node, n + i: its weight runs from lo nodes to its hi node over edges with no slack.
// Rests on crates network, which stores the edges, search, which searches among them, edge and carry for single edges, warm for the potential to start from, and path for the paths that are found.

#![tactic(auto)]

ghost use Rattle.std.specs.Prelude.{◌≡◌, ℕ, ◌+◌, ◌*◌, ◌-◌, ◌<◌, length};
ghost use Rattle.network.specs.Stored.{Beyond, flow_of, Network, Potential};
ghost use Rattle.network.specs.Index.{Index};
ghost use Rattle.network.specs.Grow.{Flowless};
ghost use Rattle.flow.specs.Augment.{Ready, Augmented};
ghost use Rattle.flow.specs.Solve.{Spans, Weights, Carries, FirstFlow, Sent, Lowered, Empty, Solved};

use search::Trail;

// Push flow to root, at most want units of it, from a node with some supply, along edges with no slack. The result is how much; the supply falls by it.
fn augment(
    net: &mut [u32],
    m: usize,
    nodes: usize,
    tails: &[u32],
    heads: &[u32],
    pot: &mut [u32; 81],
    trail: &mut Trail,
    root: usize,
    supply: &mut [u32; 81],
    want: u32,
) -> u32
    requires { Ready net.old m nodes tails.now heads.now pot.old root supply.old want }
    ensures augmented { Augmented net.old net.new m nodes pot.new root supply.old supply.new want result }
    ensures beyond { Beyond pot.old pot.new nodes }
{
    // some node has supply, and the search ends at one
    let from = search::reach(net, m, nodes, tails, heads, pot, trail, root, supply).unwrap();
    path::push(net, m, nodes, trail, from, supply, want)
}

// A first flow: over each edge with no slack from a lo node to a hi node, as much as both ends want.
fn start(
    net: &mut [u32],
    m: usize,
    n: usize,
    pot: &[u32; 81],
    supply: &mut [u32; 81],
    demand: &mut [u32; 81],
)
    requires flowless { Flowless net.old m (2 * n + 1) pot.now }
    requires weights { Weights n supply.old × (demand.old ≡ supply.old) }
    ensures { FirstFlow net.old net.new m n pot.now supply.old supply.new demand.new }
{
    for e in 4 * n..m {
        carry::carry(net, pot, n, e, supply, demand);
    }
}

// Send what is still wanted, event by event, by searches.
fn serve(
    net: &mut [u32],
    m: usize,
    n: usize,
    tails: &[u32],
    heads: &[u32],
    pot: &mut [u32; 81],
    weight: &[u32; 81],
    supply: &mut [u32; 81],
    demand: &mut [u32; 81],
)
    requires carries { Carries net.old m n pot.old weight.now supply.old demand.old }
    requires index { Index net.old m (2 * (2 * n + 1) - 2) 0 tails.now }
    requires index_2 { Index net.old m (2 * (2 * n + 1) - 2) 1 heads.now }
    requires weights { Weights n weight.now }
    ensures sent { Sent net.old net.new m n pot.new weight.now }
    ensures beyond { Beyond pot.old pot.new (2 * n + 1) }
{
    let nodes = 2 * n + 1;
    let mut trail = Trail::new();
    for i in 1..n + 1 {
        while 0 < demand[i] {
            let f = augment(
                net,
                m,
                nodes,
                tails,
                heads,
                pot,
                &mut trail,
                n + i,
                supply,
                demand[i],
            );
            carry::take(demand, i, f);
        }
    }
}

// Send each event's weight to its hi node from the lo nodes: a first flow, then by searches.
fn send(
    net: &mut [u32],
    m: usize,
    n: usize,
    tails: &[u32],
    heads: &[u32],
    pot: &mut [u32; 81],
    weight: &[u32; 81],
)
    requires flowless { Flowless net.old m (2 * n + 1) pot.old }
    requires index { Index net.old m (2 * (2 * n + 1) - 2) 0 tails.now }
    requires index_2 { Index net.old m (2 * (2 * n + 1) - 2) 1 heads.now }
    requires weights { Weights n weight.now }
    ensures sent { Sent net.old net.new m n pot.new weight.now }
    ensures beyond { Beyond pot.old pot.new (2 * n + 1) }
{
    let mut supply = *weight;
    let mut demand = *weight;
    start(net, m, n, pot, &mut supply, &mut demand);
    serve(
        net,
        m,
        n,
        tails,
        heads,
        pot,
        weight,
        &mut supply,
        &mut demand,
    );
}

// Reach every node from the origin: the potential is then the least that the flow allows.
fn lower(net: &[u32], m: usize, nodes: usize, tails: &[u32], heads: &[u32], pot: &mut [u32; 81])
    requires network { Network net.now m nodes }
    requires potential { Potential net.now m pot.old }
    requires index { Index net.now m (2 * nodes - 2) 0 tails.now }
    requires index_2 { Index net.now m (2 * nodes - 2) 1 heads.now }
    ensures lowered { Lowered net.now m nodes pot.new }
    ensures beyond { Beyond pot.old pot.new nodes }
{
    let none = [0u32; 81];
    search::reach(
        net,
        m,
        nodes,
        tails,
        heads,
        pot,
        &mut Trail::new(),
        0,
        &none,
    );
}

// From a potential of the network with no flow to the widest potential that is least. Event i of 1 to n has the nodes i and n + i. The edges are listed in tails and heads.
pub fn solve(
    net: &mut [u32],
    m: usize,
    n: usize,
    tails: &mut [u32],
    heads: &mut [u32],
    pot: &mut [u32; 81],
    weight: &[u32; 81],
)
    requires flowless { Flowless net.old m (2 * n + 1) pot.old }
    requires spans { Spans net.old m n }
    requires weights { Weights n weight.now }
    requires empty { Empty m n tails.old × Empty m n heads.old }
    ensures { Solved net.old net.new m n pot.old pot.new weight.now }
{
    let nodes = 2 * n + 1;
    let base = 2 * nodes - 2;
    network::list_edges(net, m, base, tails, heads);
    warm::widen(net, m, n, tails, heads, pot);
    send(net, m, n, tails, heads, pot, weight);
    lower(net, m, nodes, tails, heads, pot);
}
