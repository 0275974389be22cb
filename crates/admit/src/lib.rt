// Adds one demand to a difference network with no flow, or finds that no potential meets it: by a lift, or where that is given up by a search.
// Rests on crate network, which stores the edges, and on crates lift and search.

#![tactic(auto)]

ghost use Rattle.std.specs.Prelude.{ℕ, ◌<◌, ◌≤◌};
ghost use Rattle.network.specs.Grow.{Growing};
ghost use Rattle.admit.specs.Admit.{Approached, Admissible, Admits};

use lift::Unmet;
use network::{BIAS, ByHead};
use search::Trail;

// Move the potential as far towards a demand of an edge from a to b as the edges allow, by a search. It stands apart, so that only where a search is made
// its room is cleared.
fn seek(
    net: &[u32],
    m: usize,
    nodes: usize,
    tails: &[u32],
    heads: &[u32],
    pot: &mut [u32; 81],
    a: usize,
    b: usize,
)
    requires growing { Growing net.now m nodes pot.old tails.now heads.now }
    requires a_lt_nodes { (a < nodes) × (b < nodes) }
    ensures { (c : ℕ) → Approached net.now m nodes pot.new tails.now heads.now a b c }
{
    let mut trail = Trail::new();
    let mut goal = [0u32; 81];
    goal[b] = 1;
    search::reach(net, m, nodes, tails, heads, pot, &mut trail, a, &goal);
}

// Where the demand of an edge from a to b at the biased cost c fails, move the potential as far towards it as the edges allow.
fn approach(
    net: &[u32],
    m: usize,
    nodes: usize,
    tails: &[u32],
    heads: &[u32],
    pot: &mut [u32; 81],
    a: usize,
    b: usize,
    c: u32,
)
    requires growing { Growing net.now m nodes pot.old tails.now heads.now }
    requires a_lt_nodes { (a < nodes) × (b < nodes) × (c ≤ 2000000) }
    ensures { Approached net.now m nodes pot.new tails.now heads.now a b c }
{
    if pot[b] + BIAS <= pot[a] + c {
        return;
    }
    let edges = ByHead {
        net,
        m,
        nodes,
        list: heads,
    };
    if let Err(Unmet::GivenUp) = lift::lift(&edges, pot, a, b, c) {
        seek(net, m, nodes, tails, heads, pot, a, b);
    }
}

// Store edge m from a to b at the biased cost c. Admit it to the network, with the potential moved as need be, if some potential meets its demand and those of the edges before it.
pub fn admit(
    net: &mut [u32],
    m: usize,
    nodes: usize,
    tails: &mut [u32],
    heads: &mut [u32],
    pot: &mut [u32; 81],
    a: usize,
    b: usize,
    c: u32,
) -> bool
    requires growing { Growing net.old m nodes pot.old tails.old heads.old }
    requires admissible { Admissible net.old m nodes tails.old heads.old a b c }
    ensures { Admits net.old net.new m nodes pot.new tails.new heads.new a b c result }
{
    network::put(net, m, a, b, c);
    approach(net, m, nodes, tails, heads, pot, a, b, c);
    if pot[a] + c < pot[b] + BIAS {
        return false;
    }
    let place = 81 + (m + 2 - 2 * nodes);
    network::link(tails, place, a, m);
    network::link(heads, place, b, m);
    true
}
