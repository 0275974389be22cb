// What an edge with no slack can carry: how much flow, of what its tail has to send and what the event of its head wants, and what is left of both.
// Rests on crate network, which stores the edges, and on edge for what an edge allows its head.

#![tactic(auto)]

ghost use Rattle.std.specs.Prelude.{◌≡◌, ◌-◌, ◌<◌, ◌≤◌, length, set};
ghost use Rattle.network.specs.Stored.{at};
ghost use Rattle.edge.specs.Limit.{EdgeFits};
ghost use Rattle.carry.specs.Carry.{Share, Wanted, Carried};

use network::BIAS;

// What edge e can carry, of what its tail and the event of its head want: nothing, if it has slack.
fn share(
    net: &[u32],
    pot: &[u32; 81],
    n: usize,
    e: usize,
    supply: &[u32; 81],
    demand: &[u32; 81],
) -> u32
    requires { EdgeFits net.now pot.now e }
    ensures { Share net.now pot.now n e supply.now demand.now result }
{
    let p = 4 * e;
    let b = net[p + 1] as usize;
    if edge::limit(net, pot, e) == pot[b] + BIAS {
        let a = net[p] as usize;
        let j = b.saturating_sub(n);
        supply[a].min(demand[j])
    } else {
        0
    }
}

// Take f units off what is left at v.
pub fn take(left: &mut [u32; 81], v: usize, f: u32)
    requires { (length left.old ≡ 81) × (v < 81) × (f ≤ at left.old v) }
    ensures { left.new ≡ set left.old v (at left.old v - f) }
{
    left[v] -= f;
}

// Let edge e carry as much as its tail and the event of its head want, if it has no slack.
pub fn carry(
    net: &mut [u32],
    pot: &[u32; 81],
    n: usize,
    e: usize,
    supply: &mut [u32; 81],
    demand: &mut [u32; 81],
)
    requires edge_fits { EdgeFits net.old pot.now e }
    requires wanted { Wanted net.old e supply.old demand.old }
    ensures { Carried net.old net.new pot.now n e supply.old supply.new demand.old demand.new }
{
    let f = share(net, pot, n, e, supply, demand);
    if 0 < f {
        let p = 4 * e;
        let a = net[p] as usize;
        let j = (net[p + 1] as usize).saturating_sub(n);
        net[p + 3] += f;
        take(supply, a, f);
        take(demand, j, f);
    }
}
