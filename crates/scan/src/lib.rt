// One node is scanned in a search: all edges at it are visited, the box edges by their places and the others by the lists of its edges.
// Rests on crate network, which stores and lists the edges, and on crate visit, which visits one.

#![tactic(auto)]

ghost use Rattle.std.specs.Prelude.{◌+◌, ◌*◌, ◌-◌, ◌<◌};
ghost use Rattle.visit.specs.Search.{Search};
ghost use Rattle.network.specs.Index.{Index, Listed};
ghost use Rattle.visit.specs.Visit.{Scans};
ghost use Rattle.scan.specs.Sweep.{Swept, EdgesBelow, Scanned};

use visit::Trail;

// Visit the box edges of every node: the origin is scanned.
fn scan_origin(net: &[u32], m: usize, nodes: usize, pot: &[u32; 81], trail: &mut Trail)
    requires search { Search net.now m nodes pot.now trail.old }
    requires scans { Scans nodes trail.old 0 }
    ensures { Swept net.now m nodes pot.now trail.old trail.new 0 (EdgesBelow (2 * nodes - 2)) }
{
    for v in 1..nodes {
        let o = 2 * v - 1;
        trail.visit_box(net, pot, 0, v, o - 1, o);
    }
}

// Visit the box edges at w.
fn scan_box(net: &[u32], m: usize, nodes: usize, pot: &[u32; 81], trail: &mut Trail, w: usize)
    requires search { Search net.now m nodes pot.now trail.old }
    requires scans { Scans nodes trail.old w }
    ensures { Swept net.now m nodes pot.now trail.old trail.new w (EdgesBelow (2 * nodes - 2)) }
{
    if w == 0 {
        scan_origin(net, m, nodes, pot, trail);
    } else {
        let i = 2 * w - 1;
        trail.visit_box(net, pot, w, 0, i, i - 1);
    }
}

// Visit the edges whose head is w, but for box edges. This walk of a list and the next are two: one walk for both would take the visit as a closure
// with a contract of its own, which is longer than the loop.
fn scan_heads(
    net: &[u32],
    m: usize,
    nodes: usize,
    heads: &[u32],
    pot: &[u32; 81],
    trail: &mut Trail,
    w: usize,
)
    requires search { Search net.now m nodes pot.now trail.old }
    requires scans { Scans nodes trail.old w }
    requires index { Index net.now m (2 * nodes - 2) 1 heads.now }
    ensures { Swept net.now m nodes pot.now trail.old trail.new w (Listed net.now (2 * nodes - 2) 1 w) }
{
    let base = 2 * nodes - 2;
    let mut x = heads[w] as usize;
    while 0 < x {
        let e = x - 1;
        trail.visit_head(net, pot, w, e);
        x = heads[81 + (e - base)] as usize;
    }
}

// Visit the edges whose tail is w, but for box edges.
fn scan_tails(
    net: &[u32],
    m: usize,
    nodes: usize,
    tails: &[u32],
    pot: &[u32; 81],
    trail: &mut Trail,
    w: usize,
)
    requires search { Search net.now m nodes pot.now trail.old }
    requires scans { Scans nodes trail.old w }
    requires index { Index net.now m (2 * nodes - 2) 0 tails.now }
    ensures { Swept net.now m nodes pot.now trail.old trail.new w (Listed net.now (2 * nodes - 2) 0 w) }
{
    let base = 2 * nodes - 2;
    let mut x = tails[w] as usize;
    while 0 < x {
        let e = x - 1;
        trail.visit_tail(net, e);
        x = tails[81 + (e - base)] as usize;
    }
}

// Scan the next node that waits: visit all edges at it.
pub fn scan(
    net: &[u32],
    m: usize,
    nodes: usize,
    tails: &[u32],
    heads: &[u32],
    pot: &[u32; 81],
    trail: &mut Trail,
)
    requires search { Search net.now m nodes pot.now trail.old }
    requires waits { trail.old.scanned < trail.old.reached }
    requires index { Index net.now m (2 * nodes - 2) 0 tails.now }
    requires index_2 { Index net.now m (2 * nodes - 2) 1 heads.now }
    ensures { Scanned net.now m nodes pot.now trail.old trail.new }
{
    let w = trail.order[trail.scanned];
    scan_box(net, m, nodes, pot, trail, w);
    scan_heads(net, m, nodes, heads, pot, trail, w);
    scan_tails(net, m, nodes, tails, pot, trail, w);
    trail.scanned += 1;
}
