// What a search from a root has found, and its steps: an edge at a node that is scanned is visited, and the node at its other end, if it gets nearer by it, has
// its distance lowered, or is reached. A search goes over edges from head to tail, and over edges with flow from tail to head; it goes by distances, which are
// sums of slacks. Rests on crate network, which stores the edges.

#![tactic(auto)]

ghost use Rattle.std.specs.Prelude.{◌≡◌, ◌+◌, ◌*◌, ◌-◌, ◌<◌, length};
ghost use Rattle.network.specs.Stored.{at, tail_of, head_of};
ghost use Rattle.visit.specs.Search.{unstarted, started, joined};
ghost use Rattle.visit.specs.Visit.{Step, step_to, Offered, Backed, Boxed};

use network::BIAS;

// The distance of a node that is not found.
pub const FAR: u32 = 8_000_000;

// What a search has found, from `start` on; before it all numbers are 0.
#[derive(Drop)]
pub struct Trail {
    // the node that the search starts from
    pub root: usize,
    // of each node: its number among those reached, from 1 on, or 0 if it is not; the edge over which it can be reached; and its distance, FAR if it is not found
    pub stamp: [usize; 81],
    pub via: [usize; 81],
    pub dist: [u32; 81],
    // the nodes that are reached, first to last: how many, and how many of them are scanned
    pub order: [usize; 81],
    pub reached: usize,
    pub scanned: usize,
    // the distance of a node that is not reached, and FAR for any other
    pub key: [u32; 81],
    // the distance that the search has come to
    pub distance: u32,
}

impl Trail {
    // Room for a search, which `start` begins.
    pub fn new() -> Trail
        ensures { result ≡ unstarted }
    {
        Trail {
            root: 0,
            stamp: [0; 81],
            via: [0; 81],
            dist: [0; 81],
            order: [0; 81],
            reached: 0,
            scanned: 0,
            key: [0; 81],
            distance: 0,
        }
    }

    // Start from root, which alone is reached. What stands in via and order is of no use, and is left.
    pub fn start(&mut self, root: usize)
        requires { root < 81 }
        ensures { self.new ≡ started self.old root }
    {
        self.root = root;
        self.stamp = [0; 81];
        self.stamp[root] = 1;
        self.dist = [FAR; 81];
        self.dist[root] = 0;
        self.order[0] = root;
        self.reached = 1;
        self.scanned = 0;
        self.key = [FAR; 81];
        self.distance = 0;
    }

    // Reach node v.
    pub fn join(&mut self, v: usize)
        requires { (v < 81) × (self.old.reached < 81) }
        ensures { self.new ≡ joined self.old v }
    {
        self.order[self.reached] = v;
        self.reached += 1;
        self.stamp[v] = self.reached;
        self.key[v] = FAR;
    }

    // Node v can be reached over edge e at distance x. At the distance that the search has come to it is reached at once.
    fn offer(&mut self, v: usize, x: u32, e: usize)
        requires { (v < 81) × (x < at self.old.dist v → self.old.reached < 81) }
        ensures { Offered self.old self.new v x e }
    {
        if x < self.dist[v] {
            self.dist[v] = x;
            self.via[v] = e;
            self.key[v] = x;
            if x <= self.distance {
                self.join(v);
            }
        }
    }

    // Visit edge e, whose head is w: its tail can be reached over it.
    pub fn visit_head(&mut self, net: &[u32], pot: &[u32; 81], w: usize, e: usize)
        requires step { Step net.now pot.now e (tail_of net.now e) w self.old.distance }
        requires room { self.old.distance < at self.old.dist (tail_of net.now e) → self.old.reached < 81 }
        ensures { Offered self.old self.new (tail_of net.now e) (step_to net.now pot.now e (tail_of net.now e) w self.old.distance) e }
    {
        let v = net[4 * e] as usize;
        let x = over(net, pot, e, v, w, self.distance);
        self.offer(v, x, e);
    }

    // Visit edge e, whose tail is scanned: with flow, it leads back at no slack.
    pub fn visit_tail(&mut self, net: &[u32], e: usize)
        requires inside { (4 * e + 3 < length net.now) × (head_of net.now e < 81) }
        requires room { self.old.distance < at self.old.dist (head_of net.now e) → self.old.reached < 81 }
        ensures { Backed net.now self.old self.new e }
    {
        let p = 4 * e;
        if 0 < net[p + 3] {
            self.offer(net[p + 1] as usize, self.distance, e);
        }
    }

    // Visit the box edges between w, which is scanned, and v: edge i leads to w, and edge o from w.
    pub fn visit_box(
        &mut self,
        net: &[u32],
        pot: &[u32; 81],
        w: usize,
        v: usize,
        i: usize,
        o: usize,
    )
        requires step { Step net.now pot.now i v w self.old.distance }
        requires inside { 4 * o + 3 < length net.now }
        requires room { self.old.distance < at self.old.dist v → self.old.reached < 81 }
        ensures { Boxed net.now pot.now self.old self.new w v i o }
    {
        let d = self.distance;
        if d < self.dist[v] {
            if 0 < net[4 * o + 3] {
                self.offer(v, d, o);
            } else {
                let x = over(net, pot, i, v, w, d);
                self.offer(v, x, i);
            }
        }
    }
}

// The distance over edge e from node v to node w, which is at distance d.
fn over(net: &[u32], pot: &[u32; 81], e: usize, v: usize, w: usize, d: u32) -> u32
    requires { Step net.now pot.now e v w d }
    ensures { result ≡ step_to net.now pot.now e v w d }
{
    d + (pot[v] + net[4 * e + 2]) - (pot[w] + BIAS)
}
