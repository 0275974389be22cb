// Lifts a potential until one demand more holds, or finds that no potential meets it: nodes are raised one after the other, each as far as an edge to a node
// raised before asks for. Where the head of the demand would have to rise too, the edges on the way there close a ring with it, and it cannot be met.
// Rests on crate network, which stores and lists the edges.

#![tactic(auto)]

ghost use Rattle.std.specs.Prelude.{◌≡◌, ℕ, ◌+◌, ◌*◌, ◌-◌, ◌<◌, ◌≤◌, [], ◌∷◌, ◌++◌, OnOk, IsOkUnless, length};
ghost use Rattle.network.specs.Stored.{at, Potential};
ghost use Rattle.network.specs.Index.{Listed};
ghost use Rattle.lift.specs.declared.Unmet.TheVariants.{GivenUp};
ghost use Rattle.lift.specs.Lift.{Visited, Ready, Passes, AtNode, NoEdge, Spread, Shifted, Lifts};

use network::{BIAS, ByHead};
use std::marker::Model;

// How high a node may be raised.
const HIGH: u32 = 4_000_000;

// Why a lift ends before its demand holds.
#[derive(Clone, Copy, Debug, PartialEq, Eq)]
pub enum Unmet {
    // The head of the demand would have to rise: no potential meets it.
    Ring,
    // Nodes were raised too often or too high to go on.
    GivenUp,
}

// The nodes that were raised, in this order. A node that is raised again is in it again.
#[derive(Drop)]
struct Queue {
    nodes: [u8; 400],
    len: usize,
}

impl Model for Queue {
    ghost use Rattle.std.specs.Prelude.{ℕ, List, ◌≤◌, take};

    ghost Value = { List ℕ };

    ghost view = { λ q. take q.len q.nodes };

    ghost invariant = { λ q. q.len ≤ 400 };
}

impl Queue {
    // A queue with node v in front.
    fn new(v: usize) -> Queue
        requires { v < 81 }
        ensures { result ≡ v ∷ [] }
    {
        let mut queue = Queue {
            nodes: [0; 400],
            len: 1,
        };
        queue.nodes[0] = v as u8;
        queue
    }

    fn len(&self) -> usize
        ensures value { result ≡ length self.now }
        ensures room { result ≤ 400 }
    {
        self.len
    }

    // The node at place k.
    fn at(&self, k: usize) -> usize
        requires { k < length self.now }
        ensures { result ≡ at self.now k }
    {
        usize::from(self.nodes[k])
    }

    // Put node v at the end. Where there is no room the lift is given up.
    fn push(&mut self, v: usize) -> Result<(), Unmet>
        requires { v < 81 }
        ensures ok { OnOk result (self.new ≡ self.old ++ v ∷ []) }
        ensures full { IsOkUnless result GivenUp }
    {
        if self.len == 400 {
            return Err(Unmet::GivenUp);
        }
        self.nodes[self.len] = v as u8;
        self.len += 1;
        Ok(())
    }
}

// The edges, the times, the queue and b are no struct: each contract would have to say besides that the edges and b stay as they are.

// Visit edge e, whose head is v: where its demand fails, its tail is raised and put into the queue.
fn visit(
    edges: &ByHead<'_>,
    pot: &mut [u32; 81],
    queue: &mut Queue,
    e: usize,
    v: usize,
    b: usize,
) -> Result<(), Unmet>
    requires inside { (e < edges.now.m) × (v < edges.now.nodes) }
    requires ready { Ready edges.now.nodes pot.old queue.old }
    ensures { Visited edges.now.net.now pot.old pot.new queue.old queue.new e v b result }
{
    let u = edges.net[4 * e] as usize;
    let c = edges.net[4 * e + 2];
    let x = pot[v] + BIAS;
    if x <= pot[u] + c {
        return Ok(());
    }
    if u == b {
        return Err(Unmet::Ring);
    }
    if HIGH + c < x {
        return Err(Unmet::GivenUp);
    }
    queue.push(u)?;
    pot[u] = x - c;
    Ok(())
}

// Visit the box edges whose head is the origin.
fn visit_origin(
    edges: &ByHead<'_>,
    pot: &mut [u32; 81],
    queue: &mut Queue,
    b: usize,
) -> Result<(), Unmet>
    requires { Ready edges.now.nodes pot.old queue.old }
    ensures { Passes edges.now.net.now edges.now.m edges.now.nodes b pot.old queue.old pot.new queue.new result (AtNode edges.now.net.now 0) (Listed edges.now.net.now (2 * edges.now.nodes - 2) 1 0) }
{
    for u in 1..edges.nodes {
        visit(edges, pot, queue, 2 * u - 2, 0, b)?;
    }
    Ok(())
}

// Visit the box edges whose head is v.
fn visit_box(
    edges: &ByHead<'_>,
    pot: &mut [u32; 81],
    queue: &mut Queue,
    v: usize,
    b: usize,
) -> Result<(), Unmet>
    requires { Ready edges.now.nodes pot.old queue.old × (v < edges.now.nodes) }
    ensures { Passes edges.now.net.now edges.now.m edges.now.nodes b pot.old queue.old pot.new queue.new result (AtNode edges.now.net.now v) (Listed edges.now.net.now (2 * edges.now.nodes - 2) 1 v) }
{
    if v == 0 {
        visit_origin(edges, pot, queue, b)
    } else {
        visit(edges, pot, queue, 2 * v - 1, v, b)
    }
}

// Visit the other edges whose head is v.
fn visit_list(
    edges: &ByHead<'_>,
    pot: &mut [u32; 81],
    queue: &mut Queue,
    v: usize,
    b: usize,
) -> Result<(), Unmet>
    requires { Ready edges.now.nodes pot.old queue.old × (v < edges.now.nodes) }
    ensures { Passes edges.now.net.now edges.now.m edges.now.nodes b pot.old queue.old pot.new queue.new result (Listed edges.now.net.now (2 * edges.now.nodes - 2) 1 v) NoEdge }
{
    let mut next = edges.last(v);
    while let Some(e) = next {
        visit(edges, pot, queue, e, v, b)?;
        next = edges.before(e);
    }
    Ok(())
}

// Visit all edges whose head is v.
fn visit_node(
    edges: &ByHead<'_>,
    pot: &mut [u32; 81],
    queue: &mut Queue,
    v: usize,
    b: usize,
) -> Result<(), Unmet>
    requires { Ready edges.now.nodes pot.old queue.old × (v < edges.now.nodes) }
    ensures { Passes edges.now.net.now edges.now.m edges.now.nodes b pot.old queue.old pot.new queue.new result (AtNode edges.now.net.now v) NoEdge }
{
    visit_box(edges, pot, queue, v, b)?;
    visit_list(edges, pot, queue, v, b)
}

// Visit the edges of the nodes in the queue, until none is left.
fn spread(edges: &ByHead<'_>, pot: &mut [u32; 81], queue: &mut Queue, b: usize) -> Result<(), Unmet>
    requires { Ready edges.now.nodes pot.old queue.old }
    ensures { Spread edges.now.net.now edges.now.m edges.now.nodes b pot.old queue.old pot.new result }
{
    let mut s = 0;
    while s < queue.len() {
        let v = queue.at(s);
        visit_node(edges, pot, queue, v, b)?;
        s += 1;
    }
    Ok(())
}

// Lower all nodes by the potential of the origin.
fn shift(pot: &mut [u32; 81], nodes: usize)
    requires nodes_bound { nodes ≤ 81 }
    requires pot_len { (length pot.old ≡ 81) × ((v : ℕ) → v < nodes → at pot.old 0 ≤ at pot.old v) }
    ensures { Shifted pot.old pot.new nodes }
{
    let low = pot[0];
    if low == 0 {
        return;
    }
    for v in 0..nodes {
        pot[v] -= low;
    }
}

// Lift the potential until the demand of an edge from a to b at the biased cost c holds, which fails so far. Where it does not hold the potential is as it was.
pub fn lift(
    edges: &ByHead<'_>,
    pot: &mut [u32; 81],
    a: usize,
    b: usize,
    c: u32,
) -> Result<(), Unmet>
    requires potential { Potential edges.now.net.now edges.now.m pot.old }
    requires a_lt_nodes { (a < edges.now.nodes) × (b < edges.now.nodes) × (c ≤ 2000000) × (at pot.old a + c < at pot.old b + 1000000) }
    ensures { Lifts edges.now.net.now edges.now.m edges.now.nodes pot.old pot.new a b c result }
{
    if a == b {
        return Err(Unmet::GivenUp);
    }
    let old = *pot;
    let mut queue = Queue::new(a);
    pot[a] = pot[b] + BIAS - c;
    match spread(edges, pot, &mut queue, b) {
        Ok(()) => {
            shift(pot, edges.nodes);
            Ok(())
        }
        Err(unmet) => {
            *pot = old;
            Err(unmet)
        }
    }
}
