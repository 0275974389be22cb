// The least costs of walks to one root, by the number of their rules and the point that they start from.
// What a root's table holds stands in specs/WalkTable.antt.

ghost use Rattle.std.specs.Prelude.{◌≡◌, ℕ, ◌+◌, ◌*◌, ◌<◌, ◌≤◌, min, length, get_or, set};
ghost use Rattle.ring.specs.FirstOr.{FirstOr};
ghost use Rattle.ring.specs.WalkTable.{cell};

use network::BIAS;

#[derive(Drop)]
pub(crate) struct Walks {
    // Row r and column p, of 42 and 41, is for the walks of exactly r rules from point p.
    costs: [u32; 1722],
    ghost most: { (i : ℕ) → get_or costs i 0 ≤ 1000000000 },
}

impl Walks {
    // This stands for "no walk".
    const TOP: u32 = 1_000_000_000;

    // A table with no walk in it.
    pub(crate) fn none() -> Self {
        Walks {
            costs: [Self::TOP; 1722],
        }
    }

    // Forget all walks.
    pub(crate) fn clear(&mut self)
        ensures { (length self.new.costs ≡ 1722) × ((i : ℕ) → i < 1722 → get_or self.new.costs i 0 ≡ 1000000000) }
    {
        self.costs.fill(Self::TOP);
    }

    // The least cost of a walk of r rules from point p.
    pub(crate) fn at(&self, r: usize, p: u8) -> u32
        requires { (r ≤ 41) × (p ≤ 40) }
        ensures { result ≡ cell self.now.costs r p }
    {
        self.costs[41 * r + usize::from(p)]
    }

    // Store the cost of one walk more.
    pub(crate) fn lower(&mut self, r: usize, p: u8, cost: u32)
        requires { (r ≤ 41) × (p ≤ 40) }
        ensures { self.new.costs ≡ set self.old.costs (41 * r + p) (min (cell self.old.costs r p) cost) }
    {
        let place = 41 * r + usize::from(p);
        self.costs[place] = self.costs[place].min(cost);
    }

    // The fewest rules, below `best`, of a ring through the root q; `best` if there is none.
    // Of an Option its caller would take `best` for None.
    pub(crate) fn nearer(&self, q: u8, best: usize) -> usize
        requires { (q ≤ 40) × (1 ≤ best) × (best ≤ 42) }
        ensures { FirstOr (λ x. cell self.now.costs x q < x * 1000000) best result }
    {
        for r in 1..best {
            if self.at(r, q) < (r as u32) * BIAS {
                return r;
            }
        }
        best
    }
}
