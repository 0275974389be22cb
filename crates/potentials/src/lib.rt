// Windows in arrays as potentials of a network's nodes, and back; and the boxes of a commitment.
// Event i + 1 has the places i of the arrays, its open is node i + 1 and its close node n + i + 1. Node 0 is the start.
// Rests on `ticket` for the struct, on `temporal` for windows, and on `network` for lists read by their places.

#![tactic(auto)]

ghost use Rattle.std.specs.Prelude.{◌≡◌, cond, ℕ, suc, ◌+◌, ◌<◌, ◌≤◌, eqb, length, set};
ghost use Rattle.network.specs.Stored.{at};
ghost use Rattle.potentials.specs.Pairs.{Nodes, Pairs, loosened, Read};

// The potential of windows.
pub fn lay(n: usize, opens: &[u32; 40], closes: &[u32; 40], pot: &mut [u32; 81])
    requires n_bound { n ≤ 40 }
    requires nodes { Nodes pot.old }
    ensures { Pairs n (at opens.now) (at closes.now) pot.new n }
{
    pot[1..=n].copy_from_slice(&opens[..n]);
    pot[n + 1..=2 * n].copy_from_slice(&closes[..n]);
}

// From the times of the points to the potential of windows that open and close at them.
pub fn spread(n: usize, pot: &mut [u32; 81])
    requires n_bound { n ≤ 40 }
    requires nodes { Nodes pot.old }
    ensures { Pairs n (λ (i : ℕ). at pot.old (suc i)) (λ (i : ℕ). at pot.old (suc i)) pot.new n }
{
    pot.copy_within(1..=n, n + 1);
}

// The windows of a potential, event by event: a copy of `n` numbers would have the archives for C need `memmove`.
pub fn read_windows(n: usize, pot: &[u32; 81], opens: &mut [u32; 40], closes: &mut [u32; 40])
    requires n_bound { n ≤ 40 }
    requires opens_len { (length opens.old ≡ 40) × (length closes.old ≡ 40) }
    ensures { Read n pot.now opens.old closes.old opens.new closes.new n }
{
    for i in 0..n {
        opens[i] = pot[i + 1];
        closes[i] = pot[n + i + 1];
    }
}

// Let the window of event i + 1 grow, unless it is committed.
fn free(low: &mut [u32; 81], high: &mut [u32; 81], flag: u8, horizon: u32, n: usize, i: usize)
    requires { (n ≤ 40) × (i < n) × (length low.old ≡ 81) × (length high.old ≡ 81) }
    ensures low_after { low.new ≡ cond (eqb flag 1) low.old (set low.old (i + 1) 0) }
    ensures high_after { high.new ≡ cond (eqb flag 1) high.old (set high.old (n + i + 1) horizon) }
{
    if flag == 1 {
        return;
    }
    low[i + 1] = 0;
    high[n + i + 1] = horizon;
}

// The boxes of a commitment, from the potential of its windows: a window whose flag is set stays, another may grow.
pub fn limits(horizon: u32, n: usize, flags: &[u8; 40], low: &mut [u32; 81], high: &mut [u32; 81])
    requires n_bound { n ≤ 40 }
    requires low_len { (length low.old ≡ 81) × (length high.old ≡ 81) }
    ensures low_after { low.new ≡ loosened 0 0 flags.now n low.old }
    ensures high_after { high.new ≡ loosened n horizon flags.now n high.old }
{
    for i in 0..n {
        free(low, high, flags[i], horizon, n, i);
    }
}
