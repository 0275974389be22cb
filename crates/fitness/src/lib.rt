// Whether windows are fit, and what they count: the test on window ends, and the weighted total.
// Rests on `ticket` for the struct, on `temporal` for fitness and weights, on `potentials` and `demands` for the rules over nodes, and on `network` for sums.

#![tactic(auto)]

ghost use Rattle.std.specs.Prelude.{◌≡◌, ℕ, ◌*◌, ◌-◌, ◌<◌, ◌≤◌};
ghost use Rattle.temporal.specs.Ticket.{weight, total_of, total, fits};
ghost use Rattle.temporal.specs.Run.{Valid};
ghost use Rattle.network.specs.Stored.{at};
ghost use Rattle.ticket.specs.Writing.{firsts, content};
ghost use Rattle.potentials.specs.Arrays.{window_list, Lie};

// Whether windows within the horizon are fit.
pub fn fit(t: ticket::Ticket, opens: &[u32; 40], closes: &[u32; 40]) -> bool
    requires valid { Valid (content t) }
    requires lie { Lie t opens.now closes.now }
    ensures { fits (content t) (window_list t.events opens.now closes.now) ≡ result }
{
    let mut pot = [0u32; 81];
    potentials::lay(t.events, opens, closes, &mut pot);
    demands::obeyed(t, t.events, &pot)
}

// What a window counts.
fn part(owner: u8, opens: u32, closes: u32) -> u32
    requires { (opens ≤ closes) × (closes ≤ 1000000) }
    ensures { (result ≡ weight owner * (closes - opens)) × (result ≤ 3000000) }
{
    temporal::weight(owner) * (closes - opens)
}

// The weighted total width of n windows of these owners, none longer than the longest session.
pub fn total_of(n: usize, owners: &[u8; 40], opens: &[u32; 40], closes: &[u32; 40]) -> u32
    requires { (n ≤ 40) × ((i : ℕ) → i < n → (at opens.now i ≤ at closes.now i) × (at closes.now i ≤ 1000000)) }
    ensures { result ≡ total_of (firsts n (at owners.now)) (window_list n opens.now closes.now) }
{
    (0..n).map(|i| part(owners[i], opens[i], closes[i])).sum()
}

// The weighted total width of windows within the horizon.
pub fn total(t: ticket::Ticket, opens: &[u32; 40], closes: &[u32; 40]) -> u32
    requires valid { Valid (content t) }
    requires lie { Lie t opens.now closes.now }
    ensures { result ≡ total (content t) (window_list t.events opens.now closes.now) }
{
    total_of(t.events, &t.owners, opens, closes)
}
