// The matrix of distances between the points of a network: its first entries, its closing stop by stop, and its writing to an output.
// The working array has 41 rows of 41 entries. An entry is a true number plus BIAS, or NONE where there is no path yet.
// Rests on `temporal`, whose rules and schedules the entries are about, and on `paths`, whose shortest paths they are.

#![tactic(auto)]

ghost use Rattle.std.specs.Prelude.{◌≡◌, ◌≢◌, ℕ, ◌+◌, ◌*◌, ◌-◌, ◌≤◌, min, pos, negsuc, ◌≤ℤ◌, length, set, slice_index};
ghost use Rattle.closure.specs.Signed.{raise, lower};
ghost use Rattle.closure.specs.Matrix as matrix;
ghost use Rattle.closure.specs.Matrix.{entry, none, Everywhere, Stored};
ghost use Rattle.closure.specs.Start as start;
ghost use Rattle.closure.specs.Plain.{Pathless};
ghost use Rattle.closure.specs.Stops.{after, Floors, AboveFloors};
ghost use Rattle.closure.specs.Meaning.{Carried};
ghost use Rattle.closure.specs.Steps.{Checked, Closed, Written};
ghost use Rattle.closure.specs.Rows.{StoredRows, RowRelaxed, RowChecked};
ghost use Rattle.closure.specs.Written.{RowWritten};

const BIAS: u64 = 2_000_000;

// No true entry of a network with a schedule is below -1_000_000.
const LEAST: u64 = 1_000_000;

// No path. An `Option<u64>` in each entry would double the array, which stands on the stack, and what the innermost loop reads.
const NONE: u64 = 9_000_000_000_000_000_000;

// What an output says where there is no path yet.
const NO_PATH: i32 = 2_147_483_647;

// A path of two parts.
#[tactic(auto, unfolding(crate::specs::Matrix::join))]
fn join(a: u64, b: u64) -> u64
    requires stored { Stored a }
    requires stored_2 { Stored b }
    ensures { result ≡ matrix.join a b }
{
    if a == NONE || b == NONE {
        return NONE;
    }
    a + b - BIAS
}

// Entries with no path; as a call's result they are no list of 1,681 literals in the proofs.
fn pathless() -> [u64; 1681]
    ensures { Pathless result }
{
    [NONE; 1681]
}

// The entries before any rule: every event lies in 0 to h. The last store of a turn is the one that counts where i is 0.
pub fn unruled(h: u64) -> [u64; 1681]
    requires { h ≤ 1000000 }
    ensures { (length result ≡ 1681) × Everywhere 40 (λ i j. entry result i j ≡ start.plain h i j) }
{
    let mut w = pathless();
    for i in 0..41 {
        w[i] = BIAS + h;
        w[41 * i] = BIAS;
        w[41 * i + i] = BIAS;
    }
    w
}

// A bound as an entry.
fn raised(c: i32) -> u64
    requires { (negsuc 999999 ≤ℤ c) × (c ≤ℤ pos 1000000) }
    ensures { result ≡ raise c }
{
    (c + 2_000_000) as u64
}

// An entry as a signed number.
fn lowered(x: u64) -> i32
    requires { x ≤ 43000000 }
    ensures { result ≡ lower x }
{
    (x as i32) - 2_000_000
}

// An entry as an output says it.
fn shown(x: u64) -> i32
    requires { x ≢ none → x ≤ 43000000 }
    ensures { result ≡ matrix.shown x }
{
    if x == NONE {
        return NO_PATH;
    }
    lowered(x)
}

// The place of the entry from i to j.
pub fn place_of(i: u8, j: u8) -> usize
    requires { (i ≤ 40) × (j ≤ 40) }
    ensures { result ≡ 41 * i + j }
{
    41 * usize::from(i) + usize::from(j)
}

// An entry beside a bound.
pub fn bounded(x: u64, c: i32) -> u64
    requires { (negsuc 999999 ≤ℤ c) × (c ≤ℤ pos 1000000) }
    ensures { result ≡ min x (raise c) }
{
    x.min(raised(c))
}

// The row k, apart: a loop that read it in the array, where it stores another row, would run entry by entry. It is stored in a lent array, since an answer is copied
// three times.
fn row_of(w: &[u64; 1681], k: usize, row: &mut [u64; 41])
    requires { k ≤ 40 }
    ensures { (j : ℕ) → j ≤ 40 → slice_index row.new j ≡ entry w.now k j }
{
    row.copy_from_slice(&w[41 * k..41 * k + 41]);
}

// The row i after the stop k, whose row is lent as it was before the stop.
fn relax_row(w: &mut [u64; 1681], n: usize, k: usize, i: usize, row: &[u64; 41])
    requires n_bound { (n ≤ 40) × (k ≤ n) × (i ≤ n) × (length w.old ≡ 1681) }
    requires stored_rows { StoredRows n i (slice_index row.now) (entry w.old) }
    ensures { (length w.new ≡ 1681) × RowRelaxed n k i (slice_index row.now) (entry w.old) (entry w.new) }
{
    let a = w[41 * i + k];
    if a == NONE {
        return;
    }
    for j in 0..n + 1 {
        w[41 * i + j] = w[41 * i + j].min(join(a, row[j]));
    }
}

// The stop k, after the stops n down to k + 1: paths may also go through k.
// Where the entries were the shortest paths by the stops taken, they are now those by k too.
pub fn stop(w: &mut [u64; 1681], n: usize, k: usize)
    requires n_bound { (n ≤ 40) × (k ≤ n) × (length w.old ≡ 1681) }
    requires everywhere { Everywhere n (λ i j. Stored (entry w.old i j)) }
    ensures w_len { length w.new ≡ 1681 }
    ensures everywhere_2 { Everywhere n (λ i j. entry w.new i j ≡ matrix.relax (entry w.old) k i j) }
    ensures carried { Carried n (n - k) (entry w.old) (n - k + 1) (entry w.new) }
{
    let mut row = [0u64; 41];
    row_of(w, k, &mut row);
    for i in 0..n + 1 {
        relax_row(w, n, k, i, &row);
    }
}

// No entry of the row i is below its floor.
fn row_possible(w: &[u64; 1681], n: usize, i: usize) -> bool
    requires { (n ≤ 40) × (i ≤ n) }
    ensures { RowChecked n i (entry w.now) result }
{
    if w[41 * i + i] < BIAS {
        return false;
    }
    for j in 0..n + 1 {
        if w[41 * i + j] < LEAST {
            return false;
        }
    }
    true
}

// No entry is below its floor.
fn possible(w: &[u64; 1681], n: usize) -> bool
    requires { n ≤ 40 }
    ensures { Checked n (entry w.now) result }
{
    for i in 0..n + 1 {
        if !row_possible(w, n, i) {
            return false;
        }
    }
    true
}

// The stops, from n down to 0, until an entry falls below its floor: whether none did.
pub fn closure(w: &mut [u64; 1681], n: usize) -> bool
    requires n_bound { (n ≤ 40) × (length w.old ≡ 1681) }
    requires floors { Floors n (entry w.old) }
    requires everywhere { Everywhere n (λ i j. entry w.old i j ≤ none) }
    ensures { Closed n (entry w.old) (entry w.new) result }
{
    for k in (0..=n).rev() {
        stop(w, n, k);
        if !possible(w, n) {
            return false;
        }
    }
    true
}

// The first `count` of the stops n down to 0.
pub fn take_stops(w: &mut [u64; 1681], n: usize, count: usize)
    requires n_bound { (n ≤ 40) × (count ≤ n + 1) × (length w.old ≡ 1681) }
    requires above_floors { AboveFloors n (entry w.old) count }
    requires everywhere { Everywhere n (λ i j. entry w.old i j ≤ none) }
    ensures { Everywhere n (λ i j. entry w.new i j ≡ after n (entry w.old) count i j) }
{
    for taken in 0..count {
        stop(w, n, n - taken);
    }
}

// The entry x from i to j is stored as a signed number.
fn put(out: &mut [i32], n: usize, i: usize, j: usize, x: u64)
    requires { (n ≤ 40) × (1681 ≤ length out.old) × (i ≤ n) × (j ≤ n) × (x ≢ none → x ≤ 43000000) }
    ensures { out.new ≡ set out.old (i * (n + 1) + j) (matrix.shown x) }
{
    out[i * (n + 1) + j] = shown(x);
}

// The entries of the row i are stored.
fn write_row(w: &[u64; 1681], n: usize, i: usize, out: &mut [i32])
    requires n_bound { (n ≤ 40) × (1681 ≤ length out.old) × (i ≤ n) }
    requires everywhere { Everywhere n (λ i j. entry w.now i j ≢ none → entry w.now i j ≤ 43000000) }
    ensures { RowWritten n i (n + 1) (entry w.now) out.old out.new }
{
    for j in 0..n + 1 {
        put(out, n, i, j, w[41 * i + j]);
    }
}

// All entries between points of the network are stored, row by row.
pub fn write(w: &[u64; 1681], n: usize, out: &mut [i32])
    requires n_bound { (n ≤ 40) × (1681 ≤ length out.old) }
    requires everywhere { Everywhere n (λ i j. entry w.now i j ≢ none → entry w.now i j ≤ 43000000) }
    ensures { Written n (entry w.now) out.old out.new }
{
    for i in 0..n + 1 {
        write_row(w, n, i, out);
    }
}
