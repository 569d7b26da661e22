// Names compared: parts of a page and of a profile by their places, not as slices, which would be cut once more for each of the two ends.

ghost use Rattle.std.specs.Prelude.{◌≡◌, ◌+◌, ◌≤◌, ◌<◌, length};
ghost use Rattle.profile.specs.Made.{same_run};

// Whether k bytes from a on are those from c on. It has no early exit, so that they are compared at once. Not `==` or a chain: with
// those the comparison of a void name of 4 to 8 bytes takes twice as long and more.
fn is_run(p: &[u8], a: usize, q: &[u8], c: usize, k: usize) -> bool
    requires { (a + k ≤ length p.now) × (c + k ≤ length q.now) }
    ensures { result ≡ same_run p.now a q.now c k }
{
    let mut ok = true;
    for j in 0..k {
        ok &= p[a + j] == q[c + j];
    }
    ok
}

// Whether n bytes from a on are those from c on: the first k and the last m of them, which may overlap.
#[tactic(auto, using(crate::proofs::Compared::both_runs))]
fn is_both(p: &[u8], a: usize, q: &[u8], c: usize, n: usize, k: usize, m: usize) -> bool
    requires { (a + n ≤ length p.now) × (c + n ≤ length q.now) × (k ≤ n) × (m ≤ n) × (n ≤ k + m) }
    ensures { result ≡ same_run p.now a q.now c n }
{
    is_run(p, a, q, c, k) & is_run(p, a + n - m, q, c + n - m, m)
}

// The same with k and m fixed by n, so that the loops over a short name are of a known length.
#[tactic(auto, using(crate::proofs::Compared::part_runs))]
pub(crate) fn is_bytes(p: &[u8], a: usize, q: &[u8], c: usize, n: usize) -> bool
    requires { (a + n ≤ length p.now) × (c + n ≤ length q.now) × (0 < n) }
    ensures { result ≡ same_run p.now a q.now c n }
{
    match n {
        0..=1 => is_both(p, a, q, c, n, 1, 1),
        2..=3 => is_both(p, a, q, c, n, 2, 1),
        4..=8 => is_both(p, a, q, c, n, 4, 4),
        _ => constants::is_same(&p[a..a + n], &q[c..c + n]),
    }
}
