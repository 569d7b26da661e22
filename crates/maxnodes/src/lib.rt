// How many nodes a page of so many bytes may have. The bound is stated in specs/ and proved in proofs/; here a page is written
// that attains it.

#![tactic(auto)]

ghost use Rattle.std.specs.Prelude.{◌≡◌, length};
ghost use Rattle.maxnodes.specs.Bound.{following, densest};

// The byte after b in `a<>a<>`.
fn following(b: u8) -> u8
    ensures { result ≡ following b }
{
    match b {
        b'a' => b'<',
        b'<' => b'>',
        _ => b'a',
    }
}

// Fills the bytes lent with the page `a<>a<>..`: no page of so many bytes has more nodes. The byte goes from turn to turn, as `densest`
// says it, where a cycle of the three would count places.
#[tactic(auto, unfolding(crate::specs::Bound::cycle))]
pub fn fill(out: &mut [u8])
    ensures { out.new ≡ densest (length out.old) }
{
    let mut b = b'a';
    for byte in out {
        *byte = b;
        b = following(b);
    }
}
