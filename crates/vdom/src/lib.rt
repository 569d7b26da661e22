// Lookups by id and class in the scan manner, and queries (vdom, queryselector/iter): one walk over the handles of a document.
// `t` is the lent table of marks.

#![tactic(auto)]

ghost use Rattle.std.specs.Prelude.{◌≡◌, Bool, ℕ, ◌-◌, ◌^◌, ◌≤◌, ◌<◌, IfSome};
ghost use Rattle.rules.specs.Lists.{from};
ghost use Rattle.rules.specs.Sound.{count_of};
ghost use Rattle.rules.specs.Finds.{passing, by_id, by_class};
ghost use Rattle.rules.specs.Query.{among};
ghost use Rattle.rules.specs.Refusals.{Counts};
ghost use Rattle.rules.specs.Answers.{first_found};
ghost use Rattle.rules.specs.declared.Node.{Node};
ghost use Rattle.scan.specs.Marks.{white_in};
ghost use Rattle.piece.specs.Words.{pieces_from};
ghost use Rattle.matching.specs.Matching.{OpeningInPage};

use piece::Chain;
use rules::{Manner, Node, Refusal, View};
use scan::Marks;
use sound::Document;
use std::ops::Range;

// The one walk, over a range of the document's handles: on to the first that the view shows and whose node passes the test. Its callers ask
// that of the range too, since a `Range` knows no document.
fn find_next<F: Fn(Node) -> bool>(
    d: &Document,
    view: View,
    handles: Range<usize>,
    test: &F,
) -> Option<usize>
    requires rows { (handles.start ≤ handles.end) × (handles.end ≤ count_of d.now.table.now) }
    requires test { (n : Node) → OpeningInPage d.now.page.now n → F.pre test.now n }
    ensures within { IfSome result (λ h. (handles.start ≤ h) × (h < handles.end) × (h < 2 ^ 32)) }
    ensures first { let all = from handles.start (handles.end - handles.start) in
        (P : Node → Bool) → ((n : Node) (b : Bool) → F.post test.now n b → b ≡ P n)
        → result ≡ first_found (passing view P d.now.table.now all) }
{
    for h in handles {
        let row = d.row(h);
        if view.shows(&row) && test(row) {
            return Some(h);
        }
    }
    None
}

// Writes all of these into out, in order, or clears out where it has no room.
fn find_all<F: Fn(Node) -> bool>(
    d: &Document,
    view: View,
    handles: Range<usize>,
    test: &F,
    out: &mut [u32],
) -> Result<usize, Refusal>
    requires rows { (handles.start ≤ handles.end) × (handles.end ≤ count_of d.now.table.now) }
    requires test { (n : Node) → OpeningInPage d.now.page.now n → F.pre test.now n }
    ensures { let all = from handles.start (handles.end - handles.start) in
        (P : Node → Bool) → ((n : Node) (b : Bool) → F.post test.now n b → b ≡ P n)
        → Counts (passing view P d.now.table.now all) out.old result out.new }
{
    let mut n = 0;
    let mut rest = handles;
    // A turn is as long as the way to the next find: there is no index to count.
    while let Some(h) = find_next(d, view, rest.start..rest.end, test) {
        if out.len() <= n {
            return table::refuse(out, Refusal::BufferTooShort);
        }
        out[n] = h as u32;
        n += 1;
        rest.start = h + 1;
    }
    Ok(n)
}

// get_element_by_id: the lowest handle that the view shows. Marks, document and name go as they are, here and below: a struct of them would be
// handed to nothing.
pub fn id_scan(t: &Marks, d: &Document, view: View, name: &[u8]) -> Option<usize>
    ensures { result ≡ first_found (by_id (white_in t.now) d.now.page.now d.now.table.now (Manner.Scan view) name.now) }
{
    let has_id = |n: Node| matching::has_id(t, d.page, n, name);
    find_next(d, view, 0..d.count(), &has_id)
}

// get_elements_by_class_name: each tag once that the view shows.
pub fn class_scan(
    t: &Marks,
    d: &Document,
    view: View,
    name: &[u8],
    out: &mut [u32],
) -> Result<usize, Refusal>
    ensures { let finds = by_class (white_in t.now) d.now.page.now d.now.table.now (Manner.Scan view) name.now in
        Counts finds out.old result out.new }
{
    let holds = |n: Node| matching::class_times(t, d.page, n, name) != 0;
    find_all(d, view, 0..d.count(), &holds, out)
}

// query_selector over these handles, as far as the view shows them.
pub fn query(
    t: &Marks,
    d: &Document,
    view: View,
    handles: Range<usize>,
    chain: &Chain,
    out: &mut [u32],
) -> Result<usize, Refusal>
    requires { (handles.start ≤ handles.end) × (handles.end ≤ count_of d.now.table.now) }
    ensures { let k = chain.now in
        let all = from handles.start (handles.end - handles.start) in
        let finds = among (white_in t.now) d.now.page.now d.now.table.now view k.text.now all (pieces_from k.pieces k.words.now 0) in
        Counts finds out.old result out.new }
{
    let matches = |n: Node| matching::matches(t, d.page, n, chain);
    find_all(d, view, handles, &matches, out)
}
