// What lies below a tag: the range of its handles, and its inner text. h is one of the document's handles, a number as the calls are
// given it; a node is words alone, and holds no page.

ghost use Rattle.std.specs.Prelude.{◌≡◌, ◌+◌, ◌^◌, ◌≤◌, ◌<◌, length};
ghost use Rattle.rules.specs.Sound.{count_of};
ghost use Rattle.rules.specs.Text.{inner_text};
ghost use Rattle.rules.specs.Buffers.{Wrote};
ghost use Rattle.rules.specs.Answers.{range_of};
ghost use Rattle.tag.specs.Tag.{node_text};

use crate::buffer::copy;
use rules::Node;
use sound::Document;

// HTMLTag::children, as a range: those after h up to its last. Not by `then_some`, which would add to h before the test that h + 1 fits.
pub fn range(h: usize, last: usize) -> Option<(usize, usize)>
    ensures { result ≡ range_of h last }
{
    if h < last {
        return Some((h + 1, last));
    }
    None
}

// The bytes of a text node; another node has none.
pub fn text_of<'a>(page: &'a [u8], n: Node) -> &'a [u8]
    requires { (n.start ≤ n.end) × (n.end ≤ length page.now) }
    ensures text { result.now ≡ node_text page.now n }
    ensures size { length result.now < 2 ^ 32 }
{
    if n.is_text() {
        return &page[n.start as usize..n.end as usize];
    }
    &page[..0]
}

// How many bytes the inner text has. A loop: by `map` and `sum` it was tried, and the proof that the total fits did not close. An iterator
// of the texts for this walk and that of `flat_text` would be longer, with its contract, than the two loops.
pub fn text_length(d: &Document, h: usize) -> usize
    requires { h < count_of d.now.table.now }
    ensures { result ≡ length (inner_text d.now.page.now d.now.table.now h) }
{
    let last = d.row(h).last as usize;
    let mut size = 0;
    for k in h + 1..last + 1 {
        size += text_of(d.page, d.row(k)).len();
    }
    size
}

// The inner text by a flat walk over the range.
fn flat_text(d: &Document, h: usize, out: &mut [u8], at: usize) -> usize
    requires handle { h < count_of d.now.table.now }
    requires room { at + length (inner_text d.now.page.now d.now.table.now h) ≤ length out.old }
    ensures { Wrote out.old at (inner_text d.now.page.now d.now.table.now h) out.new result }
{
    let last = d.row(h).last as usize;
    let mut i = at;
    for k in h + 1..last + 1 {
        i = copy(text_of(d.page, d.row(k)), out, i);
    }
    i
}

// HTMLTag::inner_text: writes the inner text of h into out from `at` on, and answers the place after it. It descends child by
// child; below `depth` levels the flat walk, which gives the same, goes on, so that no table exhausts the stack.
pub fn inner_text(d: &Document, h: usize, out: &mut [u8], at: usize, depth: usize) -> usize
    requires handle { h < count_of d.now.table.now }
    requires room { at + length (inner_text d.now.page.now d.now.table.now h) ≤ length out.old }
    ensures { Wrote out.old at (inner_text d.now.page.now d.now.table.now h) out.new result }
{
    if depth == 0 {
        return flat_text(d, h, out, at);
    }
    let last = d.row(h).last as usize;
    let mut i = at;
    let mut k = h;
    // A step is as long as the child's range: there is no index to count.
    while k < last {
        // the first child is the next row, the next sibling the row after a child's last
        let child = k + 1;
        let n = d.row(child);
        if n.is_tag() {
            i = inner_text(d, child, out, i, depth - 1);
        } else {
            i = copy(text_of(d.page, n), out, i);
        }
        k = n.last as usize;
    }
    i
}
