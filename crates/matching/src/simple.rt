// One simple selector for a node of a page, and the tests of its id and its class.

ghost use Rattle.std.specs.Prelude.{◌≡◌};
ghost use Rattle.std.specs.Fn.{FnReturnsAtPair};
ghost use Rattle.rules.specs.Lookup.{answer};
ghost use Rattle.rules.specs.Finds.{node_has_id, node_class_times};
ghost use Rattle.rules.specs.Query.{name_of, span_text, tag_fits, node_fits};
ghost use Rattle.scan.specs.Marks.{white_in};
ghost use Rattle.matching.specs.Matching.{ValueFits, OpeningInPage};

use crate::values::Candidate;
use constants::is_same;
use rules::{Node, Simple, Span};
use scan::Marks;
use tag::Tag;
use words::White;

// The bytes of a name in the selector.
fn text(s: &[u8], a: Span) -> &[u8]
    ensures { result.now ≡ span_text s.now a }
{
    scan::part(s, a.start as usize, a.end as usize)
}

// ---- a tag

impl Candidate<'_, '_> {
    // `[a=b]` and its like: the attribute a has a value that fits the text b.
    fn compare<F: Fn(&[u8], &[u8]) -> bool>(&self, s: &[u8], a: Span, b: Span, fits: F) -> bool
        requires { F.IsAlwaysCallable fits }
        ensures { let held = answer (white_in self.now.marks.now) self.now.tag.page.now self.now.tag.node (span_text s.now a) in
            let k = span_text s.now b in
            ValueFits (λ v b. FnReturnsAtPair F.Fn fits v k b) k held result }
    {
        self.has_value(text(s, a), text(s, b), fits)
    }

    // A simple selector of s fits it.
    #[inline(always)]
    fn fits(&self, s: &[u8], x: Simple) -> bool
        ensures { let p = self.now.tag.page.now in
            let n = self.now.tag.node in
            result ≡ tag_fits s.now (name_of p n) (answer (white_in self.now.marks.now) p n) x }
    {
        match x {
            Simple::Tag(a) => is_same(self.tag.name(), text(s, a)),
            Simple::Id(a) => self.has_value(b"id", text(s, a), is_same),
            Simple::Class(a) => self.has_class(text(s, a)),
            Simple::All => true,
            Simple::Attribute(a) => self.has_attribute(text(s, a)),
            Simple::AttributeValue(a, b) => self.compare(s, a, b, is_same),
            Simple::AttributeValueWhitespacedContains(a, b) => {
                self.compare(s, a, b, |v, k| words::has_word(v, k, White::Unicode))
            }
            Simple::AttributeValueStartsWith(a, b) => self.compare(s, a, b, words::starts_with),
            Simple::AttributeValueEndsWith(a, b) => self.compare(s, a, b, words::ends_with),
            Simple::AttributeValueSubstring(a, b) => self.compare(s, a, b, words::contains),
        }
    }
}

// ---- a node of a page: only a tag has an id and classes. Each of the three begins with that test, and answers otherwise where it fails.
// Page and node go as two, since the node may be no tag.

// The node is a tag with that id.
pub fn has_id(t: &Marks, page: &[u8], n: Node, name: &[u8]) -> bool
    requires { OpeningInPage page.now n }
    ensures { result ≡ node_has_id (white_in t.now) page.now name.now n }
{
    if !n.is_tag() {
        return false;
    }
    let tag = Tag { page, node: n };
    Candidate { tag, marks: t }.has_value(b"id", name, is_same)
}

// How many times the node's class value holds the name, as a word.
pub fn class_times(t: &Marks, page: &[u8], n: Node, name: &[u8]) -> usize
    requires { OpeningInPage page.now n }
    ensures { result ≡ node_class_times (white_in t.now) page.now name.now n }
{
    if !n.is_tag() {
        return 0;
    }
    let tag = Tag { page, node: n };
    Candidate { tag, marks: t }.class_times(name)
}

// The simple selector fits the node. `*` fits every node, the others only tags.
pub fn fits(t: &Marks, page: &[u8], n: Node, s: &[u8], x: Simple) -> bool
    requires { OpeningInPage page.now n }
    ensures { result ≡ node_fits (white_in t.now) page.now s.now n x }
{
    if n.is_tag() {
        let tag = Tag { page, node: n };
        return Candidate { tag, marks: t }.fits(s, x);
    }
    matches!(x, Simple::All) // a text or a comment
}
