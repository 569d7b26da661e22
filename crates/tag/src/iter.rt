// The attributes of a tag, one after the other. `t` is the lent table of marks.

ghost use Rattle.std.specs.Iterator.{YieldsFirst, item_count};
ghost use Rattle.std.specs.Prelude.{◌≡◌};
ghost use Rattle.scan.specs.Marks.{white_in};
ghost use Rattle.tag.specs.Tag.{GoesOn, left, next_attribute};

use rules::Attribute;
use scan::Marks;

// The attribute after the white from i on; there is none at the end, nor at a `/` or `>`. Apart from the iterator, whose law speaks of it.
// Inlined into each loop over attributes: a tag that has none is then asked without a call.
#[inline(always)]
pub fn next_attribute(t: &Marks, page: &[u8], i: usize) -> Option<Attribute>
    ensures { result ≡ next_attribute (white_in t.now) page.now i }
{
    let at = t.skip_whitespaces(page, i);
    if !lexer::starts_attribute(t, page, at) {
        return None;
    }
    Some(lexer::parse_attribute(t, page, at))
}

// The attributes of a tag, in order, from `at` on.
#[derive(Drop)]
pub struct Attributes<'a> {
    pub marks: &'a Marks,
    pub page: &'a [u8],
    pub at: usize,
}

impl<'a> Iterator for Attributes<'a> {
    type Item = Attribute;

    ghost next_gives = { λ s r t. YieldsFirst left s r t × GoesOn s r t };

    ghost remaining = { item_count left };

    #[inline(always)]
    fn next(&mut self) -> Option<Attribute> {
        let a = next_attribute(self.marks, self.page, self.at)?;
        self.at = a.next;
        Some(a)
    }
}
