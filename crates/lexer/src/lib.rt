// One step of the reader (parser/base): what stands at a place of a page. `s` is the page, `t` the lent table of marks. They go as they
// are, a slice and a place, as the paper asks of the page reader.

#![tactic(auto)]

ghost use Rattle.std.specs.Prelude.{◌≡◌, ◌≤◌, ◌<◌, length};
ghost use Rattle.rules.specs.Bytes.{is_ident};
ghost use Rattle.rules.specs.Scan.{skip, here, pass};
ghost use Rattle.rules.specs.Attributes.{onward as onward_at, not_closing, value_of, attribute_at, attributes_end};
ghost use Rattle.rules.specs.Lexer.{comment_end, comment_to, declaration_from, bang, tag, tag_to, closing, markup, item_at};
ghost use Rattle.scan.specs.Marks.{white_in};

use rules::{Attribute, Item};
use scan::Marks;

// ---- attributes

// Past the byte at a place, unless that closes the tag.
fn onward(t: &Marks, s: &[u8], at: usize) -> usize
    ensures { result ≡ onward_at s.now at }
{
    if t.closing_at(s, at) {
        return at;
    }
    scan::advance(s, at)
}

// What an attribute is given, with the `=` looked for at `eq`.
fn parse_value(t: &Marks, s: &[u8], eq: usize) -> Option<(usize, usize)>
    ensures { result ≡ value_of (white_in t.now) s.now eq }
{
    let from = scan::expect_and_skip(s, eq, b'=')?;
    let v = t.skip_whitespaces(s, from);
    let Some(q) = scan::current_cpy(s, v) else {
        return Some((v, v));
    };
    if (q == b'"') | (q == b'\'') {
        let start = v + 1;
        let end = scan::find(s, start, q);
        return Some((start, end));
    }
    let end = t.search_non_value(s, v);
    Some((v, end))
}

// The attribute whose name starts at the place. Inlined into each loop over attributes: a tag of many short ones is read a quarter faster.
// The end by a `match`: by `map_or` it was tried, and the proof did not close.
#[inline(always)]
pub fn parse_attribute(t: &Marks, s: &[u8], at: usize) -> Attribute
    ensures { result ≡ attribute_at (white_in t.now) s.now at }
{
    let stop = t.search_non_ident(s, at);
    let eq = t.skip_whitespaces(s, stop);
    let value = parse_value(t, s, eq);
    let end = match value {
        Some((_, end)) => end,
        None => eq,
    };
    let next = onward(t, s, end);
    Attribute {
        name: at,
        stop,
        value,
        next,
    }
}

// Whether an attribute starts at the place: the page does not end there, and no `/` or `>` stands there.
#[tactic(auto, unfolding(rules::specs::Places::current_at))]
pub fn starts_attribute(t: &Marks, s: &[u8], at: usize) -> bool
    ensures { result ≡ here not_closing s.now at }
{
    scan::current_cpy(s, at).is_some_and(|b| !t.is_closing(b))
}

// Where the attributes from a place on end: at a `/` or `>`, or at the end of the page. There is no index to count, since a step is an attribute
// long. Never inlined, so that a tag without attributes need not free the registers that the loop takes.
#[inline(never)]
fn skip_attributes(t: &Marks, s: &[u8], from: usize) -> usize
    requires { from ≤ length s.now }
    ensures { let p = s.now in result ≡ attributes_end (white_in t.now) (length p) p from }
{
    let mut at = t.skip_whitespaces(s, from);
    while starts_attribute(t, s, at) {
        let a = parse_attribute(t, s, at);
        at = t.skip_whitespaces(s, a.next);
    }
    at
}

// The same, with the loop entered only where there are attributes, at the first: the white before it may be long, and is read once.
fn parse_attributes(t: &Marks, s: &[u8], from: usize) -> usize
    requires { from ≤ length s.now }
    ensures { let p = s.now in result ≡ attributes_end (white_in t.now) (length p) p from }
{
    let at = t.skip_whitespaces(s, from);
    if starts_attribute(t, s, at) {
        return skip_attributes(t, s, at);
    }
    at
}

// ---- what begins with `<!`

// The search of `skip_comment_with_start`. Never inlined, for the tags' sake: without comments a page was read up to a tenth faster.
#[inline(never)]
fn search_comment(s: &[u8], start: usize, at: usize) -> Item
    ensures { let p = s.now in result ≡ comment_to p start (comment_end (length p) p at) }
{
    // Where fewer than three bytes are left no comment ends: one test of the bound for the three, which `is_comment` would make anew.
    let top = s.len().saturating_sub(2);
    // An index: a step is up to three bytes, or as far as the next `-`. The search is for where no `-` is near: begun at each single one, it
    // would take longer than the few bytes to the next.
    let mut i = at;
    while i < top {
        if s[i + 1] == b'-' {
            if s[i] == b'-' {
                if s[i + 2] == b'>' {
                    let end = i + 3;
                    return Item::Comment {
                        start,
                        end,
                        next: end,
                    };
                }
                // The byte that was no `>` is passed too, as tl does.
                i += 3;
            } else {
                i += 1;
            }
        } else if s[i] == b'-' {
            i += 2;
        } else {
            i = scan::find(s, i + 2, b'-');
        }
    }
    Item::Comment {
        start,
        end: start,
        next: s.len(),
    }
}

// A comment that starts at `start`, searched for its end from `at` on; empty where the page ends first. The end at `at` itself, that of
// `<!-->`, is seen before the call: with the call such a comment took half as long again.
fn skip_comment_with_start(s: &[u8], start: usize, at: usize) -> Item
    ensures { let p = s.now in result ≡ comment_to p start (comment_end (length p) p at) }
{
    if constants::is_comment(s, at) {
        if scan::is_at(s, at + 2, b'>') {
            let end = at + 3;
            return Item::Comment {
                start,
                end,
                next: end,
            };
        }
    }
    search_comment(s, start, at)
}

// A declaration whose name starts at the place: a document type, or nothing.
fn read_doctype(t: &Marks, s: &[u8], at: usize) -> Item
    requires { at ≤ length s.now }
    ensures { let p = s.now in
        let white = white_in t.now in
        result ≡ declaration_from white p at (skip is_ident p at) (skip white p (skip is_ident p at)) }
{
    let e = t.search_non_ident(s, at);
    let w = t.skip_whitespaces(s, e);
    if constants::is_doctype(&s[at..e]) {
        let f = t.search_non_ident(s, w);
        let html = constants::is_html(&s[w..f]);
        let g = t.skip_whitespaces(s, f);
        let next = scan::advance(s, g);
        return Item::Doctype { html, next };
    }
    Item::Nothing(w)
}

// What follows `<!`, with the `!` at the place: a comment, or a declaration.
fn read_markdown(t: &Marks, s: &[u8], at: usize) -> Item
    requires { (0 < at) × (at < length s.now) }
    ensures { result ≡ bang (white_in t.now) s.now at }
{
    if constants::is_comment(s, at + 1) {
        // The search begins at this same `--`, so that `<!-->` is a whole comment.
        return skip_comment_with_start(s, at - 1, at + 1);
    }
    read_doctype(t, s, at + 1)
}

// ---- tags

// A closing name from the place on.
fn read_end(s: &[u8], at: usize) -> Item
    ensures { result ≡ closing s.now at }
{
    let e = scan::find(s, at, b'>');
    let next = scan::advance(s, e);
    Item::Close {
        name: at,
        stop: e,
        next,
    }
}

// A tag whose name runs from `at` to `e`, with the `>` looked for at `c`; without it nothing.
fn end_tag(s: &[u8], at: usize, e: usize, c: usize, slash: bool) -> Item
    ensures { result ≡ tag_to s.now at e c slash }
{
    let Some(next) = scan::expect_and_skip(s, c, b'>') else {
        return Item::Nothing(c);
    };
    Item::Tag {
        name: at,
        stop: e,
        next,
        slash,
    }
}

// A tag whose name starts at the place.
fn read_tag(t: &Marks, s: &[u8], at: usize) -> Item
    requires { at ≤ length s.now }
    ensures { result ≡ tag (white_in t.now) s.now at }
{
    let e = t.search_non_ident(s, at);
    let a = parse_attributes(t, s, e);
    if scan::is_at(s, a, b'/') {
        return end_tag(s, at, e, a + 1, true);
    }
    end_tag(s, at, e, a, false)
}

// What follows a `<` at the place.
fn parse_tag(t: &Marks, s: &[u8], at: usize) -> Item
    requires { at < length s.now }
    ensures { let p = s.now in
        let white = white_in t.now in
        result ≡ markup white p (skip white p (pass p at)) }
{
    let q = t.skip_whitespaces(s, at + 1);
    let Some(b) = scan::current_cpy(s, q) else {
        return Item::Nothing(q);
    };
    if b == b'/' {
        return read_end(s, q + 1);
    }
    if b == b'!' {
        return read_markdown(t, s, q);
    }
    read_tag(t, s, q)
}

// What stands at the place: a text up to the next `<`, or what begins with `<`.
pub fn item_at(t: &Marks, s: &[u8], at: usize) -> Item
    ensures { result ≡ item_at (white_in t.now) s.now at }
{
    if scan::is_at(s, at, b'<') {
        return parse_tag(t, s, at);
    }
    Item::Text(scan::find(s, at, b'<'))
}
