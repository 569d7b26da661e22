// What a tag holds for a name: the first of its attributes that has the name, or the last. `t` is the lent table of marks. `first_of`,
// `last_of` and `get` take it with the page and a place: as methods of `Attributes` they were tried, and lookups by id took two fifths
// longer.

ghost use Rattle.std.specs.Prelude.{◌≡◌, false, ◌≤◌, length};
ghost use Rattle.rules.specs.Scan.{part, same};
ghost use Rattle.rules.specs.Words.{Within};
ghost use Rattle.rules.specs.Lookup.{is_last, held_as, attributes, first_of, last_of, lookup_from};
ghost use Rattle.scan.specs.Marks.{white_in};

use crate::iter::Attributes;
use rules::{Attribute, Held};
use scan::Marks;

// Whether the attribute has the name. That it lies in the page is asked for: an attribute is places alone, and holds no page.
pub fn is_named(page: &[u8], a: Attribute, name: &[u8]) -> bool
    requires { (a.name ≤ a.stop) × (a.stop ≤ length page.now) }
    ensures { result ≡ same (part page.now a.name a.stop) name.now }
{
    let from = a.name;
    let stop = a.stop;
    constants::is_same(&page[from..stop], name)
}

// What an attribute holds, if without a value it holds `bare`. By `map_or` it would be as long: a default and a closure for two arms.
pub fn held(bare: Held, value: Option<(usize, usize)>) -> Held
    ensures { result ≡ held_as bare value }
{
    match value {
        None => bare,
        Some((a, e)) => Held::Value(a, e),
    }
}

// The first attribute of that name, from `from` on. No plainer by `find`: what it found, or not, would want a `match` of its own.
fn first_of(t: &Marks, page: &[u8], from: usize, name: &[u8]) -> Held
    ensures { let p = page.now in
        let white = white_in t.now in
        result ≡ first_of white p name.now (attributes white p (length p) from) }
{
    let attributes = Attributes {
        marks: t,
        page,
        at: from,
    };
    for a in attributes {
        if is_named(page, a, name) {
            return held(Held::Bare, a.value);
        }
    }
    Held::Absent
}

// Whether the name may stand from i on. Where it does not, no attribute there has it.
fn may_follow(page: &[u8], i: usize, name: &[u8]) -> bool
    requires { i ≤ length page.now }
    ensures { result ≡ false → Within name.now (part page.now i (length page.now)) → ⊥ }
{
    if page.len() - i < name.len() {
        return false;
    }
    scan::may_hold(page, i, page.len(), name)
}

// The last attribute of that name, from `from` on; without a value it is absent. After one was found, the rest is read only if the
// name may stand in it. That search ends where the name may stand, and the next starts after an attribute that has it: linear.
fn last_of(t: &Marks, page: &[u8], from: usize, name: &[u8]) -> Held
    ensures { let p = page.now in
        let white = white_in t.now in
        result ≡ last_of white p name.now Held.Absent (attributes white p (length p) from) }
{
    let mut found = Held::Absent;
    let attributes = Attributes {
        marks: t,
        page,
        at: from,
    };
    for a in attributes {
        if is_named(page, a, name) {
            found = held(Held::Absent, a.value);
            if !may_follow(page, a.next, name) {
                return found;
            }
        }
    }
    found
}

// Of `id` and `class` the last counts, of other names the first.
pub fn is_last(name: &[u8]) -> bool
    ensures { result ≡ is_last name.now }
{
    constants::is_same(name, b"id") | constants::is_same(name, b"class")
}

// Attributes::get: what a tag whose name stops at `stop` holds for the name, on a page that ends at its opening `>`.
pub(crate) fn get(t: &Marks, page: &[u8], stop: usize, name: &[u8]) -> Held
    requires { stop ≤ length page.now }
    ensures { result ≡ lookup_from (white_in t.now) page.now stop name.now }
{
    if is_last(name) {
        return last_of(t, page, stop, name);
    }
    first_of(t, page, stop, name)
}
