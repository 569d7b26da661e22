// The public calls: each answers for every page, table, handle, name and buffer, and refuses in the order of the numbers. Page and table come
// as two slices, and a handle as a number, as the C interface lends them; the checks make a document of the first two.

#![tactic(auto)]

ghost use Rattle.std.specs.Prelude.{◌≡◌, ◌-◌, ◌≤◌, ◌<◌, length};
ghost use Rattle.rules.specs.Profile.{white_of, settings_of};
ghost use Rattle.rules.specs.Query.{among};
ghost use Rattle.rules.specs.Refusals.{Leaves, Counts, asked_numbers};
ghost use Rattle.rules.specs.Lists.{from};
ghost use Rattle.rules.specs.Sound.{count_of};
ghost use Rattle.rules.specs.Text.{inner_text};
ghost use Rattle.rules.specs.Finds.{by_class};
ghost use Rattle.rules.specs.Answers.{range_answer, text_answer, text_buffer, attribute_answer, attribute_part, id_answer, class_answer};
ghost use Rattle.rules.specs.Answers.{class_buffer, query_answer, query_buffer, query_below_answer, query_below_buffer};
ghost use Rattle.calls.specs.Calls.{Selects};

use checks::{Checked, check, check_tag};
use piece::Chain;
use profile::SIZE;
use rules::{Held, Manner, Refusal, View};
use sound::Document;
use std::ops::Range;
use tag::Tag;

// How deep `inner_text` descends by recursion before a flat walk goes on.
const DEPTH: usize = 64;

// ---- the calls: here and below one that writes clears its buffer where it refuses, by a `match`, since `?` would leave it as it was

// The handles below a tag.
#[tactic(auto, unfolding(rules::specs::Answers::range_answer))]
pub fn range(
    profile: &[u8; SIZE],
    page: &[u8],
    table: &[u32],
    h: usize,
) -> Result<Option<(usize, usize)>, Refusal>
    ensures { result ≡ range_answer (settings_of profile.now) page.now table.now h }
{
    let c = check_tag(profile, page, table, h)?;
    Ok(tag::range(h, c.document.row(h).last as usize))
}

// What a tag holds for an attribute name, by places: for the exports, which hand back no part of a page.
#[tactic(auto, unfolding(rules::specs::Answers::attribute_answer))]
pub fn attribute_places(
    profile: &[u8; SIZE],
    page: &[u8],
    table: &[u32],
    h: usize,
    name: &[u8],
) -> Result<Held, Refusal>
    ensures { result ≡ attribute_answer (settings_of profile.now) page.now table.now h name.now }
{
    let c = check_tag(profile, page, table, h)?;
    let t = c.profile.marks();
    let mut held = Held::Absent;
    Tag::of(&c.document, h).attribute(&t, name, b"", &mut held);
    Ok(held)
}

// What a tag holds for an attribute name: the value's part of the page, or the whole fallback where the name is absent or has no value; an
// empty part where the call refuses. The numbers say what was answered: the refusal's or 0, which of the three held, where a value starts
// and ends.
#[tactic(auto, unfolding(rules::specs::Answers::attribute_answer, rules::specs::Answers::attribute_part))]
pub fn attribute<'a>(
    profile: &[u8; SIZE],
    page: &'a [u8],
    table: &[u32],
    h: usize,
    name: &[u8],
    fallback: &'a [u8],
    numbers: &mut [usize; 4],
) -> &'a [u8]
    ensures part { result.now ≡ attribute_part (settings_of profile.now) page.now table.now h name.now fallback.now }
    ensures numbers { numbers.new ≡ asked_numbers (attribute_answer (settings_of profile.now) page.now table.now h name.now) }
{
    match check_tag(profile, page, table, h) {
        Err(why) => {
            *numbers = [u32::from(why) as usize, 0, 0, 0];
            &page[..0]
        }
        Ok(c) => {
            let t = c.profile.marks();
            let mut held = Held::Absent;
            let part = Tag::of(&c.document, h).attribute(&t, name, fallback, &mut held);
            let [which, start, end] = held.numbers();
            *numbers = [0, which, start, end];
            part
        }
    }
}

// Writes the inner text of h, or refuses it as 7.
fn write_text(d: &Document, h: usize, out: &mut [u8]) -> Result<usize, Refusal>
    requires { h < count_of d.now.table.now }
    ensures { let text = inner_text d.now.page.now d.now.table.now h in
        Counts text out.old result out.new }
{
    let size = tag::text_length(d, h);
    if out.len() < size {
        return table::refuse(out, Refusal::BufferTooShort);
    }
    Ok(tag::inner_text(d, h, out, 0, DEPTH))
}

// The text below a tag: the bytes of its text nodes, joined.
#[tactic(auto, unfolding(rules::specs::Answers::text_answer, rules::specs::Answers::text_buffer))]
pub fn inner_text(
    profile: &[u8; SIZE],
    page: &[u8],
    table: &[u32],
    h: usize,
    out: &mut [u8],
) -> Result<usize, Refusal>
    ensures { let f = settings_of profile.now in
        let p = page.now in
        let ws = table.now in
        let b = out.old in
        Leaves (text_answer f p ws h (length b)) (text_buffer f p ws h b) result out.new }
{
    match check_tag(profile, page, table, h) {
        Err(why) => table::refuse(out, why),
        Ok(c) => write_text(&c.document, h, out),
    }
}

// ---- lookups by id and class: the manner is a part of the question, and no closure, since a caller of the exports says it by a number

// The tag with an id: in a scan the lowest handle that the view shows, else the one closed last.
#[tactic(auto, unfolding(rules::specs::Answers::id_answer))]
pub fn get_element_by_id(
    profile: &[u8; SIZE],
    page: &[u8],
    table: &[u32],
    manner: Manner,
    id: &[u8],
) -> Result<Option<usize>, Refusal>
    ensures { result ≡ id_answer (settings_of profile.now) page.now table.now manner id.now }
{
    let c = check(profile, page, table)?;
    let t = c.profile.marks();
    match manner {
        Manner::Scan(view) => Ok(vdom::id_scan(&t, &c.document, view, id)),
        Manner::Closed => Ok(closing::id_closed(&t, &c.document, id)),
    }
}

// The tags with a class, of a document.
fn list_class(c: &Checked, manner: Manner, class: &[u8], out: &mut [u32]) -> Result<usize, Refusal>
    ensures { let d = c.now.document in
        let found = by_class (white_of c.now.profile.bytes.now) d.page.now d.table.now manner class.now in
        Counts found out.old result out.new }
{
    let t = c.profile.marks();
    match manner {
        Manner::Scan(view) => vdom::class_scan(&t, &c.document, view, class, out),
        Manner::Closed => closing::class_closed(&t, &c.document, class, out),
    }
}

// The tags with a class: in a scan those that the view shows, each once in handle order; else in closing order, once for each time.
#[tactic(auto, unfolding(rules::specs::Answers::class_answer, rules::specs::Answers::class_buffer))]
pub fn get_elements_by_class_name(
    profile: &[u8; SIZE],
    page: &[u8],
    table: &[u32],
    manner: Manner,
    class: &[u8],
    out: &mut [u32],
) -> Result<usize, Refusal>
    ensures { let f = settings_of profile.now in
        let p = page.now in
        let ws = table.now in
        let b = out.old in
        let k = class.now in
        Leaves (class_answer f p ws manner k (length b)) (class_buffer f p ws manner k b) result out.new }
{
    match check(profile, page, table) {
        Err(why) => table::refuse(out, why),
        Ok(c) => list_class(&c, manner, class, out),
    }
}

// ---- queries

// The finds of a selector among these handles, or refusals 5, 6 and 7. A `Range` knows no document, so that it is said to be of this one.
fn select(
    c: &Checked,
    handles: Range<usize>,
    view: View,
    s: &[u8],
    out: &mut [u32],
) -> Result<usize, Refusal>
    requires { (handles.start ≤ handles.end) × (handles.end ≤ count_of c.now.document.table.now) }
    ensures { let d = c.now.document in
        let all = from handles.start (handles.end - handles.start) in
        let finds = among (white_of c.now.profile.bytes.now) d.page.now d.table.now view s.now all in
        Selects finds s.now out.old result out.new }
{
    let t = c.profile.marks();
    let mut words = [0u32; queryselector::ROOM];
    let pieces = match queryselector::read(&t, s, &mut words) {
        Ok(n) => n,
        Err(why) => return table::refuse(out, why),
    };
    let chain = Chain {
        text: s,
        words: &words,
        pieces,
    };
    vdom::query(&t, &c.document, view, handles, &chain, out)
}

// The nodes of the page that a view shows and a selector finds, in handle order.
#[tactic(auto, unfolding(rules::specs::Answers::query_answer, rules::specs::Answers::query_buffer))]
pub fn query_selector(
    profile: &[u8; SIZE],
    page: &[u8],
    table: &[u32],
    view: View,
    s: &[u8],
    out: &mut [u32],
) -> Result<usize, Refusal>
    ensures { let f = settings_of profile.now in
        let p = page.now in
        let ws = table.now in
        let b = out.old in
        let k = s.now in
        Leaves (query_answer f p ws view k (length b)) (query_buffer f p ws view k b) result out.new }
{
    match check(profile, page, table) {
        Err(why) => table::refuse(out, why),
        Ok(c) => select(&c, 0..c.document.count(), view, s, out),
    }
}

// The same of the nodes below a tag, which the view need not show.
#[tactic(auto, unfolding(rules::specs::Answers::query_below_answer, rules::specs::Answers::query_below_buffer))]
pub fn query_selector_below(
    profile: &[u8; SIZE],
    page: &[u8],
    table: &[u32],
    h: usize,
    view: View,
    s: &[u8],
    out: &mut [u32],
) -> Result<usize, Refusal>
    ensures { let f = settings_of profile.now in
        let p = page.now in
        let ws = table.now in
        let b = out.old in
        let k = s.now in
        Leaves (query_below_answer f p ws h view k (length b)) (query_below_buffer f p ws h view k b) result out.new }
{
    match check_tag(profile, page, table, h) {
        Err(why) => table::refuse(out, why),
        Ok(c) => {
            let last = c.document.row(h).last as usize;
            // `h + 1..=last` would be a type of its own, and a flag at each step.
            select(&c, h + 1..last + 1, view, s, out)
        }
    }
}
