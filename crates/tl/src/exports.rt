// The calls: each is exported under its own name and arguments. Page and table, names and ends are two slices each, as C lends them.

ghost use Rattle.std.specs.Prelude.{◌≡◌, ◌∷◌, length};
ghost use Rattle.rules.specs.Profile.{settings_of};
ghost use Rattle.rules.specs.Refusals.{manner_of, view_of, ranged_numbers, found_numbers, asked_numbers};
ghost use Rattle.rules.specs.Answers.{parse_answer, parse_table, selector_answer, selector_buffer, range_answer, text_answer, text_buffer, query_below_buffer};
ghost use Rattle.rules.specs.Answers.{attribute_answer, id_answer, class_answer, class_buffer, query_answer, query_buffer, query_below_answer};
ghost use Rattle.rules.specs.Batch.{attributes_answer, attributes_buffer, names_answer, names_buffer, texts_answer, texts_buffer, ends_buffer};
ghost use Rattle.tl.specs.Exports.{Exports, ExportsBoth};

use crate::numbers::{leave, range_numbers, tag_numbers};
use profile::SIZE;
use rules::{Held, Manner, View};

// Reads a page into a table.
pub fn tl_parse(profile: &[u8; SIZE], page: &[u8], table: &mut [u32], count: &mut usize) -> u32
    ensures { let f = settings_of profile.now in
        let p = page.now in
        let t = table.old in
        Exports (parse_answer f p (length t)) (parse_table f p t) result count.new table.new }
{
    leave(parser::parse(profile, page, table), count)
}

// The handles below a tag: how many, the first, the last.
pub fn tl_range(
    profile: &[u8; SIZE],
    page: &[u8],
    table: &[u32],
    h: usize,
    answer: &mut [usize; 3],
) -> u32
    ensures { (result ∷ answer.new) ≡ ranged_numbers (range_answer (settings_of profile.now) page.now table.now h) }
{
    leave(
        calls::range(profile, page, table, h).map(range_numbers),
        answer,
    )
}

// What a tag holds for an attribute name: which of the three, where a value starts and ends.
pub fn tl_attribute(
    profile: &[u8; SIZE],
    page: &[u8],
    table: &[u32],
    h: usize,
    name: &[u8],
    answer: &mut [usize; 3],
) -> u32
    ensures { let held = attribute_answer (settings_of profile.now) page.now table.now h name.now in
        (result ∷ answer.new) ≡ asked_numbers held }
{
    let held = calls::attribute_places(profile, page, table, h, name);
    leave(held.map(Held::numbers), answer)
}

// The text below a tag.
pub fn tl_inner_text(
    profile: &[u8; SIZE],
    page: &[u8],
    table: &[u32],
    h: usize,
    out: &mut [u8],
    count: &mut usize,
) -> u32
    ensures { let f = settings_of profile.now in
        let p = page.now in
        let ws = table.now in
        let b = out.old in
        Exports (text_answer f p ws h (length b)) (text_buffer f p ws h b) result count.new out.new }
{
    leave(calls::inner_text(profile, page, table, h, out), count)
}

// The tag with an id: how many, and its handle. The view's number counts in a scan alone, here and in the next.
pub fn tl_get_element_by_id(
    profile: &[u8; SIZE],
    page: &[u8],
    table: &[u32],
    manner: u32,
    view: u32,
    id: &[u8],
    answer: &mut [usize; 2],
) -> u32
    ensures { let at = id_answer (settings_of profile.now) page.now table.now (manner_of manner view) id.now in
        (result ∷ answer.new) ≡ found_numbers at }
{
    let manner = Manner::of(manner, view);
    let tag = calls::get_element_by_id(profile, page, table, manner, id);
    leave(tag.map(tag_numbers), answer)
}

// The tags with a class.
pub fn tl_get_elements_by_class_name(
    profile: &[u8; SIZE],
    page: &[u8],
    table: &[u32],
    manner: u32,
    view: u32,
    class: &[u8],
    out: &mut [u32],
    count: &mut usize,
) -> u32
    ensures { let f = settings_of profile.now in
        let p = page.now in
        let ws = table.now in
        let m = manner_of manner view in
        let k = class.now in
        let b = out.old in
        Exports (class_answer f p ws m k (length b)) (class_buffer f p ws m k b) result count.new out.new }
{
    let manner = Manner::of(manner, view);
    leave(
        calls::get_elements_by_class_name(profile, page, table, manner, class, out),
        count,
    )
}

// Reads a selector into its pieces, 6 words each.
pub fn tl_parse_query_selector(s: &[u8], out: &mut [u32], count: &mut usize) -> u32
    ensures { let k = s.now in
        let b = out.old in
        Exports (selector_answer k (length b)) (selector_buffer k b) result count.new out.new }
{
    leave(queryselector::parse_query_selector(s, out), count)
}

// The nodes of the page that a selector finds.
pub fn tl_query_selector(
    profile: &[u8; SIZE],
    page: &[u8],
    table: &[u32],
    view: u32,
    s: &[u8],
    out: &mut [u32],
    count: &mut usize,
) -> u32
    ensures { let f = settings_of profile.now in
        let p = page.now in
        let ws = table.now in
        let v = view_of view in
        let k = s.now in
        let b = out.old in
        Exports (query_answer f p ws v k (length b)) (query_buffer f p ws v k b) result count.new out.new }
{
    let view = View::from(view);
    leave(
        calls::query_selector(profile, page, table, view, s, out),
        count,
    )
}

// The nodes below a tag that a selector finds.
pub fn tl_query_selector_below(
    profile: &[u8; SIZE],
    page: &[u8],
    table: &[u32],
    h: usize,
    view: u32,
    s: &[u8],
    out: &mut [u32],
    count: &mut usize,
) -> u32
    ensures { let f = settings_of profile.now in
        let p = page.now in
        let ws = table.now in
        let v = view_of view in
        let k = s.now in
        let b = out.old in
        Exports (query_below_answer f p ws h v k (length b)) (query_below_buffer f p ws h v k b) result count.new out.new }
{
    let view = View::from(view);
    leave(
        calls::query_selector_below(profile, page, table, h, view, s, out),
        count,
    )
}

// What each tag of a list holds for an attribute name, three words each.
pub fn tl_attributes(
    profile: &[u8; SIZE],
    page: &[u8],
    table: &[u32],
    handles: &[u32],
    name: &[u8],
    out: &mut [u32],
    count: &mut usize,
) -> u32
    ensures { let f = settings_of profile.now in
        let p = page.now in
        let ws = table.now in
        let hs = handles.now in
        let k = name.now in
        let b = out.old in
        Exports (attributes_answer f p ws hs (length b)) (attributes_buffer f p ws hs k b) result count.new out.new }
{
    leave(
        batch::attributes(profile, page, table, handles, name, out),
        count,
    )
}

// What each tag of a list holds for each of several attribute names, three words for each name. The names stand in one text, each
// from the end of the one before up to its place in `ends`.
pub fn tl_attributes_for_names(
    profile: &[u8; SIZE],
    page: &[u8],
    table: &[u32],
    handles: &[u32],
    names: &[u8],
    ends: &[usize],
    out: &mut [u32],
    count: &mut usize,
) -> u32
    ensures { let f = settings_of profile.now in
        let p = page.now in
        let ws = table.now in
        let hs = handles.now in
        let s = names.now in
        let es = ends.now in
        let b = out.old in
        Exports (names_answer f p ws hs es (length b)) (names_buffer f p ws hs s es b) result count.new out.new }
{
    leave(
        batch::attributes_for_names(profile, page, table, handles, names, ends, out),
        count,
    )
}

// The inner texts of a list of tags, one after the other, and where each ends.
pub fn tl_inner_texts(
    profile: &[u8; SIZE],
    page: &[u8],
    table: &[u32],
    handles: &[u32],
    ends: &mut [usize],
    out: &mut [u8],
    count: &mut usize,
) -> u32
    ensures { let p = page.now in
        let ws = table.now in
        let hs = handles.now in
        let e = ends.old in
        let b = out.old in
        let f = settings_of profile.now in
        let answer = texts_answer f p ws hs (length e) (length b) in
        ExportsBoth answer (ends_buffer f p ws hs e b) (texts_buffer f p ws hs e b) result count.new ends.new out.new }
{
    leave(
        batch::inner_texts(profile, page, table, handles, ends, out),
        count,
    )
}
