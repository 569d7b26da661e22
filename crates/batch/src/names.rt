// The call `attributes_for_names`: each tag of a list is read once for all names.

ghost use Rattle.std.specs.Prelude.{◌≡◌, true, not, ◌++◌, ◌*◌, ◌≤◌, ltb, length, drop, replicate};
ghost use Rattle.rules.specs.Profile.{settings_of};
ghost use Rattle.rules.specs.Refusals.{Leaves, filled_by};
ghost use Rattle.rules.specs.Batch.{names_found, names_answer, names_buffer};
ghost use Rattle.attributes.specs.Slots.{AllHave};
ghost use Rattle.batch.specs.Batch.{unless};
ghost use Rattle.batch.specs.Names.{Unnamed};

use attributes::{Names, Slots};
use checks::Tags;
use profile::SIZE;
use rules::Refusal;
use tag::Tag;

// Whether three words for each name and each handle fit; a product might not be a usize.
fn has_room(room: usize, names: usize, handles: usize) -> bool
    ensures { result ≡ not (ltb room (3 * (names * handles))) }
{
    names == 0 || handles <= room / 3 / names
}

// Whether no tag has any of the names, which all begin with `first`, as far as a quick test tells.
fn none_named(tags: &Tags, first: &[u8]) -> bool
    ensures { let d = tags.now.document in
        result ≡ true → Unnamed d.page.now d.table.now first.now tags.now.handles.now }
{
    let d = &tags.document;
    !tags.handles.iter().any(|&h| attributes::may_have_any(&Tag::of(d, h as usize), first))
}

// Writes what each tag holds for each name, which all begin with `first`, into words that are lent all zero. The marks and the names'
// slots are made once, and each tag's attributes are read once. By place and not by chunks: without a name they would have no words, and
// `chunks_exact_mut` stops the program at that.
fn read_names(tags: &Tags, names: &Names, first: &[u8], out: &mut [u32])
    requires alike { AllHave names.now.text.now names.now.ends.now first.now }
    requires zeros { out.old ≡ replicate (3 * length names.now.ends.now * length tags.now.handles.now) 0 }
    ensures { let d = tags.now.document in
        out.new ≡ names_found (settings_of tags.now.profile.bytes.now) d.page.now d.table.now tags.now.handles.now names.now.text.now names.now.ends.now }
{
    let t = tags.profile.marks();
    let mut of = [0u8; 256];
    attributes::fill_slots(&mut of, names);
    let slots = Slots {
        names: *names,
        of: &of,
    };
    let d = &tags.document;
    let mut at = 0;
    for &h in tags.handles {
        let tag = Tag::of(d, h as usize);
        let end = at + 3 * names.len();
        attributes::attributes(&t, &slots, &tag, first, &mut out[at..end]);
        at = end;
    }
}

// Writes what each tag holds for each name. All words are cleared at once: to clear each tag's took a call for few words. Where a quick
// test tells that no tag has any of the names, neither marks nor slots are made.
fn put_names(tags: &Tags, names: &Names, out: &mut [u32])
    requires { 3 * (length names.now.ends.now * length tags.now.handles.now) ≤ length out.old }
    ensures { let d = tags.now.document in
        let found = names_found (settings_of tags.now.profile.bytes.now) d.page.now d.table.now tags.now.handles.now names.now.text.now names.now.ends.now in
        out.new ≡ found ++ drop (length found) out.old }
{
    let all = 3 * (names.len() * tags.handles.len());
    out[..all].fill(0);
    let first = names.begun_alike();
    if none_named(tags, first) {
        return;
    }
    read_names(tags, names, first, &mut out[..all]);
}

// The attributes of tags for each name, or refusal 7.
fn list_names(tags: &Tags, names: &Names, out: &mut [u32]) -> Result<usize, Refusal>
    ensures { let d = tags.now.document in
        let hs = tags.now.handles.now in
        let es = names.now.ends.now in
        let b = out.old in
        let found = names_found (settings_of tags.now.profile.bytes.now) d.page.now d.table.now hs names.now.text.now es in
        Leaves (unless (ltb (length b) (3 * (length es * length hs))) (length hs)) (filled_by b found result) result out.new }
{
    let n = tags.handles.len();
    if !has_room(out.len(), names.len(), n) {
        return table::refuse(out, Refusal::BufferTooShort);
    }
    put_names(tags, names, out);
    Ok(n)
}

// What each tag of a list holds for each of several attribute names, three words for each name, a tag's words together. The names
// stand in one text, each from the end of the one before up to its place in `ends`.
#[tactic(auto, unfolding(rules::specs::Batch::batch_answer, rules::specs::Batch::names_answer, rules::specs::Batch::names_buffer))]
pub fn attributes_for_names(
    profile: &[u8; SIZE],
    page: &[u8],
    table: &[u32],
    handles: &[u32],
    names: &[u8],
    ends: &[usize],
    out: &mut [u32],
) -> Result<usize, Refusal>
    ensures { let f = settings_of profile.now in
        let p = page.now in
        let ws = table.now in
        let hs = handles.now in
        let s = names.now in
        let es = ends.now in
        let b = out.old in
        Leaves (names_answer f p ws hs es (length b)) (names_buffer f p ws hs s es b) result out.new }
{
    match checks::check_tags(profile, page, table, handles) {
        Err(why) => table::refuse(out, why),
        Ok(tags) => list_names(&tags, &Names { text: names, ends }, out),
    }
}
