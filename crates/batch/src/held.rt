// The call `attributes`: each tag of a list is asked for one name.

ghost use Rattle.std.specs.Prelude.{◌≡◌, ◌++◌, ◌+◌, ◌*◌, ◌≤◌, ltb, length, drop};
ghost use Rattle.rules.specs.Profile.{page_limit, settings_of};
ghost use Rattle.rules.specs.Refusals.{Leaves, held_numbers, filled_by};
ghost use Rattle.rules.specs.Buffers.{Wrote};
ghost use Rattle.rules.specs.Batch.{attributes_found, attributes_answer, attributes_buffer};
ghost use Rattle.rules.specs.Lookup.{Inside};
ghost use Rattle.batch.specs.Batch.{unless};

use checks::Tags;
use profile::SIZE;
use rules::{Held, Refusal};
use tag::Tag;

// Writes the three words from `at` on, and answers the place after them: it cuts out what `write_held` asks for. A struct of buffer and
// place would serve this and `put_attributes` alone.
fn put_held(held: Held, out: &mut [u32], at: usize) -> usize
    requires { Inside page_limit held × (at + 3 ≤ length out.old) }
    ensures { Wrote out.old at (held_numbers held) out.new result }
{
    let end = at + 3;
    attributes::write_held(&mut out[at..end], held);
    end
}

// Writes what each tag holds for the name. The table of marks is made once. By a `zip` with `chunks_exact_mut` it was tried, and the proof
// did not close: no invariant was found that speaks of the words while they are lent out in chunks.
fn put_attributes(tags: &Tags, name: &[u8], out: &mut [u32])
    requires { 3 * length tags.now.handles.now ≤ length out.old }
    ensures { let d = tags.now.document in
        let found = attributes_found (settings_of tags.now.profile.bytes.now) d.page.now d.table.now tags.now.handles.now name.now in
        out.new ≡ found ++ drop (length found) out.old }
{
    let t = tags.profile.marks();
    let d = &tags.document;
    let mut at = 0;
    for &h in tags.handles {
        let mut held = Held::Absent;
        Tag::of(d, h as usize).attribute(&t, name, b"", &mut held);
        at = put_held(held, out, at);
    }
}

// The attributes of tags, or refusal 7.
fn list_attributes(tags: &Tags, name: &[u8], out: &mut [u32]) -> Result<usize, Refusal>
    ensures { let d = tags.now.document in
        let hs = tags.now.handles.now in
        let b = out.old in
        let found = attributes_found (settings_of tags.now.profile.bytes.now) d.page.now d.table.now hs name.now in
        Leaves (unless (ltb (length b) (3 * length hs)) (length hs)) (filled_by b found result) result out.new }
{
    let n = tags.handles.len();
    // three words each; a product might not fit
    if out.len() / 3 < n {
        return table::refuse(out, Refusal::BufferTooShort);
    }
    put_attributes(tags, name, out);
    Ok(n)
}

// What each tag of a list holds for an attribute name, three words each: which of the three held (0 absent, 1 without a value,
// 2 with a value), and where a value starts and ends.
#[tactic(auto, unfolding(rules::specs::Batch::batch_answer, rules::specs::Batch::attributes_answer, rules::specs::Batch::attributes_buffer))]
pub fn attributes(
    profile: &[u8; SIZE],
    page: &[u8],
    table: &[u32],
    handles: &[u32],
    name: &[u8],
    out: &mut [u32],
) -> Result<usize, Refusal>
    ensures { let f = settings_of profile.now in
        let p = page.now in
        let ws = table.now in
        let hs = handles.now in
        let k = name.now in
        let b = out.old in
        Leaves (attributes_answer f p ws hs (length b)) (attributes_buffer f p ws hs k b) result out.new }
{
    match checks::check_tags(profile, page, table, handles) {
        Err(why) => table::refuse(out, why),
        Ok(tags) => list_attributes(&tags, name, out),
    }
}
