// The call `inner_texts`: the texts are written as the rows are walked, and for lack of room both buffers are cleared again.

ghost use Rattle.std.specs.Prelude.{◌≡◌, false, ◌≤◌, ◌<◌, ltb, length, replicate};
ghost use Rattle.rules.specs.Profile.{page_limit, settings_of};
ghost use Rattle.rules.specs.Sound.{count_of};
ghost use Rattle.rules.specs.Text.{inner_text};
ghost use Rattle.rules.specs.Batch.{texts_answer, texts_buffer, ends_buffer};
ghost use Rattle.rules.specs.Refusals.{LeavesBoth};
ghost use Rattle.maxnodes.specs.Bound.{max_nodes};
ghost use Rattle.batch.specs.Skips.{Covers};
ghost use Rattle.batch.specs.Texts.{TextsLeft, PutsText};

use crate::skips::{Skips, fill_skips};
use checks::Tags;
use profile::SIZE;
use rules::Refusal;

// The most rows that a reading makes (`most` of NodeBound in crates/maxnodes), and rows enough for a short page, for which less
// is cleared.
const ROWS: usize = 43691;

const FEW: usize = 4096;

// The same number, by the bound that it is from: a constant has no contract.
fn most_rows() -> usize
    ensures { result ≡ max_nodes page_limit }
{
    ROWS
}

// A refusal leaves both buffers all zero. They go by themselves, as the C interface lends them.
fn refuse_texts(ends: &mut [usize], out: &mut [u8], why: Refusal) -> Result<usize, Refusal>
    ensures { let e = replicate (length ends.old) 0 in
        let b = replicate (length out.old) 0 in
        LeavesBoth (Err why) e b result ends.new out.new }
{
    ends.fill(0);
    table::refuse(out, why)
}

// Writes the inner text of h from `at` on. Buffer and place go as two, as in `tag::copy`: there must be room for each text, and h is a number, as
// the call was given it.
fn put_text(s: &Skips, h: usize, out: &mut [u8], at: usize) -> Option<usize>
    requires { (h < count_of s.now.tags.document.table.now) × (at ≤ length out.old) }
    ensures { let d = s.now.tags.document in
        PutsText (inner_text d.page.now d.table.now h) out.old at result out.new }
{
    let d = &s.tags.document;
    let last = d.row(h).last as usize;
    let mut i = at;
    // A step passes the rows without text: there is no index to count.
    let mut k = s.next_text(h + 1);
    while k <= last {
        let row = d.row(k);
        k = s.next_text(k + 1);
        // a row without text costs this test alone: its places are not read
        if !row.is_text() {
            continue;
        }
        let text = tag::text_of(d.page, row);
        if out.len() - i < text.len() {
            return None;
        }
        i = tag::copy(text, out, i);
    }
    Some(i)
}

// Writes the inner texts one after the other, and where each ends: by place, since a refusal clears all of `ends`.
fn put_texts(s: &Skips, ends: &mut [usize], out: &mut [u8]) -> Result<usize, Refusal>
    requires { length s.now.tags.handles.now ≤ length ends.old }
    ensures { let d = s.now.tags.document in
        TextsLeft d.page.now d.table.now s.now.tags.handles.now ends.old out.old false result ends.new out.new }
{
    let handles = s.tags.handles;
    let mut at = 0;
    for (i, &h) in handles.iter().enumerate() {
        let Some(end) = put_text(s, h as usize, out, at) else {
            return refuse_texts(ends, out, Refusal::BufferTooShort);
        };
        ends[i] = end;
        at = end;
    }
    Ok(handles.len())
}

// The same, with a table of skips that is filled first: only then are table and step a `Skips`.
fn skip_texts(
    tags: &Tags,
    next: &mut [u32],
    step: usize,
    ends: &mut [usize],
    out: &mut [u8],
) -> Result<usize, Refusal>
    requires covers { Covers (count_of tags.now.document.table.now) step (length next.old) }
    requires places { length tags.now.handles.now ≤ length ends.old }
    ensures { let d = tags.now.document in
        TextsLeft d.page.now d.table.now tags.now.handles.now ends.old out.old false result ends.new out.new }
{
    fill_skips(&tags.document, step, next);
    let skips = Skips {
        tags: *tags,
        next,
        step,
    };
    put_texts(&skips, ends, out)
}

// Whether the rows below the handles are no more than all rows: each can then be walked through without skips. The answer is about
// speed alone, so nothing is promised of it. A loop, in which each handle is known to be a tag's; a closure would have to say so.
fn few_below(tags: &Tags, count: usize) -> bool {
    let d = &tags.document;
    let mut left = count;
    for &h in tags.handles {
        let row = h as usize;
        let below = d.row(row).last as usize - row;
        if left < below {
            return false;
        }
        left -= below;
    }
    true
}

// The same, with skips if they are needed: for each row, or for every so many where there are more rows than a page has.
fn walk_texts(tags: &Tags, ends: &mut [usize], out: &mut [u8]) -> Result<usize, Refusal>
    requires { length tags.now.handles.now ≤ length ends.old }
    ensures { let d = tags.now.document in
        TextsLeft d.page.now d.table.now tags.now.handles.now ends.old out.old false result ends.new out.new }
{
    let count = tags.document.count();
    if few_below(tags, count) {
        // no row is filled in: each is walked through
        let none = Skips {
            tags: *tags,
            next: &tags.handles[..0],
            step: 1,
        };
        return put_texts(&none, ends, out);
    }
    if count <= FEW {
        let mut skip = [0u32; FEW];
        return skip_texts(tags, &mut skip[..count], 1, ends, out);
    }
    let mut skip = [0u32; ROWS];
    let step = (count - 1) / most_rows() + 1;
    let filled = (count - 1) / step + 1;
    skip_texts(tags, &mut skip[..filled], step, ends, out)
}

// The inner texts of tags, or refusal 7.
fn list_texts(tags: &Tags, ends: &mut [usize], out: &mut [u8]) -> Result<usize, Refusal>
    ensures { let d = tags.now.document in
        let hs = tags.now.handles.now in
        let few = ltb (length ends.old) (length hs) in
        TextsLeft d.page.now d.table.now hs ends.old out.old few result ends.new out.new }
{
    if ends.len() < tags.handles.len() {
        return refuse_texts(ends, out, Refusal::BufferTooShort);
    }
    walk_texts(tags, ends, out)
}

// The inner texts of a list of tags, one after the other, and where each ends.
pub fn inner_texts(
    profile: &[u8; SIZE],
    page: &[u8],
    table: &[u32],
    handles: &[u32],
    ends: &mut [usize],
    out: &mut [u8],
) -> Result<usize, Refusal>
    ensures { let p = page.now in
        let ws = table.now in
        let hs = handles.now in
        let e = ends.old in
        let b = out.old in
        let f = settings_of profile.now in
        LeavesBoth (texts_answer f p ws hs (length e) (length b)) (ends_buffer f p ws hs e b) (texts_buffer f p ws hs e b) result ends.new out.new }
{
    match checks::check_tags(profile, page, table, handles) {
        Err(why) => refuse_texts(ends, out, why),
        Ok(tags) => list_texts(&tags, ends, out),
    }
}
