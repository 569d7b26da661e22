// The rows without text, which a walk for texts passes over.

ghost use Rattle.std.specs.Prelude.{◌≡◌, ◌≤◌, length};
ghost use Rattle.rules.specs.Sound.{count_of};
ghost use Rattle.batch.specs.Skips.{Passes, Covers, PassesNoText, next_text};

use checks::Tags;
use sound::Document;

// Where to look for text: for every `step`-th row the lowest row from it on that has any. Tags that lie in each other would else be
// walked through once for each of them.
#[derive(Clone, Copy)]
pub struct Skips<'a> {
    pub tags: Tags<'a>,
    pub next: &'a [u32],
    pub step: usize,
    ghost passes: { PassesNoText tags.document.page.now tags.document.table.now step next.now },
}

impl<'a> Skips<'a> {
    // Where to look for text from row k on: between the rows that are filled in, in each.
    pub fn next_text(&self, k: usize) -> usize
        ensures { result ≡ next_text self.now.next.now self.now.step k }
    {
        // every row is filled in: a division would cost more than the walk
        if self.step == 1 {
            if k < self.next.len() {
                return self.next[k] as usize;
            }
            return k;
        }
        let j = k / self.step;
        if k % self.step == 0 && j < self.next.len() {
            return self.next[j] as usize;
        }
        k
    }
}

// The lowest row of those below `to` and from `from` on that has text. Else it is `next`, which is the lowest from `to` on.
fn lowest_text(d: &Document, from: usize, to: usize, next: usize) -> usize
    requires { (from ≤ to) × Passes d.now.page.now d.now.table.now to next }
    ensures { Passes d.now.page.now d.now.table.now from result }
{
    (from..to)
        .find(|&k| tag::text_of(d.page, d.row(k)).len() != 0)
        .unwrap_or(next)
}

// Fills the table of skips, from the last row down. Table and step go as two, since a `Skips` is made of them once the table is filled.
pub fn fill_skips(d: &Document, step: usize, skip: &mut [u32])
    requires { Covers (count_of d.now.table.now) step (length skip.old) }
    ensures { PassesNoText d.now.page.now d.now.table.now step skip.new }
{
    let mut to = d.count();
    let mut next = to;
    for j in (0..skip.len()).rev() {
        let from = step * j;
        next = lowest_text(d, from, to, next);
        skip[j] = next as u32;
        to = from;
    }
}
