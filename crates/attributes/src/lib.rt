// What one tag holds for several attribute names, by one reading of its attributes. Each name has three words: which of the three held
// (0 absent, 1 without a value, 2 with a value), and where a value starts and ends. An attribute finds the one name that it may have by
// a table of 256 slots, which a caller fills once, by `fill_slots`, and lends down.

#![tactic(auto)]

ghost use Rattle.std.specs.Prelude.{◌≡◌, false, ◌∷◌, suc, ◌*◌, ◌≤◌, ◌<◌, length, get_or, take, replicate};
ghost use Rattle.rules.specs.Scan.{part};
ghost use Rattle.rules.specs.Words.{Within};
ghost use Rattle.rules.specs.Lookup.{Inside, lookup, lookup_from};
ghost use Rattle.rules.specs.Profile.{page_limit};
ghost use Rattle.rules.specs.Refusals.{held_numbers};
ghost use Rattle.scan.specs.Marks.{white_in};
ghost use Rattle.attributes.specs.Noting.{FitsWords, held_words, Notes, NotesOne, NotesAll};
ghost use Rattle.attributes.specs.Slots.{name_at, slot_of, many, Slotted, AllHave};

use rules::{Attribute, Held};
use scan::Marks;
use tag::Tag;

// What the slot of several names holds, and of one whose number is too large for a byte. A slot is a byte and no enum, so that the 256
// of them are cleared and looked up fast; they are said as 256, as the promise of a slot's number does.
const MANY: u8 = 255;

// The longest opening that is looked through for what all names begin with before it is read.
const SHORT: usize = 16;

// ---- the words of one name: three, said as 3, as the promises do

// Writes which of the three held, and where a value starts and ends, into three words that are lent alone; batch writes from a place on.
pub fn write_held(words: &mut [u32], held: Held)
    requires { (length words.old ≡ 3) × Inside page_limit held }
    ensures { words.new ≡ held_numbers held }
{
    let [which, start, end] = held.numbers();
    words.copy_from_slice(&[which as u32, start as u32, end as u32]);
}

// The attribute a was read: if it has the name, its value may count. Of `id` and `class` the last counts, of other names the first. That a
// lies in the page is asked for, since it is places alone.
fn note(words: &mut [u32], page: &[u8], a: Attribute, name: &[u8])
    requires { (length words.old ≡ 3) × FitsWords (length page.now) a }
    ensures { Notes page.now a name.now words.old words.new }
{
    if !tag::is_named(page, a, name) {
        return;
    }
    let value = a.value;
    if tag::is_last(name) {
        let held = tag::held(Held::Absent, value);
        return write_held(words, held);
    }
    // absent so far
    if words[0] == 0 {
        let held = tag::held(Held::Bare, value);
        write_held(words, held);
    }
}

// ---- the names

// Names that stand in one text, each from the end of the one before up to its place in `ends`: two slices, as the C interface lends
// them. They are taken by their number and not by an iterator, since the words and the slot of a name go by its number too.
#[derive(Clone, Copy)]
pub struct Names<'a> {
    pub text: &'a [u8],
    pub ends: &'a [usize],
}

impl<'a> Names<'a> {
    // How many they are.
    pub fn len(&self) -> usize
        ensures { result ≡ length self.now.ends.now }
    {
        self.ends.len()
    }

    // Where name j starts.
    fn start_of(&self, j: usize) -> usize
        requires { j < length self.now.ends.now }
        ensures { result ≡ get_or (0 ∷ self.now.ends.now) j 0 }
    {
        if j == 0 {
            return 0;
        }
        self.ends[j - 1]
    }

    // Name j.
    fn get(&self, j: usize) -> &'a [u8]
        requires { j < length self.now.ends.now }
        ensures { result.now ≡ name_at self.now.text.now self.now.ends.now j }
    {
        let start = self.start_of(j);
        let end = self.ends[j];
        scan::part(self.text, start, end)
    }

    // What all names begin with: the text's first two bytes, or none. Names of a report often begin alike, as `data-` names do, and a
    // tag without these bytes need not be read.
    pub fn begun_alike(&self) -> &'a [u8]
        ensures opens { result.now ≡ take (length result.now) self.now.text.now }
        ensures alike { AllHave self.now.text.now self.now.ends.now result.now }
    {
        if self.text.len() < 2 {
            return &self.text[..0];
        }
        let first = &self.text[..2];
        if (0..self.len()).all(|j| self.get(j).starts_with(first)) {
            first
        } else {
            &self.text[..0]
        }
    }
}

// ---- the slots of names

// A name's slot, by its length and its last byte.
#[tactic(auto, unfolding(crate::specs::Slots::slot_of))]
fn slot_of(name: &[u8]) -> usize
    ensures { (result ≡ slot_of name.now) × (result < 256) }
{
    let n = name.len();
    if n == 0 {
        return 0;
    }
    let last = name[n - 1] as usize;
    (n % 256 + last) % 256
}

// What a slot holds that held c, when name j has it too.
fn slot_with(c: u8, j: usize) -> u8
    ensures { result < many → (c ≡ 0) × (result ≡ suc j) }
{
    if c != 0 {
        return MANY;
    }
    if MANY as usize <= j {
        return MANY;
    }
    (j + 1) as u8
}

// Fills the slots of all names, which are lent all zero: a `Slots` is made of both once they are filled. A table that is returned would be copied.
pub fn fill_slots(slots: &mut [u8; 256], names: &Names)
    requires { slots.old ≡ replicate 256 0 }
    ensures { Slotted names.now.text.now names.now.ends.now (length names.now.ends.now) slots.new }
{
    for j in 0..names.len() {
        let at = slot_of(names.get(j));
        slots[at] = slot_with(slots[at], j);
    }
}

// Names with their slots.
#[derive(Clone, Copy)]
pub struct Slots<'a> {
    pub names: Names<'a>,
    pub of: &'a [u8; 256],
    ghost slotted: { Slotted names.text.now names.ends.now (length names.ends.now) of.now },
}

// ---- one attribute: it lies in the page, as each note of it asks, since it comes from a reading and not from a caller

// Notes the attribute for name j.
fn note_one(page: &[u8], a: Attribute, names: &Names, j: usize, out: &mut [u32])
    requires room { (length out.old ≡ 3 * length names.now.ends.now) × FitsWords (length page.now) a }
    requires below { j < length names.now.ends.now }
    ensures { NotesOne page.now a names.now.text.now names.now.ends.now j out.old out.new }
{
    let at = 3 * j;
    let stop = at + 3;
    note(&mut out[at..stop], page, a, names.get(j));
}

// Notes it for each name in turn.
fn note_each(page: &[u8], a: Attribute, names: &Names, out: &mut [u32])
    requires { (length out.old ≡ 3 * length names.now.ends.now) × FitsWords (length page.now) a }
    ensures { NotesAll page.now a names.now.text.now names.now.ends.now out.old out.new }
{
    for j in 0..names.len() {
        note_one(page, a, names, j, out);
    }
}

// Notes it for each name. Its slot says that it is no name's, or at most one's; or it is compared with all.
fn note_all(slots: &Slots, page: &[u8], a: Attribute, out: &mut [u32])
    requires { (length out.old ≡ 3 * length slots.now.names.ends.now) × FitsWords (length page.now) a }
    ensures { NotesAll page.now a slots.now.names.text.now slots.now.names.ends.now out.old out.new }
{
    let from = a.name;
    let stop = a.stop;
    let at = slot_of(&page[from..stop]);
    let c = slots.of[at];
    if c == 0 {
        return;
    }
    if c < MANY {
        let j = c as usize - 1;
        return note_one(page, a, &slots.names, j, out);
    }
    note_each(page, a, &slots.names, out);
}

// ---- one tag

// Whether the tag may have one of the names, which all begin with `first`: where that does not stand in its opening it has none. In a
// long opening it mostly stands, and looking for it does not pay.
pub fn may_have_any(tag: &Tag, first: &[u8]) -> bool
    ensures { let n = tag.now.node in
        result ≡ false → Within first.now (part tag.now.page.now n.stop n.opened) → ⊥ }
{
    SHORT < tag.room() || tag.may_have(first)
}

// What the tag holds for each name, into words that are lent all zero. The names all begin with `first`. The page is within the limit, so that
// each place fits a word; a tag alone does not say so.
pub fn attributes(t: &Marks, slots: &Slots, tag: &Tag, first: &[u8], out: &mut [u32])
    requires inside { length tag.now.page.now ≤ page_limit }
    requires alike { AllHave slots.now.names.text.now slots.now.names.ends.now first.now }
    requires zeros { out.old ≡ replicate (3 * length slots.now.names.ends.now) 0 }
    ensures { let held = lookup (white_in t.now) tag.now.page.now tag.now.node in
        out.new ≡ held_words held slots.now.names.text.now slots.now.names.ends.now }
{
    if !may_have_any(tag, first) {
        return;
    }
    let attributes = tag.attributes(t);
    let page = attributes.page;
    for a in attributes {
        note_all(slots, page, a, out);
    }
}
