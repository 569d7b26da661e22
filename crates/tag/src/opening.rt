// A tag, by what its opening says: its name, its attributes, what it holds for a name, and whether that can be in it at all.

ghost use Rattle.std.specs.Prelude.{◌≡◌, true, false, ◌-◌, ◌≤◌, ◌<◌, length};
ghost use Rattle.rules.specs.Scan.{part};
ghost use Rattle.rules.specs.Words.{Within};
ghost use Rattle.rules.specs.Lookup.{up_to};
ghost use Rattle.rules.specs.Sound.{is_tag};
ghost use Rattle.rules.specs.Table.{node_at};
ghost use Rattle.rules.specs.Query.{name_of};
ghost use Rattle.rules.specs.Refusals.{held_part};
ghost use Rattle.scan.specs.Marks.{white_in};
ghost use Rattle.tag.specs.Tag.{Looked};

use crate::iter::Attributes;
use crate::lookup::get;
use rules::{Held, Node};
use scan::Marks;
use sound::Document;

// A tag of a page: its name ends before its opening does, and that lies in the page.
#[derive(Clone, Copy)]
pub struct Tag<'a> {
    pub page: &'a [u8],
    pub node: Node,
    ghost opening: { (node.stop < node.opened) × (node.opened ≤ length page.now) },
}

impl<'a> Tag<'a> {
    // The tag of a document with that handle.
    pub fn of(d: &Document<'a, '_>, h: usize) -> Tag<'a>
        requires { is_tag d.now.table.now h ≡ true }
        ensures { (result.page.now ≡ d.now.page.now) × (result.node ≡ node_at d.now.table.now h) }
    {
        Tag {
            page: d.page,
            node: d.row(h),
        }
    }

    // Its name.
    #[inline]
    pub fn name(&self) -> &'a [u8]
        ensures { result.now ≡ name_of self.now.page.now self.now.node }
    {
        scan::part(self.page, self.node.name as usize, self.node.stop as usize)
    }

    // The page as its attributes are read: it ends where the opening does.
    #[inline(always)]
    fn up_to(&self) -> &'a [u8]
        ensures { result.now ≡ up_to self.now.page.now self.now.node }
    {
        let opened = self.node.opened as usize;
        &self.page[..opened]
    }

    // Its attributes, in order.
    #[inline]
    pub fn attributes(&self, t: &'a Marks) -> Attributes<'a>
        ensures { (result.marks.now ≡ t.now) × (result.page.now ≡ up_to self.now.page.now self.now.node) × (result.at ≡ self.now.node.stop) }
    {
        Attributes {
            marks: t,
            page: self.up_to(),
            at: self.node.stop as usize,
        }
    }

    // The lookup of an attribute, by which all go who want one: the value's part of the page, or the whole fallback where the name is absent
    // or has no value. Which of the three it was stands in `held`: an empty part alone would not say it.
    #[inline(always)]
    #[tactic(auto, using(crate::proofs::Looks::looked, crate::proofs::Looks::length_up_to))]
    pub fn attribute(&self, t: &Marks, name: &[u8], fallback: &'a [u8], held: &mut Held) -> &'a [u8]
        ensures held { Looked (white_in t.now) self.now.page.now self.now.node name.now held.new }
        ensures part { result.now ≡ held_part self.now.page.now fallback.now held.new }
    {
        *held = get(t, self.up_to(), self.node.stop as usize, name);
        match *held {
            Held::Absent | Held::Bare => fallback,
            Held::Value(start, end) => scan::part(self.page, start, end),
        }
    }

    // How many bytes its opening has after the name.
    #[inline]
    pub fn room(&self) -> usize
        ensures { result ≡ self.now.node.opened - self.now.node.stop }
    {
        (self.node.opened - self.node.stop) as usize
    }

    // Whether k may stand in the opening. Where it does not, no name and no value there has k within, and none need be read.
    #[inline(always)]
    pub fn may_have(&self, k: &[u8]) -> bool
        ensures { result ≡ false → Within k.now (part self.now.page.now self.now.node.stop self.now.node.opened) → ⊥ }
    {
        let stop = self.node.stop as usize;
        k.len() <= self.room() && scan::may_hold(self.page, stop, self.node.opened as usize, k)
    }
}
