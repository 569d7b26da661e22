// Whether a table of arbitrary words is sound for a page of `len` bytes, in time linear in the rows.

#![tactic(auto)]

ghost use Rattle.std.specs.Prelude.{◌≡◌, ◌↔◌, ◌&&◌, ℕ, ◌+◌, ◌^◌, ◌≤◌, ◌<◌, true, length, get_or, IsSome, IfSome};
ghost use Rattle.rules.specs.Table.{head_words, row_at, node_at};
ghost use Rattle.rules.specs.Sound.{places_sound, ended_sound, head_sound, parent_at, row_sound, count_of, is_tag, sound, all};
ghost use Rattle.sound.specs.Row.{own_sound, under_sound, ClimbStart, next_climb};
ghost use Rattle.sound.specs.Document.{Places};

use rules::{Ended, HTML5, Kind, Node};

// The rows of a table that has room for them, beside a page of `len` bytes. A row goes by its number, below the count: so the test walks them,
// before anything is known of what they say.
#[derive(Clone, Copy)]
struct TableRows<'a> {
    table: &'a [u32],
    len: usize,
    count: usize,
    ghost room: { row_at count ≤ length table.now },
}

impl<'a> TableRows<'a> {
    // The node of row h, as `Document::row` gives it: before the test nothing more is known of it.
    fn row(&self, h: usize) -> Node
        requires { h < self.now.count }
        ensures { result ≡ node_at self.now.table.now h }
    {
        table::row_at(self.table, h)
    }

    // ---- a row by itself

    // Each test reads the row anew, and so just the words that it looks at: with a whole row in hand they do not all fit the registers.

    // The places of a tag, in order: so its start is not after its end.
    fn tag_places(&self, h: usize) -> bool
        requires handle { h < self.now.count }
        requires tag { (node_at self.now.table.now h).kind ≡ 1 }
        ensures { result ≡ places_sound self.now.len (node_at self.now.table.now h) }
    {
        let n = self.row(h);
        let end = n.end as usize;
        (n.start < n.name)
            & (n.name <= n.stop)
            & (n.stop < n.opened)
            & (n.opened <= n.end)
            & (end <= self.len)
    }

    // How a tag ended: with an end above word 5 a closing tag closed it; else it was left open, or was never opened and then holds no
    // other row. What most tags have is tried first: closed where the end is above, and else open, the words 1 and 0 by one comparison.
    fn tag_ended(&self, h: usize) -> bool
        requires handle { h < self.now.count }
        requires tag { let n = node_at self.now.table.now h in (n.kind ≡ 1) × (n.opened ≤ n.end) }
        ensures { result ≡ ended_sound h (node_at self.now.table.now h) }
    {
        let n = self.row(h);
        let above = (n.opened < n.end) as u32;
        if n.ended == above {
            return true;
        }
        if above == 1 {
            return n.ended == Ended::CutShort as u32;
        }
        let last = n.last as usize;
        (n.ended == Ended::NeverOpened as u32) & (last == h)
    }

    // Kind, places and ending of a node that is no tag, and is its own last.
    fn other_sound(&self, h: usize) -> bool
        requires handle { h < self.now.count }
        requires no_tag { let n = node_at self.now.table.now h in (n.kind ≡ 1 → ⊥) × (n.last ≡ h) }
        ensures { let n = node_at self.now.table.now h in
            result ≡ (places_sound self.now.len n && ended_sound h n) }
    {
        let n = self.row(h);
        let end = n.end as usize;
        (Kind::Tag as u32 <= n.kind)
            & (n.kind <= Kind::Comment as u32)
            & (n.start <= n.end)
            & (end <= self.len)
            & (n.name == 0)
            & (n.stop == 0)
            & (n.opened == 0)
            & (n.ended == Ended::Open as u32)
    }

    // What row h says of itself. The last of another node than a tag is h, which is below the count.
    fn own_sound(&self, h: usize) -> bool
        requires { h < self.now.count }
        ensures { result ≡ own_sound self.now.len self.now.count h (node_at self.now.table.now h) }
    {
        let n = self.row(h);
        let last = n.last as usize;
        if n.is_tag() {
            if last < h {
                return false;
            }
            if self.count <= last {
                return false;
            }
            if !self.tag_places(h) {
                return false;
            }
            return self.tag_ended(h);
        }
        if last != h {
            return false;
        }
        self.other_sound(h)
    }

    // ---- a row and its parent

    // What the node n of row h says of its parent. It climbs from row `from` - 1 through parents, by their words, as far as n's own: each
    // lies below h as its word says, and none that is passed may reach h. The rows between a row and its parent end before that row.
    fn under(&self, n: Node, h: usize, from: usize) -> bool
        requires h_in_bounds { (h < self.now.count) × ClimbStart self.now.table.now h from × (h ≤ n.last) }
        requires by_index { (j : ℕ) → j < h → (node_at self.now.table.now j).parent ≡ parent_at self.now.table.now j }
        ensures { result ≡ under_sound self.now.table.now (parent_at self.now.table.now h) n }
    {
        let parent = n.parent as usize;
        let mut p = from;
        // A climb from row to row: there is no index to count.
        while p != parent {
            if p == 0 {
                return false;
            }
            let m = self.row(p - 1);
            let last = m.last as usize;
            if h <= last {
                return false;
            }
            p = m.parent as usize;
        }
        if p == 0 {
            return true;
        }
        let m = self.row(p - 1);
        n.last <= m.last
    }

    // Row h, whose climb starts at `from`. The next row may lie in h if that is a tag, and else in no row after the parent of h.
    fn row_sound(&self, h: usize, from: usize) -> Option<usize>
        requires h_lt_count { (h < self.now.count) × ClimbStart self.now.table.now h from }
        requires by_index { (j : ℕ) → j < h → (node_at self.now.table.now j).parent ≡ parent_at self.now.table.now j }
        ensures { result ≡ next_climb self.now.len self.now.table.now self.now.count h }
    {
        let n = self.row(h);
        if !self.own_sound(h) {
            return None;
        }
        if !self.under(n, h, from) {
            return None;
        }
        if n.is_tag() {
            return Some(h + 1);
        }
        Some(n.parent as usize)
    }

    // All rows. A loop: its invariant says that the climb for h may start at `from`, where a fold would ask that anew of each turn.
    fn rows_sound(&self) -> bool
        ensures { result ≡ all (row_sound self.now.len self.now.table.now self.now.count) self.now.count }
    {
        let mut from = 0;
        for h in 0..self.count {
            let Some(next) = self.row_sound(h, from) else {
                return false;
            };
            from = next;
        }
        true
    }
}

// ---- the table

// The header's words but the count.
fn head_sound(table: &[u32], len: usize) -> bool
    requires { head_words ≤ length table.now }
    ensures { result ≡ head_sound len table.now }
{
    ((table[1] == 0) | (table[1] == HTML5))
        & (table[2] as usize == len)
        & (table[3] == table::HEAD as u32)
        & (table[4] == table::ROW as u32)
        & (table[5] == 0)
        & (table[6] == 0)
        & (table[7] == 0)
}

// Whether the table is sound for a page of len bytes. A function of its own in the program too: inlined, the walk over the rows would share
// its registers with what the caller keeps, and took up to a tenth longer.
#[inline(never)]
pub fn table_sound(table: &[u32], len: usize) -> bool
    ensures { result ≡ sound len table.now }
{
    if table.len() < table::HEAD {
        return false;
    }
    if !head_sound(table, len) {
        return false;
    }
    // The rows that there is room for: no product of the count, which is any word.
    let room = (table.len() - table::HEAD) / table::ROW;
    let count = table[0] as usize;
    if room < count {
        return false;
    }
    TableRows { table, len, count }.rows_sound()
}

// ---- what every question is asked of

// A page, and a table that is sound for it. Each is lent for its own time: a part of the page may be kept when the table is read into anew.
#[derive(Clone, Copy)]
pub struct Document<'p, 't> {
    pub page: &'p [u8],
    pub table: &'t [u32],
    ghost fits: { sound (length page.now) table.now ≡ true },
}

impl<'p, 't> Document<'p, 't> {
    // The page with the table, if that is sound for it. Not by `then_some`, which would make the document before the test.
    pub fn new(page: &'p [u8], table: &'t [u32]) -> Option<Document<'p, 't>>
        ensures sound { IsSome result ↔ (sound (length page.now) table.now ≡ true) }
        ensures lent { IfSome result (λ d. (d.page.now ≡ page.now) × (d.table.now ≡ table.now)) }
    {
        if table_sound(table, page.len()) {
            return Some(Document { page, table });
        }
        None
    }

    // How many rows the table has. Walks ask by handle: an iterator of rows would serve few of them, as the others go down, or over a
    // part of the rows, or want no node.
    pub fn count(&self) -> usize
        ensures rows { result ≡ count_of self.now.table.now }
        ensures word { result < 2 ^ 32 }
    {
        self.table[0] as usize
    }

    // The version of the page: 5 if its document type names html, else 0.
    pub fn version(&self) -> u32
        ensures { result ≡ get_or self.now.table.now 1 0 }
    {
        self.table[1]
    }

    // The node of row h. A handle is a number, as the calls are given it and answer it.
    pub fn row(&self, h: usize) -> Node
        requires { h < count_of self.now.table.now }
        ensures node { result ≡ node_at self.now.table.now h }
        ensures places { Places self.now.page.now result }
        ensures last { (h ≤ result.last) × (result.last < count_of self.now.table.now) }
    {
        table::row_at(self.table, h)
    }

    // Whether a handle is a tag's.
    pub fn is_tag(&self, h: usize) -> bool
        ensures { result ≡ is_tag self.now.table.now h }
    {
        h < self.count() && self.row(h).is_tag()
    }
}
