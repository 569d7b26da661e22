// The reader's tree (parser/base): each item that was read goes into the lent table.
// There is no stack: the open tags are the innermost one and, by word 6 of the rows, its parents.

#![tactic(auto)]

ghost use Rattle.std.specs.Prelude.{◌≡◌, ◌≤◌, ◌<◌, Bool, List, ℕ, length};
ghost use Rattle.rules.specs.Scan.{pick, part, same};
ghost use Rattle.rules.specs.Reader.{Reading, pushed, leaf, ended_by, put as put_item};
ghost use Rattle.rules.specs.Profile.{page_limit, void_of};
ghost use Rattle.rules.specs.declared.Item.TheVariants.{Tag, Close};
ghost use Rattle.tree.specs.Held.{Step, RowRoom, Inner, IsPart, Fits, Registered, moved_to, added_to, version_to, Open, Settled};

use profile::VoidNames;
use rules::{Ended, HTML5, Item, Kind, Node, State};

// ---- page and table go as two: the table is being written, and is no document before the end. The page is within the limit, as the reading
// has tested, so that each place fits a word; each function says so for itself, since a page is a slice.

// ---- the state: a value beside the lent table, and no struct with it, since a step without room leaves no state

// The state at another place.
fn moved(s: State, at: usize) -> State
    ensures { result ≡ moved_to s at }
{
    State { at, ..s }
}

// The state with a row more.
fn added(s: State, at: usize, inner: u32) -> State
    requires { s.count < page_limit }
    ensures { result ≡ added_to s at inner }
{
    let count = s.count + 1;
    State {
        at,
        count,
        inner,
        ..s
    }
}

// The state after a document type: version 5 if it named html, otherwise as it was.
fn set_version(s: State, html: bool, at: usize) -> State
    ensures { result ≡ version_to s html at }
{
    let version = if html { HTML5 } else { s.version };
    State { at, version, ..s }
}

// ---- rows: kind and ending go as the words that they are in the table, which C reads

// Writes a new row, if there is room for it.
fn register_tag(table: &mut [u32], h: usize, n: Node) -> Option<()>
    requires { h < page_limit }
    ensures { Registered table.old h n table.new result }
{
    let size = table::HEAD + table::ROW * h + table::ROW;
    if table.len() < size {
        return None;
    }
    table::put_row(table, h, n);
    Some(())
}

// A text or a comment, by its kind's word, in the innermost open tag; reading goes on at `next`. `None`: there is no room for its row.
fn put_leaf(
    table: &mut [u32],
    s: State,
    kind: u32,
    start: usize,
    end: usize,
    next: usize,
) -> Option<State>
    requires { RowRoom table.old s × IsPart page_limit start end }
    ensures { Step (λ (R : Reading). pushed R (leaf R kind start end) next) table.old s table.new result }
{
    let h = s.count;
    let inner = s.inner;
    let n = Node {
        kind,
        start: start as u32,
        end: end as u32,
        name: 0,
        stop: 0,
        opened: 0,
        parent: inner,
        last: h as u32,
        ended: Ended::Open as u32,
    };
    register_tag(table, h, n)?;
    Some(added(s, next, inner))
}

// How a new tag has ended so far, as its row's word, where `shut` says that it is not opened.
fn ended_new(shut: bool) -> u32
    ensures { result ≡ pick shut 3 0 }
{
    let ended = if shut {
        Ended::NeverOpened
    } else {
        Ended::Open
    };
    ended as u32
}

// How a closing tag ends the tag that it closes, as its row's word: its name ends at e, and its `>`, if it has one, is passed.
fn ended_by(e: usize, next: usize) -> u32
    ensures { result ≡ ended_by e next }
{
    let ended = if e < next {
        Ended::Closed
    } else {
        Ended::CutShort
    };
    ended as u32
}

// A tag in the innermost open tag: its name from a to e, the place after its `>`, and whether it ended in `/>`.
// It becomes the innermost open tag, unless it ended in `/>` or its name is void.
fn put_tag(
    table: &mut [u32],
    void: &VoidNames,
    page: &[u8],
    s: State,
    a: usize,
    e: usize,
    next: usize,
    slash: bool,
) -> Option<State>
    requires { RowRoom table.old s × Fits (length page.now) s.at (Tag a e next slash) × (length page.now ≤ page_limit) }
    ensures { Step (λ (R : Reading). put_item (void_of void.now.profile.bytes.now) page.now R (Tag a e next slash)) table.old s table.new result }
{
    let h = s.count;
    let inner = s.inner;
    let shut = slash | void.is_void(page, a, e);
    let ended = ended_new(shut);
    let n = Node {
        kind: Kind::Tag as u32,
        start: s.at as u32,
        end: next as u32,
        name: a as u32,
        stop: e as u32,
        opened: next as u32,
        parent: inner,
        last: h as u32,
        ended,
    };
    register_tag(table, h, n)?;
    if shut {
        return Some(added(s, next, inner));
    }
    Some(added(s, next, h as u32 + 1))
}

// Whether a tag's row has the closing name from a to e. Page and node go as two: a node is words alone, and holds no page.
fn has_name(page: &[u8], n: Node, a: usize, e: usize) -> bool
    requires { IsPart (length page.now) n.name n.stop × IsPart (length page.now) a e }
    ensures { result ≡ same (part page.now n.name n.stop) (part page.now a e) }
{
    let x = n.name as usize;
    let y = n.stop as usize;
    constants::is_same(&page[x..y], &page[a..e])
}

// A closing name from a to e: the innermost open tag is closed if it has that name, and no other is looked at.
fn close_tag(table: &mut [u32], page: &[u8], s: State, a: usize, e: usize, next: usize) -> State
    requires { RowRoom table.old s
        × Inner table.old s (length page.now)
        × Fits (length page.now) s.at (Close a e next)
        × (length page.now ≤ page_limit) }
    ensures { (void : List ℕ → Bool) → Step (λ (R : Reading). put_item void page.now R (Close a e next)) table.old s table.new (Some result) }
{
    let inner = s.inner as usize;
    if inner == 0 {
        return moved(s, next);
    }
    let k = inner - 1;
    let n = table::row_at(table, k);
    if has_name(page, n, a, e) {
        let last = s.count - 1;
        let ended = ended_by(e, next);
        table::close_row(table, k, next as u32, last as u32, ended);
        return State {
            at: next,
            inner: n.parent,
            ..s
        };
    }
    moved(s, next)
}

// Puts what stands at the state's place into the table; `None` where there is no room for its row.
pub fn put(table: &mut [u32], void: &VoidNames, page: &[u8], s: State, item: Item) -> Option<State>
    requires { RowRoom table.old s
        × Inner table.old s (length page.now)
        × Fits (length page.now) s.at item
        × (length page.now ≤ page_limit) }
    ensures { Step (λ (R : Reading). put_item (void_of void.now.profile.bytes.now) page.now R item) table.old s table.new result }
{
    match item {
        Item::Text(e) => {
            let at = s.at;
            put_leaf(table, s, Kind::Text as u32, at, e, e)
        }
        Item::Close { name, stop, next } => Some(close_tag(table, page, s, name, stop, next)),
        Item::Comment { start, end, next } => put_leaf(
            table,
            s,
            Kind::Comment as u32,
            start,
            end,
            next,
        ),
        Item::Doctype { html, next } => Some(set_version(s, html, next)),
        Item::Tag {
            name,
            stop,
            next,
            slash,
        } => put_tag(table, void, page, s, name, stop, next, slash),
        Item::Nothing(next) => Some(moved(s, next)),
    }
}

// ---- the end of the page

// Gives the open tags, from the innermost to its parents, their last descendant.
// This is done once, at the end, since a page may nest tens of thousands deep.
pub fn settle(table: &mut [u32], inner: u32, last: u32)
    requires { Open table.old inner }
    ensures { Settled table.old inner last table.new }
{
    let mut p = inner;
    // A climb from row to row, by their words for the parent: there is no index to count, and no stack of open tags.
    while 0 < p {
        let k = p as usize - 1;
        let n = table::row_at(table, k);
        table::close_row(table, k, n.end, last, n.ended);
        p = n.parent;
    }
}
