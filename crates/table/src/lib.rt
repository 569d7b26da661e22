// The table of nodes in a lent slice of words: a header, then a row for each node. It stands for tl's Vec of nodes.

#![tactic(auto)]

ghost use Rattle.std.specs.Prelude.{◌≡◌, ◌++◌, ◌+◌, ◌≤◌, length, drop, replicate};
ghost use Rattle.rules.specs.Reader.{closed};
ghost use Rattle.rules.specs.Refusals.{Refuses};
ghost use Rattle.rules.specs.Table.{head_words, row_words, row_at, put_row, node_at, head_of};

use rules::{Node, Refusal};

// The words of the header and of a row.
pub const HEAD: usize = 8;

pub const ROW: usize = 9;

// Writes a node into row h.
pub fn put_row(table: &mut [u32], h: usize, n: Node)
    requires { row_at h + row_words ≤ length table.old }
    ensures { table.new ≡ put_row table.old h n }
{
    let start = HEAD + ROW * h;
    table[start..start + ROW].copy_from_slice(&[
        n.kind, n.start, n.end, n.name, n.stop, n.opened, n.parent, n.last, n.ended,
    ]);
}

// The node of row h. Word by word: to become an array, as for `put_row`, a slice needs a conversion that may fail.
pub fn row_at(table: &[u32], h: usize) -> Node
    requires { row_at h + row_words ≤ length table.now }
    ensures { result ≡ node_at table.now h }
{
    let start = HEAD + ROW * h;
    let row = &table[start..start + ROW];
    Node {
        kind: row[0],
        start: row[1],
        end: row[2],
        name: row[3],
        stop: row[4],
        opened: row[5],
        parent: row[6],
        last: row[7],
        ended: row[8],
    }
}

// Sets the end and the last handle of row h, and how it ended, and leaves its other words.
pub fn close_row(table: &mut [u32], h: usize, end: u32, last: u32, ended: u32)
    requires { row_at h + row_words ≤ length table.old }
    ensures { table.new ≡ put_row table.old h (closed (node_at table.old h) end last ended) }
{
    let start = HEAD + ROW * h;
    let row = &mut table[start..start + ROW];
    row[2] = end;
    row[7] = last;
    row[8] = ended;
}

// Writes the header into the first words of the table: node count, version, page length, where the rows start, their width, three
// zeros.
pub fn put_head(table: &mut [u32], count: u32, version: u32, len: u32)
    requires { head_words ≤ length table.old }
    ensures { table.new ≡ head_of count version len ++ drop head_words table.old }
{
    table[..HEAD].copy_from_slice(&[count, version, len, HEAD as u32, ROW as u32, 0, 0, 0]);
}

// An entry of a buffer that is lent for an answer: a byte, a word or a place.
pub trait Entry {
    ghost zero: { Self };

    // Each type clears its own: `fill` over any type would ask for a `clone` that cannot fail.
    fn clear(buffer: &mut [Self])
        ensures { buffer.new ≡ replicate (length buffer.old) zero };
}

impl Entry for u8 {
    ghost zero = { 0 };

    fn clear(bytes: &mut [u8]) {
        bytes.fill(0);
    }
}

impl Entry for u32 {
    ghost zero = { 0 };

    fn clear(words: &mut [u32]) {
        words.fill(0);
    }
}

impl Entry for usize {
    ghost zero = { 0 };

    fn clear(places: &mut [usize]) {
        places.fill(0);
    }
}

// A refusal leaves the lent buffer all zero.
pub fn refuse<T: Entry>(buffer: &mut [T], why: Refusal) -> Result<usize, Refusal>
    ensures { Refuses T.zero buffer.old why result buffer.new }
{
    T::clear(buffer);
    Err(why)
}
