// Lists the nodes of a page: reads it on standard input, and writes a line for each node, or the line of a refusal.

#![tactic(auto)]

ghost use Rattle.listing.specs.Lists.{Lists};

use rules::{PAGE_LIMIT, Refusal};
use std::io;
use std::io::Print;

// Reads the page into the table, and writes what is printed of it into `out`. Page and table go as two: the table is written here.
fn list(page: &[u8], table: &mut [u32], out: &mut [u8]) -> Result<usize, Refusal>
    ensures { Lists page.now table.old out.old table.new out.new result }
{
    let read = parser::parse(&profile::tl(), page, table);
    lines::answer(page, table, read, out)
}

// A page of one byte more than the limit is too long, whatever follows. The table has a header of 8 words and 1,819 rows of 9.
// A listing has at most 129,222 bytes, so it is never refused for lack of room: a first line of 21, `nodes 1819 version 5`;
// 1,819 lines of 35 without the names, `1818 comment 1817 65535 65536 1818`; and the names, which lie apart in the page.
fn main(rt: HostRuntime) -> io::Result<()> {
    let mut page = [0u8; PAGE_LIMIT + 1];
    let mut table = [0u32; 16379];
    let mut out = [0u8; 129222];
    let n = input::read_full(&mut rt.stdin(), &mut page)?;
    let r = list(&page[..n], &mut table, &mut out);
    let Ok(k) = r else {
        return Ok(());
    };
    rt.write_all(&out[..k])
}
