// Writes a page that has the most nodes that a page of its length may have: reads the length on standard input, 1 to 5 digits
// and one line feed after them if any, and writes the page, or `refused`.

#![tactic(auto)]

ghost use Rattle.std.specs.Prelude.{◌≡◌, ◌≤◌, length};
ghost use Rattle.rules.specs.Profile.{page_limit};
ghost use Rattle.rules.specs.Buffers.{Wrote};
ghost use Rattle.fullpage.specs.Asked.{input_ends, asked_length, page_text};

use rules::PAGE_LIMIT;
use std::io;
use std::io::Print;

// The input ends at the place, or after a line feed there.
fn ends(s: &[u8], at: usize) -> bool
    ensures { result ≡ input_ends s.now at }
{
    matches!(s.get(at..), Some([] | [b'\n']))
}

// How many bytes of a page the input asks for.
#[tactic(auto, unfolding(crate::specs::Asked::asked_length))]
fn asked(s: &[u8]) -> Option<usize>
    ensures { result ≡ asked_length s.now }
{
    let (n, end) = decimal::number_at(s, 0)?;
    let n = n as usize;
    (end <= 5 && n <= PAGE_LIMIT && ends(s, end)).then_some(n)
}

// Writes what the input asks for, and answers how many bytes that are.
fn answer(s: &[u8], out: &mut [u8]) -> usize
    requires { page_limit ≤ length out.old }
    ensures { Wrote out.old 0 (page_text (asked_length s.now)) out.new result }
{
    let Some(n) = asked(s) else {
        let text = b"refused";
        out[..text.len()].copy_from_slice(text);
        return text.len();
    };
    maxnodes::fill(&mut out[..n]);
    n
}

// Seven bytes are refused whatever follows them, so no more are read.
fn main(rt: HostRuntime) -> io::Result<()> {
    let mut input = [0u8; 7];
    let mut page = [0u8; PAGE_LIMIT];
    let k = input::read_full(&mut rt.stdin(), &mut input)?;
    let n = answer(&input[..k], &mut page);
    rt.write_all(&page[..n])
}
