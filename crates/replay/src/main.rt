// Asks the library's calls a list of recorded questions: reads them on standard input, and writes a line for each answer.
// A record is a line of five numbers, of which the first says what is asked and the last how many bytes follow; then these
// bytes, and a line feed. W, B and E are how many entries are lent, each set to 9 before.
//   1 W T 0   a page, the bytes T times over, read into W words          2 h 0 0   the range of h
//   3 h 0 0   an attribute of h, the bytes its name                      4 h B 0   the inner text of h
//   5 m v 0   the tag with an id, in the manner m, with the view v       6 m B v   the tags with a class
//   7 0 B 0   the bytes as a selector                                    8 v B 0   a query over the page
//   9 h B v   a query below h                                            12 i w 0  word i of the table becomes w
//   14 i b 0  byte i of the profile becomes b, from 0 to 255; it is tl's at the start
//   15 h F 0  an attribute of h with a fallback: the first F of the bytes, the rest the name
//   16 h s e  the same, the fallback the page's bytes from s to e (exclusive), the bytes the name
// Of a list of N handles, with which the bytes begin, each a number with a space after it:
//   10 N B 0  an attribute of each tag, the rest of the bytes its name
//   11 N B E  the inner texts, and into E entries where each ends
//   13 N B K  the attributes of each tag for K names: K numbers like the handles, where the names end, and their text
// The list in the file stdin beside src/, and in stdout what is to be printed for it, were recorded by tools/compare/run
// --record. Accepted questions to a page have tl 0.7.8's own answers, those to a list of handles one tag after the other, those with a
// fallback tl's value, or the fallback where tl has none. tl has no views: in the finished one a model leaves out of tl's finds those that
// are not finished, and says which tag has an id. The words of a table are the model's, once tl's nodes agree with it; refusals, what a
// buffer holds, the answers about a table that was changed, and those under another profile than tl's follow the rules.

#![tactic(auto)]

ghost use Rattle.std.specs.Prelude.{◌≡◌, length, IfSome};
ghost use Rattle.replay.specs.Lending.{IsWithin, IsAhead};

mod document;
mod lending;
mod lists;
mod questions;

use lending::{Lent, lend};
use lines::Writer;
use profile::SIZE;
use questions::answer;
use records::{Question, Record};
use rules::PAGE_LIMIT;
use std::io;
use std::io::Print;

// A page that is one byte too long for the library.
const PAGE_ROOM: usize = PAGE_LIMIT + 1;

// The place after a record that was answered, the place after the line of the answer, and what is lent from then on.
#[derive(Clone, Copy)]
struct Step {
    next: usize,
    written: usize,
    lent: Lent,
}

// The buffers that records are answered with: for a profile, a page and its table, for texts, for words, and for a line.
#[derive(Drop)]
struct Buffers<'a> {
    profile: &'a mut [u8; SIZE],
    page: &'a mut [u8],
    table: &'a mut [u32],
    text: &'a mut [u8],
    words: &'a mut [u32],
    out: &'a mut [u8],
}

// Answers the record at the place, if it is one that the buffers have room for: the line of the answer goes into `out`.
fn answer_at(input: &[u8], at: usize, before: Lent, buffers: &mut Buffers) -> Option<Step>
    requires { IsWithin before (length buffers.old.page.now) (length buffers.old.table.now) }
    ensures { IfSome result (λ step. IsAhead step at (length input.now) (length buffers.new.page.now) (length buffers.new.table.now)) }
{
    let Record { head, start } = records::record_at(input, at)?;
    let end = start + head.n as usize;
    let body = &input[start..end];
    let question = Question::try_from(head).ok()?;
    let page = &mut *buffers.page;
    let table = &mut *buffers.table;
    let lent = lend(question, body, page, table.len(), before)?;
    let mut out = Writer::new(&mut *buffers.out);
    // The page is lent as `&mut`: of a field that is lent as `&` the proof would not know afterwards how long it is.
    answer(
        question,
        body,
        &mut *buffers.profile,
        &mut page[..lent.bytes],
        &mut table[..lent.words],
        &mut *buffers.text,
        &mut *buffers.words,
        &mut out,
    )?;
    Some(Step {
        next: end + 1,
        written: out.at,
        lent,
    })
}

// Answers one record after the other, until the input ends, writes the lines of the answers and counts them; none if something stands
// there that is not a record, or whose line finds no room. The place is no counter: a step is as long as its record.
fn replay(rt: &HostRuntime, input: &[u8], buffers: &mut Buffers) -> io::Result<Option<usize>> {
    let mut at = 0;
    let mut count = 0;
    let mut lent = Lent { bytes: 0, words: 0 };
    while at < input.len() {
        let Some(step) = answer_at(input, at, lent, buffers) else {
            return Ok(None);
        };
        let Some(line) = buffers.out.get(..step.written) else {
            return Ok(None);
        };
        rt.write_all(line)?;
        at = step.next;
        lent = step.lent;
        count += 1;
    }
    Ok(Some(count))
}

// A buffer of zeros. Its contract gives only the length: the proof of `main` never looks at so many zeros.
fn zeros<const N: usize>() -> [u8; N]
    ensures { N ≡ length result }
{
    [0; N]
}

// The input; a page; its table, which has a header of 8 words, 1,819 rows of 9, and 5 words after them; the texts of a page; words; the
// longest line, that of texts: 5 bytes for its word, 2 for a refusal's number, 4 for the count, 6 for each of 256 places, 4 for each
// byte, and a line feed; and a profile. It comes last: made between the others, it had them cleared twice.
fn main(rt: HostRuntime) -> io::Result<()> {
    let mut input = zeros::<1048576>();
    let mut page = zeros::<PAGE_ROOM>();
    let mut table = [0u32; 16384];
    let mut text = zeros::<PAGE_ROOM>();
    let mut words = [0u32; 4096];
    let mut out = zeros::<263696>();
    let mut profile = profile::tl();
    let n = input::read_full(&mut rt.stdin(), &mut input)?;
    let mut buffers = Buffers {
        profile: &mut profile,
        page: &mut page,
        table: &mut table,
        text: &mut text,
        words: &mut words,
        out: &mut out,
    };
    // A line that could not be written is told as a bad record is.
    match replay(&rt, &input[..n], &mut buffers) {
        Ok(Some(count)) => println!(rt; "records {count}"),
        Ok(None) | Err(_) => rt.write_all(b"bad record\n"),
    }
}
