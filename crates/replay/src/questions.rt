// The line of the answer to each question: those about a page and its table are methods of `Document`, and those that read a page or a
// selector, or change table or profile, are here.

ghost use Rattle.std.specs.Prelude.{◌≡◌, [], ◌∷◌, length, set};
ghost use Rattle.rules.specs.Ascii.{bytes};
ghost use Rattle.rules.specs.Profile.{settings_of};
ghost use Rattle.rules.specs.Answers.{parse_answer, parse_table, selector_answer, selector_buffer};
ghost use Rattle.lines.specs.Writer.{Puts};
ghost use Rattle.records.specs.Printed.{line};
ghost use Rattle.replay.specs.Printed.{Prints};

use crate::document::Document;
use crate::lending::nines;
use lines::Writer;
use profile::SIZE;
use records::Question;

// The line of the answer to a question. The buffers come one by one, cut to what is lent.
pub fn answer(
    question: Question,
    body: &[u8],
    profile: &mut [u8; SIZE],
    page: &[u8],
    table: &mut [u32],
    text: &mut [u8],
    words: &mut [u32],
    out: &mut Writer,
) -> Option<()> {
    match question {
        Question::Parse { words, .. } => parse(profile, page, nines(table, words)?, out),
        Question::SetWord { place, value } => set_word(table, place, value, out),
        Question::SetByte { place, value } => set_byte(profile, place, value, out),
        Question::Selector { room } => selector(body, nines(words, room)?, out),
        _ => {
            let document = Document {
                profile: &*profile,
                page,
                table: &*table,
            };
            document.answer(question, body, text, words, out)?;
        }
    }
    Some(())
}

// Reads the page into the table.
fn parse(profile: &[u8; SIZE], page: &[u8], table: &mut [u32], out: &mut Writer)
    ensures { let p = page.now in
        let t = table.old in
        Prints out.old (bytes "parse") (parse_answer (settings_of profile.now) p (length t)) (parse_table (settings_of profile.now) p t) out.new table.new }
{
    let mut count = 0;
    let number = tl::tl_parse(profile, page, table, &mut count);
    records::put_line(out, b"parse", &[number as usize, count], table);
}

// Reads the bytes as a selector.
fn selector(s: &[u8], words: &mut [u32], out: &mut Writer)
    ensures { let k = s.now in
        let b = words.old in
        Prints out.old (bytes "selector") (selector_answer k (length b)) (selector_buffer k b) out.new words.new }
{
    let mut count = 0;
    let number = tl::tl_parse_query_selector(s, words, &mut count);
    records::put_line(out, b"selector", &[number as usize, count], words);
}

// Sets an entry, if there are that many.
fn set_entry<T: Copy>(entries: &mut [T], i: u32, v: T)
    ensures { entries.new ≡ set entries.old i v }
{
    let place = i as usize;
    if place < entries.len() {
        entries[place] = v;
    }
}

// Damages the table: sets a word of it.
#[tactic(auto, unfolding(records::specs::Printed::line))]
fn set_word(table: &mut [u32], i: u32, v: u32, out: &mut Writer)
    ensures table_after { table.new ≡ set table.old i v }
    ensures puts { Puts out.old (line (bytes "word") (i ∷ v ∷ [])) out.new }
{
    set_entry(table, i, v);
    records::put_line(out, b"word", &[i], &[v]);
}

// Sets a byte of the profile.
#[tactic(auto, unfolding(records::specs::Printed::line))]
fn set_byte(profile: &mut [u8; SIZE], i: u32, v: u8, out: &mut Writer)
    ensures profile_after { profile.new ≡ set profile.old i v }
    ensures puts { Puts out.old (line (bytes "byte") (i ∷ v ∷ [])) out.new }
{
    set_entry(profile, i, v);
    records::put_line(out, b"byte", &[i], &[v]);
}
