// What is lent to the library's calls: a record's page and as many words of the table as it says, and nines in what a call writes into.

ghost use Rattle.std.specs.Prelude.{◌≡◌, length};
ghost use Rattle.lines.specs.Writer.{Puts};
ghost use Rattle.replay.specs.Lending.{repeated, lent_by, page_by};

use lines::Writer;
use records::Question;

// How many bytes of the page and words of the table the questions are about.
#[derive(Clone, Copy)]
pub struct Lent {
    pub bytes: usize,
    pub words: usize,
}

// A text so many times, one after the other.
fn put_repeated(writer: &mut Writer, text: &[u8], times: u32)
    ensures { Puts writer.old (repeated times text.now) writer.new }
{
    // An empty text is not put: the work is then at most as long as the buffer and the text.
    if text.is_empty() {
        return;
    }
    for _i in 0..times {
        writer.put(text);
    }
}

// Puts a record's page into the buffer, if it is a reading, and answers what is lent from then on.
pub fn lend(
    question: Question,
    body: &[u8],
    page: &mut [u8],
    room: usize,
    before: Lent,
) -> Option<Lent>
    ensures value { result ≡ lent_by question (length body.now) (length page.old) room before }
    ensures page_after { page.new ≡ page_by question body.now page.old room }
{
    let Question::Parse { words, times } = question else {
        return Some(before);
    };
    let bytes = body.len().checked_mul(times as usize)?;
    let words = words as usize;
    if page.len() < bytes || room < words {
        return None;
    }
    let mut writer = Writer::new(page);
    put_repeated(&mut writer, body, times);
    Some(Lent { bytes, words })
}

// Nines in as many entries of the buffer as are asked for. With `fill` a clause would have to say that no copy of a nine can fail.
pub fn nines<T: Copy + From<u8>>(buffer: &mut [T], room: u32) -> Option<&mut [T]> {
    let part = buffer.get_mut(..room as usize)?;
    part.fill_with(|| T::from(9));
    Some(part)
}
