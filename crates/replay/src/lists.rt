// The questions about a list of handles, with which the bytes of their record begin.

ghost use Rattle.std.specs.Prelude.{length};
ghost use Rattle.rules.specs.Ascii.{bytes};
ghost use Rattle.rules.specs.Profile.{settings_of};
ghost use Rattle.rules.specs.Batch.{attributes_answer, attributes_buffer, names_answer, names_buffer, texts_answer, texts_buffer, ends_buffer};
ghost use Rattle.replay.specs.Printed.{Prints, PrintsBoth};

use crate::document::Document;
use crate::lending::nines;
use lines::Writer;
use records::{Number, Question};

// The most handles of a list, and the most ends of names and of texts.
const MOST: usize = 256;

// So many numbers, with which the bytes begin, and the bytes after them.
fn leading<'a, 'b, T: Number>(
    body: &'a [u8],
    buffer: &'b mut [T],
    count: u32,
) -> Option<(&'b [T], &'a [u8])> {
    let numbers = buffer.get_mut(..count as usize)?;
    let at = records::numbers_at(body, 0, numbers)?;
    Some((numbers, body.get(at..)?))
}

impl Document<'_> {
    // The line of the answer to a question, if it is about a list.
    pub fn answer_of_list(
        &self,
        question: Question,
        body: &[u8],
        text: &mut [u8],
        words: &mut [u32],
        out: &mut Writer,
    ) -> Option<()> {
        let (mut list, mut places) = ([0; MOST], [0; MOST]);
        match question {
            Question::Attributes { handles, room } => {
                let (handles, name) = leading(body, &mut list, handles)?;
                self.attributes(handles, name, nines(words, room)?, out);
            }
            Question::Texts {
                handles,
                room,
                ends,
            } => {
                let (handles, _) = leading(body, &mut list, handles)?;
                self.texts(handles, nines(&mut places, ends)?, nines(text, room)?, out);
            }
            Question::Names {
                handles,
                room,
                names,
            } => {
                let (handles, body) = leading(body, &mut list, handles)?;
                let (ends, names) = leading(body, &mut places, names)?;
                self.names(handles, names, ends, nines(words, room)?, out);
            }
            _ => return None,
        }
        Some(())
    }

    pub fn attributes(&self, handles: &[u32], name: &[u8], words: &mut [u32], out: &mut Writer)
        ensures { let f = settings_of self.now.profile.now in
            let p = self.now.page.now in
            let t = self.now.table.now in
            let hs = handles.now in
            let b = words.old in
            Prints out.old (bytes "attributes") (attributes_answer f p t hs (length b))
            (attributes_buffer f p t hs name.now b) out.new words.new }
    {
        let mut count = 0;
        let number = tl::tl_attributes(
            self.profile,
            self.page,
            self.table,
            handles,
            name,
            words,
            &mut count,
        );
        records::put_line(out, b"attributes", &[number as usize, count], words);
    }

    // Names and ends go as two slices, as the call takes them.
    pub fn names(
        &self,
        handles: &[u32],
        names: &[u8],
        ends: &[usize],
        words: &mut [u32],
        out: &mut Writer,
    )
        ensures { let f = settings_of self.now.profile.now in
            let p = self.now.page.now in
            let t = self.now.table.now in
            let hs = handles.now in
            let es = ends.now in
            let b = words.old in
            Prints out.old (bytes "names") (names_answer f p t hs es (length b)) (names_buffer f p t hs names.now es b) out.new words.new }
    {
        let mut count = 0;
        let number = tl::tl_attributes_for_names(
            self.profile,
            self.page,
            self.table,
            handles,
            names,
            ends,
            words,
            &mut count,
        );
        records::put_line(out, b"names", &[number as usize, count], words);
    }

    pub fn texts(&self, handles: &[u32], ends: &mut [usize], text: &mut [u8], out: &mut Writer)
        ensures { let f = settings_of self.now.profile.now in
            let p = self.now.page.now in
            let t = self.now.table.now in
            let hs = handles.now in
            let e = ends.old in
            let b = text.old in
            let answer = texts_answer f p t hs (length e) (length b) in
            PrintsBoth out.old (bytes "texts") answer (ends_buffer f p t hs e b) (texts_buffer f p t hs e b) out.new ends.new text.new }
    {
        let mut count = 0;
        let number = tl::tl_inner_texts(
            self.profile,
            self.page,
            self.table,
            handles,
            ends,
            text,
            &mut count,
        );
        // This line alone has two lists after its numbers.
        out.put(b"texts");
        out.put_fields(&[number as usize, count]);
        out.put_fields(ends);
        out.put_fields(text);
        out.put_byte(b'\n');
    }
}
