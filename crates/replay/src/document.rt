// The questions about a page and its table. Those about a list of handles are in `lists`.

ghost use Rattle.std.specs.Prelude.{◌++◌, length};
ghost use Rattle.rules.specs.Ascii.{bytes};
ghost use Rattle.rules.specs.Profile.{settings_of};
ghost use Rattle.rules.specs.Refusals.{manner_of, view_of, ranged_numbers, found_numbers, asked_numbers};
ghost use Rattle.rules.specs.Answers.{range_answer, text_answer, text_buffer, attribute_answer, attribute_part, id_answer};
ghost use Rattle.rules.specs.Answers.{class_answer, class_buffer};
ghost use Rattle.rules.specs.Answers.{query_answer, query_buffer, query_below_answer, query_below_buffer};
ghost use Rattle.lines.specs.Writer.{Puts};
ghost use Rattle.records.specs.Printed.{line};
ghost use Rattle.replay.specs.Printed.{Prints};

use crate::lending::nines;
use lines::Writer;
use profile::SIZE;
use records::Question;

// A profile, a page and its table, which the questions are about. `answer` chooses among the other methods, of which each asks one, and
// writes the line of the answer. These are alike but for the call: in a closure its promise would be said once more.
#[derive(Clone, Copy)]
pub struct Document<'a> {
    pub profile: &'a [u8; SIZE],
    pub page: &'a [u8],
    pub table: &'a [u32],
}

#[tactic(auto, unfolding(records::specs::Printed::line))]
impl Document<'_> {
    // The line of the answer to a question.
    pub fn answer(
        &self,
        question: Question,
        body: &[u8],
        text: &mut [u8],
        words: &mut [u32],
        out: &mut Writer,
    ) -> Option<()> {
        match question {
            Question::Range { handle } => self.range(handle, out),
            Question::Attribute { handle } => self.attribute(handle, body, out),
            Question::AttributeOr { handle, size } => {
                let (fallback, name) = body.split_at_checked(size as usize)?;
                self.attribute_or(handle, name, fallback, out);
            }
            Question::AttributeOrPart { handle, from, to } => {
                let fallback = self.page.get(from as usize..to as usize)?;
                self.attribute_or(handle, body, fallback, out);
            }
            Question::Text { handle, room } => self.text(handle, nines(text, room)?, out),
            Question::Id { manner, view } => self.id(manner, view, body, out),
            Question::Class { manner, room, view } => {
                self.class(manner, view, body, nines(words, room)?, out)
            }
            Question::Query { view, room } => self.query(view, body, nines(words, room)?, out),
            Question::Below { handle, room, view } => {
                self.below(handle, view, body, nines(words, room)?, out)
            }
            _ => self.answer_of_list(question, body, text, words, out)?,
        }
        Some(())
    }

    pub fn range(&self, h: u32, out: &mut Writer)
        ensures { let f = settings_of self.now.profile.now in
            let numbers = ranged_numbers (range_answer f self.now.page.now self.now.table.now h) in
            Puts out.old (line (bytes "range") numbers) out.new }
    {
        let mut answer = [0; 3];
        let number = tl::tl_range(self.profile, self.page, self.table, h as usize, &mut answer);
        records::put_line(out, b"range", &[number], &answer);
    }

    pub fn attribute(&self, h: u32, name: &[u8], out: &mut Writer)
        ensures { let f = settings_of self.now.profile.now in
            let numbers = asked_numbers (attribute_answer f self.now.page.now self.now.table.now h name.now) in
            Puts out.old (line (bytes "attribute") numbers) out.new }
    {
        let mut answer = [0; 3];
        let number = tl::tl_attribute(
            self.profile,
            self.page,
            self.table,
            h as usize,
            name,
            &mut answer,
        );
        records::put_line(out, b"attribute", &[number], &answer);
    }

    // The attribute with a fallback: four numbers, and then the bytes that the call hands back.
    pub fn attribute_or(&self, h: u32, name: &[u8], fallback: &[u8], out: &mut Writer)
        ensures { let f = settings_of self.now.profile.now in
            let p = self.now.page.now in
            let t = self.now.table.now in
            let numbers = asked_numbers (attribute_answer f p t h name.now) in
            let part = attribute_part f p t h name.now fallback.now in
            Puts out.old (line (bytes "fallback") (numbers ++ part)) out.new }
    {
        let mut numbers = [0; 4];
        let part = calls::attribute(
            self.profile,
            self.page,
            self.table,
            h as usize,
            name,
            fallback,
            &mut numbers,
        );
        records::put_line(out, b"fallback", &numbers, part);
    }

    pub fn text(&self, h: u32, text: &mut [u8], out: &mut Writer)
        ensures { let f = settings_of self.now.profile.now in
            let p = self.now.page.now in
            let t = self.now.table.now in
            let b = text.old in
            Prints out.old (bytes "text") (text_answer f p t h (length b)) (text_buffer f p t h b) out.new text.new }
    {
        let mut count = 0;
        let number = tl::tl_inner_text(
            self.profile,
            self.page,
            self.table,
            h as usize,
            text,
            &mut count,
        );
        records::put_line(out, b"text", &[number as usize, count], text);
    }

    pub fn id(&self, manner: u32, view: u32, id: &[u8], out: &mut Writer)
        ensures { let f = settings_of self.now.profile.now in
            let numbers = found_numbers (id_answer f self.now.page.now self.now.table.now (manner_of manner view) id.now) in
            Puts out.old (line (bytes "id") numbers) out.new }
    {
        let mut answer = [0; 2];
        let number = tl::tl_get_element_by_id(
            self.profile,
            self.page,
            self.table,
            manner,
            view,
            id,
            &mut answer,
        );
        records::put_line(out, b"id", &[number], &answer);
    }

    // Not inlined: the counts that list the closed tags take 64 KiB of stack, which each question would touch.
    #[inline(never)]
    pub fn class(&self, manner: u32, view: u32, class: &[u8], words: &mut [u32], out: &mut Writer)
        ensures { let f = settings_of self.now.profile.now in
            let p = self.now.page.now in
            let t = self.now.table.now in
            let m = manner_of manner view in
            let k = class.now in
            let b = words.old in
            Prints out.old (bytes "class") (class_answer f p t m k (length b)) (class_buffer f p t m k b) out.new words.new }
    {
        let mut count = 0;
        let number = tl::tl_get_elements_by_class_name(
            self.profile,
            self.page,
            self.table,
            manner,
            view,
            class,
            words,
            &mut count,
        );
        records::put_line(out, b"class", &[number as usize, count], words);
    }

    pub fn query(&self, view: u32, s: &[u8], words: &mut [u32], out: &mut Writer)
        ensures { let f = settings_of self.now.profile.now in
            let p = self.now.page.now in
            let t = self.now.table.now in
            let v = view_of view in
            let k = s.now in
            let b = words.old in
            Prints out.old (bytes "query") (query_answer f p t v k (length b)) (query_buffer f p t v k b) out.new words.new }
    {
        let mut count = 0;
        let number = tl::tl_query_selector(
            self.profile,
            self.page,
            self.table,
            view,
            s,
            words,
            &mut count,
        );
        records::put_line(out, b"query", &[number as usize, count], words);
    }

    pub fn below(&self, h: u32, view: u32, s: &[u8], words: &mut [u32], out: &mut Writer)
        ensures { let f = settings_of self.now.profile.now in
            let p = self.now.page.now in
            let t = self.now.table.now in
            let v = view_of view in
            let k = s.now in
            let b = words.old in
            Prints out.old (bytes "below") (query_below_answer f p t h v k (length b)) (query_below_buffer f p t h v k b) out.new words.new }
    {
        let mut count = 0;
        let number = tl::tl_query_selector_below(
            self.profile,
            self.page,
            self.table,
            h as usize,
            view,
            s,
            words,
            &mut count,
        );
        records::put_line(out, b"below", &[number as usize, count], words);
    }
}
