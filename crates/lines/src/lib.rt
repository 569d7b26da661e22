// The lines that the listing program prints, written into a lent buffer.

#![tactic(auto)]

ghost use Rattle.std.specs.Prelude.{◌≡◌, true, [], ◌∷◌, ℕ, length, flat_map, Ok};
ghost use Rattle.rules.specs.Sound.{sound};
ghost use Rattle.rules.specs.Refusals.{Counts, number_of};
ghost use Rattle.lines.specs.Lines.{field, kind_name, parent_name, tag_name, NameWithin, node_line, head_line, listing_text, refused_text, answer_text};
ghost use Rattle.lines.specs.Writer.{Puts};
ghost use Rattle.lines.specs.Writes.{Ends};

use itoa::{Buffer, Integer};
use rules::{Node, Refusal};
use sound::Document;

// A lent buffer, and the place after what was written into it. A byte that finds no room is not written, and the place then stays
// one past the end: so one test at the end is enough. Numbers are written by itoa, which needs no heap.
#[derive(Drop)]
pub struct Writer<'a> {
    pub out: &'a mut [u8],
    pub at: usize,
}

impl<'a> Writer<'a> {
    pub fn new(out: &'a mut [u8]) -> Writer<'a>
        ensures same { result.out.ghost_name ≡ out.entry.ghost_name }
        ensures bytes { result.out.now ≡ out.old }
        ensures place { result.at ≡ 0 }
    {
        Writer { out, at: 0 }
    }

    pub fn put_byte(&mut self, b: u8)
        ensures { Puts self.old (b ∷ []) self.new }
    {
        let at = self.at;
        if at < self.out.len() {
            self.out[at] = b;
            self.at = at + 1;
        } else if at == self.out.len() {
            self.at = at + 1;
        }
    }

    // As far as there is room, in one step: a byte at a time, the place would be stored and read again for each. A text of one byte, as most
    // numbers are, goes as a byte.
    pub fn put(&mut self, text: &[u8])
        ensures { Puts self.old text.now self.new }
    {
        if let [b] = text {
            self.put_byte(*b);
            return;
        }
        let at = self.at;
        if at <= self.out.len() {
            let room = self.out.len() - at;
            let size = text.len().min(room);
            copy(&text[..size], &mut self.out[at..at + size]);
            self.at = at + text.len().min(room + 1);
        }
    }

    pub fn put_number<I: Integer>(&mut self, n: I)
        ensures { Puts self.old (I.text n) self.new }
    {
        let mut digits = Buffer::new();
        self.put(digits.format(n).as_bytes());
    }

    // A space and a word. `put_field` is the same for a number: they share one line, and differ in the other.
    pub fn put_word(&mut self, word: &[u8])
        ensures { Puts self.old (field word.now) self.new }
    {
        self.put_byte(b' ');
        self.put(word);
    }

    // A space and a number.
    pub fn put_field<I: Integer>(&mut self, n: I)
        ensures { Puts self.old (field (I.text n)) self.new }
    {
        self.put_byte(b' ');
        self.put_number(n);
    }

    // Each number after a space.
    pub fn put_fields<I: Integer>(&mut self, numbers: &[I])
        ensures { Puts self.old (flat_map (λ n. field (I.text n)) numbers.now) self.new }
    {
        for n in numbers {
            self.put_field(*n);
        }
    }

    // ---- the lines: page and node go as two, since a node is words alone, and holds no page

    fn put_parent(&mut self, n: Node)
        ensures { Puts self.old (field (parent_name n.parent)) self.new }
    {
        match n.parent() {
            Some(h) => self.put_field(h),
            None => self.put_word(b"-"),
        }
    }

    // The name of a tag, if it has one; another node has none.
    fn put_name(&mut self, page: &[u8], n: Node)
        requires { NameWithin page.now n }
        ensures { Puts self.old (tag_name page.now n) self.new }
    {
        if !n.is_tag() {
            return;
        }
        let name = &page[n.name as usize..n.stop as usize];
        if !name.is_empty() {
            self.put_word(name);
        }
    }

    // The line of the node n of handle h.
    fn put_line(&mut self, page: &[u8], h: usize, n: Node)
        requires { NameWithin page.now n }
        ensures { Puts self.old (node_line page.now h n) self.new }
    {
        self.put_number(h);
        self.put_word(kind_name(n));
        self.put_parent(n);
        self.put_field(n.start);
        self.put_field(n.end);
        self.put_field(n.last);
        self.put_name(page, n);
        self.put_byte(b'\n');
    }

    fn put_head(&mut self, count: usize, version: u32)
        ensures { Puts self.old (head_line count version) self.new }
    {
        self.put(b"nodes");
        self.put_field(count);
        self.put_word(b"version");
        self.put_field(version);
        self.put_byte(b'\n');
    }

    fn put_listing(&mut self, d: &Document)
        ensures { Puts self.old (listing_text d.now.page.now d.now.table.now) self.new }
    {
        self.put_head(d.count(), d.version());
        for h in 0..d.count() {
            self.put_line(d.page, h, d.row(h));
        }
    }

    fn put_refused(&mut self, number: u32)
        ensures { Puts self.old (refused_text number) self.new }
    {
        self.put(b"refused");
        self.put_field(number);
        self.put_byte(b'\n');
    }

    // What was written is counted, or cleared where it found no room.
    fn finish(&mut self) -> Result<usize, Refusal>
        ensures text { Ends self.old.out.now self.old.at self.new.out.now result }
        ensures same { self.new.out.ghost_name ≡ self.old.out.ghost_name }
    {
        if self.out.len() < self.at {
            return table::refuse(self.out, Refusal::BufferTooShort);
        }
        Ok(self.at)
    }
}

// A copy. A few bytes go one by one: a call of the C library would take longer.
fn copy(bytes: &[u8], to: &mut [u8])
    requires { length to.old ≡ length bytes.now }
    ensures { to.new ≡ bytes.now }
{
    if 8 < bytes.len() {
        to.copy_from_slice(bytes);
        return;
    }
    for i in 0..bytes.len() {
        to[i] = bytes[i];
    }
}

fn kind_name(n: Node) -> &'static [u8]
    ensures { result.now ≡ kind_name n.kind }
{
    if n.is_tag() {
        b"tag"
    } else if n.is_text() {
        b"text"
    } else {
        b"comment"
    }
}

// ---- the whole text, or a refusal for lack of room

// The listing of a page, by its table.
pub fn listing(d: &Document, out: &mut [u8]) -> Result<usize, Refusal>
    ensures { Counts (listing_text d.now.page.now d.now.table.now) out.old result out.new }
{
    let mut writer = Writer::new(out);
    writer.put_listing(d);
    writer.finish()
}

// The line of a refusal.
pub fn refused(x: Refusal, out: &mut [u8]) -> Result<usize, Refusal>
    ensures { Counts (refused_text (number_of x)) out.old result out.new }
{
    let mut writer = Writer::new(out);
    writer.put_refused(u32::from(x));
    writer.finish()
}

// What is printed where reading the page into the table answered `read`. The table makes a document only where it was read.
pub fn answer(
    page: &[u8],
    table: &[u32],
    read: Result<usize, Refusal>,
    out: &mut [u8],
) -> Result<usize, Refusal>
    requires { (n : ℕ) → read ≡ Ok n → sound (length page.now) table.now ≡ true }
    ensures { Counts (answer_text page.now table.now read) out.old result out.new }
{
    match read {
        Ok(_) => listing(&Document { page, table }, out),
        Err(x) => refused(x, out),
    }
}
