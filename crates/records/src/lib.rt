// A list of recorded questions, and the lines of their answers. A record is a line of five numbers, the last of which says how
// many bytes follow; then these bytes, and a line feed.

#![tactic(auto)]

ghost use Rattle.std.specs.Prelude.{◌≡◌, ℕ, ◌∷◌, [], ◌++◌, length, map, flat_map, IfOk};
ghost use Rattle.std.specs.Option.{option_map};
ghost use Rattle.lines.specs.Lines.{field, line_feed};
ghost use Rattle.lines.specs.Writer.{Puts};
ghost use Rattle.records.specs.Records.{number_before, numbers_at, record_at};
ghost use Rattle.records.specs.Questions.{numbers_of};

use itoa::Integer;
use lines::Writer;

// The five numbers of a record: what is asked, three more, and how many bytes follow.
#[derive(Clone, Copy)]
pub struct Head {
    pub op: u32,
    pub a: u32,
    pub b: u32,
    pub c: u32,
    pub n: u32,
}

// A record's numbers, and the place where its bytes start.
#[derive(Clone, Copy)]
pub struct Record {
    pub head: Head,
    pub start: usize,
}

// An unsigned integer that holds each number of a record. The trait stands here because `usize` is no `From<u32>`, and `TryFrom` would
// add a failure that no number of a record meets.
pub trait Number: Copy {
    ghost value: { Self → ℕ };

    fn of(n: u32) -> Self
        ensures { value result ≡ n };
}

impl Number for u32 {
    ghost value = { λ n. n };

    fn of(n: u32) -> u32 {
        n
    }
}

impl Number for usize {
    ghost value = { λ n. n };

    fn of(n: u32) -> usize {
        n as usize
    }
}

// ---- reading a record

// The number at the place, with the byte q after it, and the place after both. Not by `then_some`, which would make the place before the test
// that a byte stands there.
#[tactic(auto, unfolding(crate::specs::Records::number_before))]
fn number_before(s: &[u8], at: usize, q: u8) -> Option<(u32, usize)>
    ensures { result ≡ number_before q s.now at }
{
    let (n, end) = decimal::number_at(s, at)?;
    if scan::is_at(s, end, q) {
        Some((n, end + 1))
    } else {
        None
    }
}

// Reads as many numbers as there is room for, each with a space after it, and answers the place after them.
pub fn numbers_at<T: Number>(s: &[u8], at: usize, numbers: &mut [T]) -> Option<usize>
    ensures { numbers_at (length numbers.old) s.now at ≡ option_map (λ end. (map T.value numbers.new, end)) result }
{
    let mut place = at;
    for number in numbers.iter_mut() {
        let (n, next) = number_before(s, place, b' ')?;
        *number = T::of(n);
        place = next;
    }
    Some(place)
}

// The record at the place: its numbers with a space after each but the last, its bytes, and a line feed after both.
#[tactic(auto, unfolding(crate::specs::Records::record_at))]
pub fn record_at(s: &[u8], at: usize) -> Option<Record>
    ensures { result ≡ record_at s.now at }
{
    let mut front = [0; 4];
    let place = numbers_at(s, at, &mut front)?;
    let (n, start) = number_before(s, place, b'\n')?;
    if !scan::is_at(s, start + n as usize, b'\n') {
        return None;
    }
    let [op, a, b, c] = front;
    let head = Head { op, a, b, c, n };
    Some(Record { head, start })
}

// ---- what a record asks

// What is asked, with the numbers that it takes. Handles, manners, views and places in a table, a profile or a page are what a record says,
// whether or not they are any; room is how many entries are lent, size how many of the bytes are a fallback.
#[derive(Clone, Copy)]
pub enum Question {
    Parse { words: u32, times: u32 },
    Range { handle: u32 },
    Attribute { handle: u32 },
    Text { handle: u32, room: u32 },
    Id { manner: u32, view: u32 },
    Class { manner: u32, room: u32, view: u32 },
    Selector { room: u32 },
    Query { view: u32, room: u32 },
    Below { handle: u32, room: u32, view: u32 },
    Attributes { handles: u32, room: u32 },
    Texts { handles: u32, room: u32, ends: u32 },
    SetWord { place: u32, value: u32 },
    Names { handles: u32, room: u32, names: u32 },
    SetByte { place: u32, value: u8 },
    AttributeOr { handle: u32, size: u32 },
    AttributeOrPart { handle: u32, from: u32, to: u32 },
}

// No question has such numbers.
#[derive(Clone, Copy)]
pub struct UnknownQuestion;

// A number that a question does not take is zero, and so is the number of its bytes where it takes none.
impl TryFrom<Head> for Question {
    type Error = UnknownQuestion;

    ghost try_from_gives = { λ h r. IfOk r (λ q. numbers_of q ≡ h.op ∷ h.a ∷ h.b ∷ h.c ∷ []) };

    fn try_from(h: Head) -> Result<Question, UnknownQuestion> {
        Ok(match (h.op, h.a, h.b, h.c, h.n) {
            (1, words, times, 0, _) => Question::Parse { words, times },
            (2, handle, 0, 0, 0) => Question::Range { handle },
            (3, handle, 0, 0, _) => Question::Attribute { handle },
            (4, handle, room, 0, 0) => Question::Text { handle, room },
            (5, manner, view, 0, _) => Question::Id { manner, view },
            (6, manner, room, view, _) => Question::Class { manner, room, view },
            (7, 0, room, 0, _) => Question::Selector { room },
            (8, view, room, 0, _) => Question::Query { view, room },
            (9, handle, room, view, _) => Question::Below { handle, room, view },
            (10, handles, room, 0, _) => Question::Attributes { handles, room },
            (11, handles, room, ends, _) => Question::Texts {
                handles,
                room,
                ends,
            },
            (12, place, value, 0, 0) => Question::SetWord { place, value },
            (13, handles, room, names, _) => Question::Names {
                handles,
                room,
                names,
            },
            (14, place, value, 0, 0) => Question::SetByte {
                place,
                value: u8::try_from(value).map_err(|_| UnknownQuestion)?,
            },
            (15, handle, size, 0, _) => Question::AttributeOr { handle, size },
            (16, handle, from, to, _) => Question::AttributeOrPart { handle, from, to },
            _ => return Err(UnknownQuestion),
        })
    }
}

// ---- the line of an answer: a word, then each number after a space, then a line feed

// Some numbers, as a refusal's and a count, and what a buffer holds.
pub fn put_line<I: Integer, J: Integer>(line: &mut Writer, word: &[u8], front: &[I], values: &[J])
    ensures { let numbers = flat_map (λ n. field (I.text n)) front.now ++ flat_map (λ n. field (J.text n)) values.now in
        Puts line.old (word.now ++ (numbers ++ line_feed)) line.new }
{
    line.put(word);
    line.put_fields(front);
    line.put_fields(values);
    line.put_byte(b'\n');
}
