// The selector reader (queryselector/parser): the chain of pieces that a selector is, read from a stream and written into lent words.
// `t` is the lent table of marks.

#![tactic(auto)]

ghost use Rattle.std.specs.Prelude.{◌≡◌, length, IfOk};
ghost use Rattle.rules.specs.Chain.{combinator_at, chain_at, read_selector};
ghost use Rattle.rules.specs.Refusals.{Leaves};
ghost use Rattle.rules.specs.Answers.{selector_answer, selector_buffer};
ghost use Rattle.selector.specs.Reads.{Reads};
ghost use Rattle.queryselector.specs.Chains.{joiner_at, WordsRoom, written_in, Chained, read_answer};

use piece::WORDS;
use rules::{Joiner, Piece, Refusal, Simple};
use scan::Marks;
use selector::stream::Stream;

// The longest selector, and the words that the chain of such a one can take: a piece for each byte.
pub const LIMIT: usize = 128;

pub const ROOM: usize = LIMIT * WORDS;

// The joiner at the place, by the spaces there and the byte after them. At the end there is none.
#[tactic(auto, unfolding(rules::specs::Places::current_at))]
fn read_joiner(stream: &mut Stream) -> Option<Joiner>
    ensures { Reads (joiner_at stream.old.«data».now stream.old.idx) stream.old result stream.new }
{
    let spaced = stream.skip_whitespaces();
    let tok = stream.current_cpy()?;
    match tok {
        b',' => {
            stream.advance();
            Some(Joiner::Or)
        }
        b'>' => {
            stream.advance();
            Some(Joiner::Parent)
        }
        _ if spaced => Some(Joiner::Descendant),
        _ => Some(Joiner::And),
    }
}

// The chain from the place on, into the first words of `out`.
#[cycle(parse_combinator_selector)]
#[tactic(auto, using(crate::proofs::Steps::chain_step, selector::proofs::Ahead::simple_found))]
fn selector(t: &Marks, stream: &mut Stream, out: &mut [u32]) -> Option<usize>
    requires { WordsRoom 0 stream.old.«data».now stream.old.idx out.old }
    ensures { Chained (chain_at stream.old.«data».now stream.old.idx) out.old out.new result }
{
    stream.skip_whitespaces();
    let left = selector::parse_simple(t, stream)?;
    parse_combinator(t, stream, left, out)
}

// The chain that starts with `left`, whose joiner and rest are read from the place on. A piece is written when the rest has been read.
#[cycle(parse_combinator_selector)]
fn parse_combinator(t: &Marks, stream: &mut Stream, left: Simple, out: &mut [u32]) -> Option<usize>
    requires { WordsRoom 1 stream.old.«data».now stream.old.idx out.old }
    ensures { let s = stream.old.«data».now in
        Chained (combinator_at (chain_at s) s left stream.old.idx) out.old out.new result }
{
    let Some(joiner) = read_joiner(stream) else {
        piece::put_piece(
            out,
            Piece {
                simple: left,
                joiner: Joiner::End,
            },
        );
        return Some(1);
    };
    let rest = selector(t, stream, &mut out[WORDS..])?;
    piece::put_piece(
        out,
        Piece {
            simple: left,
            joiner,
        },
    );
    Some(rest + 1)
}

// The chain of a selector that is not too long.
pub fn parse_selector(t: &Marks, s: &[u8], out: &mut [u32]) -> Option<usize>
    requires { WordsRoom 0 s.now 0 out.old }
    ensures { Chained (read_selector s.now) out.old out.new result }
{
    let mut stream = Stream::new(s);
    selector(t, &mut stream, out)
}

// The chain of a selector into `words`, and how many pieces it has; or refusals 5 and 6.
pub fn read(t: &Marks, s: &[u8], words: &mut [u32; ROOM]) -> Result<usize, Refusal>
    ensures answer { result ≡ read_answer s.now }
    ensures chain { IfOk result (λ n. words.new ≡ written_in words.old (read_selector s.now)) }
{
    if LIMIT < s.len() {
        return Err(Refusal::SelectorTooLong);
    }
    parse_selector(t, s, words).ok_or(Refusal::SelectorNotRead)
}

// How many pieces the selector has; their words are the first of `out`. By a `match`: `?` would leave `out` as it was, where a refusal clears it.
pub fn parse_query_selector(s: &[u8], out: &mut [u32]) -> Result<usize, Refusal>
    ensures { Leaves (selector_answer s.now (length out.old)) (selector_buffer s.now out.old) result out.new }
{
    let t = Marks::new();
    let mut words = [0u32; ROOM];
    let n = match read(&t, s, &mut words) {
        Ok(n) => n,
        Err(why) => return table::refuse(out, why),
    };
    if out.len() < WORDS * n {
        return table::refuse(out, Refusal::BufferTooShort);
    }
    let end = WORDS * n;
    out[..end].copy_from_slice(&words[..end]);
    Ok(n)
}
