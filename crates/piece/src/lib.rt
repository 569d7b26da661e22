// The written form of a piece: six words, written and read back. A kind is a number here, from 1 to 10, since C reads the written
// selector as words.

#![tactic(auto)]

ghost use Rattle.std.specs.Prelude.{◌≡◌, ◌++◌, ◌+◌, ◌*◌, ◌<◌, ◌≤◌, length, drop};
ghost use Rattle.rules.specs.Chain.{simple_words};
ghost use Rattle.piece.specs.Words.{piece_words, simple_from, joiner_from, piece_at};

use rules::{Joiner, Piece, Simple, Span};

// The words of a piece.
pub const WORDS: usize = 6;

// The six words of a piece: its kind, the places of its first and its second name, 0 and 0 where a name is missing, and its joiner.
// Not a `From`, which would have to stand in `rules`, beside the type and apart from the reading back.
fn words_of(p: Piece) -> [u32; WORDS]
    ensures { result ≡ simple_words p.simple p.joiner }
{
    let none = Span { start: 0, end: 0 };
    let (kind, a, b) = match p.simple {
        Simple::Tag(a) => (1, a, none),
        Simple::Id(a) => (2, a, none),
        Simple::Class(a) => (3, a, none),
        Simple::All => (4, none, none),
        Simple::Attribute(a) => (5, a, none),
        Simple::AttributeValue(a, b) => (6, a, b),
        Simple::AttributeValueWhitespacedContains(a, b) => (7, a, b),
        Simple::AttributeValueStartsWith(a, b) => (8, a, b),
        Simple::AttributeValueEndsWith(a, b) => (9, a, b),
        Simple::AttributeValueSubstring(a, b) => (10, a, b),
    };
    [kind, a.start, a.end, b.start, b.end, u32::from(p.joiner)]
}

// Writes a piece into the first six words.
pub fn put_piece(out: &mut [u32], p: Piece)
    requires { piece_words ≤ length out.old }
    ensures { out.new ≡ simple_words p.simple p.joiner ++ drop piece_words out.old }
{
    out[..WORDS].copy_from_slice(&words_of(p));
}

// The simple selector of a kind and two names; any other kind is taken for `*`. Not a `From`, since a kind alone makes no selector.
fn simple_from(kind: u32, a: Span, b: Span) -> Simple
    ensures { result ≡ simple_from kind a b }
{
    match kind {
        1 => Simple::Tag(a),
        2 => Simple::Id(a),
        3 => Simple::Class(a),
        5 => Simple::Attribute(a),
        6 => Simple::AttributeValue(a, b),
        7 => Simple::AttributeValueWhitespacedContains(a, b),
        8 => Simple::AttributeValueStartsWith(a, b),
        9 => Simple::AttributeValueEndsWith(a, b),
        10 => Simple::AttributeValueSubstring(a, b),
        _ => Simple::All,
    }
}

// The joiner of a word. Not a `From`, which would have to stand in `rules`, and since only here a word that is no joiner's ends the chain.
fn joiner_from(word: u32) -> Joiner
    ensures { result ≡ joiner_from word }
{
    match word {
        1 => Joiner::And,
        2 => Joiner::Or,
        3 => Joiner::Descendant,
        4 => Joiner::Parent,
        _ => Joiner::End,
    }
}

// Piece i of a written chain. Word by word: a slice becomes an array only by a conversion that may fail.
pub fn piece_at(words: &[u32], i: usize) -> Piece
    requires { piece_words * i + piece_words ≤ length words.now }
    ensures { result ≡ piece_at words.now i }
{
    let start = WORDS * i;
    let words = &words[start..start + WORDS];
    let a = Span {
        start: words[1],
        end: words[2],
    };
    let b = Span {
        start: words[3],
        end: words[4],
    };
    Piece {
        simple: simple_from(words[0], a, b),
        joiner: joiner_from(words[5]),
    }
}

// A selector that was read: its text, of which the pieces name parts, and the words that its pieces are written in. `pieces` stands
// beside them, since words cut to size are no plainer: they need the fact that six divides their number.
#[derive(Clone, Copy)]
pub struct Chain<'a> {
    pub text: &'a [u8],
    pub words: &'a [u32],
    pub pieces: usize,
    ghost written: { piece_words * pieces ≤ length words.now },
}

impl<'a> Chain<'a> {
    // Piece i. The reading back stands apart, beside the writing, since both are over words alone.
    pub fn piece(&self, i: usize) -> Piece
        requires { i < self.now.pieces }
        ensures { result ≡ piece_at self.now.words.now i }
    {
        piece_at(self.words, i)
    }
}
