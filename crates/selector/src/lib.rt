// One simple selector (queryselector/parser): read from the place of a stream on. `t` is the lent table of marks.

#![tactic(auto)]

ghost use Rattle.std.specs.Prelude.{◌≡◌};
ghost use Rattle.rules.specs.Selector.{operated as operated_by, closed_at, quoted_at, operand_at, attribute_from, ident, ident_end, simple_at};
ghost use Rattle.selector.specs.Reads.{Reads, operator_at};

pub mod stream;

use rules::{Simple, Span};
use scan::Marks;
use stream::Stream;

// The value v, whose `]` is due.
fn close(stream: &mut Stream, v: Span) -> Option<Span>
    ensures { Reads (closed_at stream.old.«data».now v stream.old.idx) stream.old result stream.new }
{
    stream.expect_and_skip(b']')?;
    Some(v)
}

// A value up to the quote q, and `]`.
fn read_quoted(t: &Marks, stream: &mut Stream, q: u8) -> Option<Span>
    ensures { Reads (quoted_at stream.old.«data».now q stream.old.idx) stream.old result stream.new }
{
    let v = stream.read_identifier(t);
    stream.expect_and_skip(q)?;
    close(stream, v)
}

// What follows `=`: a value, with quotes or without, and `]`.
#[tactic(auto, unfolding(rules::specs::Selector::operand_at, rules::specs::Places::current_at))]
fn read_value(t: &Marks, stream: &mut Stream) -> Option<Span>
    ensures { Reads (operand_at stream.old.«data».now stream.old.idx) stream.old result stream.new }
{
    let b = stream.current_cpy()?;
    if (b == b'"') | (b == b'\'') {
        stream.advance();
        return read_quoted(t, stream, b);
    }
    let v = stream.read_identifier(t);
    close(stream, v)
}

// The simple selector of an attribute and a value, by the byte before its `=`.
fn operated(op: u8, name: Span, value: Span) -> Simple
    ensures { result ≡ operated_by op name value }
{
    match op {
        b'~' => Simple::AttributeValueWhitespacedContains(name, value),
        b'^' => Simple::AttributeValueStartsWith(name, value),
        b'$' => Simple::AttributeValueEndsWith(name, value),
        _ => Simple::AttributeValueSubstring(name, value),
    }
}

// What follows the byte op, one of `~ ^ $ *`, after an attribute's name: `=` and a value.
fn read_operator(t: &Marks, stream: &mut Stream, name: Span, op: u8) -> Option<Simple>
    ensures { Reads (operator_at stream.old.«data».now (operated_by op name) stream.old.idx) stream.old result stream.new }
{
    stream.expect_and_skip(b'=')?;
    let value = read_value(t, stream)?;
    Some(operated(op, name, value))
}

// What follows `[`.
#[tactic(auto, unfolding(rules::specs::Selector::attribute_from, rules::specs::Places::current_at))]
fn parse_attribute(t: &Marks, stream: &mut Stream) -> Option<Simple>
    ensures { let s = stream.old.«data».now in
        Reads (attribute_from s (ident s stream.old.idx) (ident_end s stream.old.idx)) stream.old result stream.new }
{
    let name = stream.read_identifier(t);
    let b = stream.current_cpy()?;
    stream.advance();
    match b {
        b']' => Some(Simple::Attribute(name)),
        b'=' => {
            let value = read_value(t, stream)?;
            Some(Simple::AttributeValue(name, value))
        }
        b'~' | b'^' | b'$' | b'*' => read_operator(t, stream, name, b),
        _ => None,
    }
}

// The simple selector at the place.
#[tactic(auto, unfolding(rules::specs::Selector::simple_at, rules::specs::Places::current_at))]
pub fn parse_simple(t: &Marks, stream: &mut Stream) -> Option<Simple>
    ensures { Reads (simple_at stream.old.«data».now stream.old.idx) stream.old result stream.new }
{
    let b = stream.current_cpy()?;
    match b {
        b'#' => {
            stream.advance();
            Some(Simple::Id(stream.read_identifier(t)))
        }
        b'.' => {
            stream.advance();
            Some(Simple::Class(stream.read_identifier(t)))
        }
        b'*' => {
            stream.advance();
            Some(Simple::All)
        }
        b'[' => {
            stream.advance();
            parse_attribute(t, stream)
        }
        _ if t.is_ident(b) => Some(Simple::Tag(stream.read_identifier(t))),
        _ => None,
    }
}
