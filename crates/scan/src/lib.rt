// Scans over a page: tl's util and simd, and Stream's reads of one byte. A place past the end counts as the end.
// The tests of a byte read one table of marks. A caller makes it once, by `Profile::marks`, and lends it down: used in place, the
// constant would be built anew at each use.

#![tactic(auto)]

ghost use Rattle.std.specs.Prelude.{◌≡◌, ℕ, List, false, ◌+◌, ◌<◌, ◌≤◌, length, get_or};
ghost use Rattle.rules.specs.Bytes.{is_ident, is_closing, other, is};
ghost use Rattle.rules.specs.Scan.{pick, skip, here, pass, part as part_of};
ghost use Rattle.rules.specs.Places.{current_at, expect_at};
ghost use Rattle.rules.specs.Attributes.{in_value};
ghost use Rattle.rules.specs.Words.{Within};
ghost use Rattle.scan.specs.Marks.{white_in, Marked, Base};
ghost use Rattle.scan.specs.Skips.{Skips};
ghost use Rattle.scan.specs.Pairs.{Nowhere, pair_at};

use std::marker::Model;
use std::simd::prelude::*;

// By byte value, 16 to a line: 1 an identifier byte, 2 white, 4 closing, and sums of these. Numbers and no names, since the tests below
// take sums apart.
const MARKS: [u8; 256] = *b"\
    \x00\x00\x00\x00\x00\x00\x00\x00\x00\x00\x02\x00\x00\x00\x00\x00\
    \x00\x00\x00\x00\x00\x00\x00\x00\x00\x00\x00\x00\x00\x00\x00\x00\
    \x02\x00\x00\x00\x00\x00\x00\x00\x00\x00\x00\x01\x00\x01\x00\x05\
    \x01\x01\x01\x01\x01\x01\x01\x01\x01\x01\x01\x00\x00\x00\x04\x00\
    \x00\x01\x01\x01\x01\x01\x01\x01\x01\x01\x01\x01\x01\x01\x01\x01\
    \x01\x01\x01\x01\x01\x01\x01\x01\x01\x01\x01\x00\x00\x00\x00\x01\
    \x00\x01\x01\x01\x01\x01\x01\x01\x01\x01\x01\x01\x01\x01\x01\x01\
    \x01\x01\x01\x01\x01\x01\x01\x01\x01\x01\x01\x00\x00\x00\x00\x00\
    \x00\x00\x00\x00\x00\x00\x00\x00\x00\x00\x00\x00\x00\x00\x00\x00\
    \x00\x00\x00\x00\x00\x00\x00\x00\x00\x00\x00\x00\x00\x00\x00\x00\
    \x00\x00\x00\x00\x00\x00\x00\x00\x00\x00\x00\x00\x00\x00\x00\x00\
    \x00\x00\x00\x00\x00\x00\x00\x00\x00\x00\x00\x00\x00\x00\x00\x00\
    \x00\x00\x00\x00\x00\x00\x00\x00\x00\x00\x00\x00\x00\x00\x00\x00\
    \x00\x00\x00\x00\x00\x00\x00\x00\x00\x00\x00\x00\x00\x00\x00\x00\
    \x00\x00\x00\x00\x00\x00\x00\x00\x00\x00\x00\x00\x00\x00\x00\x00\
    \x00\x00\x00\x00\x00\x00\x00\x00\x00\x00\x00\x00\x00\x00\x00\x00";

// The table of marks. A caller makes it once and lends it down.
#[derive(Drop)]
pub struct Marks {
    of: [u8; 256],
}

impl Model for Marks {
    ghost Value = { List ℕ };

    ghost view = { λ m. m.of };

    ghost invariant = { λ m. Marked m.of };
}

impl Marks {
    // The base table: white are space and line feed.
    pub fn new() -> Self
        ensures { Base result }
    {
        Marks { of: MARKS }
    }

    // Makes a byte up to the space white, or not.
    pub fn set_white(&mut self, b: u8, white: bool)
        requires { b ≤ 32 }
        ensures { (x : ℕ) → white_in self.new x ≡ pick (is b x) white (white_in self.old x) }
    {
        self.of[b as usize] = if white { 2 } else { 0 };
    }

    // The marks of one byte.
    fn mark(&self, b: u8) -> u8
        ensures value { result ≡ get_or self.now b 0 }
        ensures marked { Marked self.now }
    {
        self.of[b as usize]
    }

    // util::is_ident
    pub fn is_ident(&self, b: u8) -> bool
        ensures { result ≡ is_ident b }
    {
        self.mark(b) % 2 == 1
    }

    // White is what the table says.
    pub fn is_white(&self, b: u8) -> bool
        ensures { result ≡ white_in self.now b }
    {
        is_white(&self.of, b)
    }

    // simd::is_closing: `/` or `>`, the marks from 4 up.
    pub fn is_closing(&self, b: u8) -> bool
        ensures { result ≡ is_closing b }
    {
        4 <= self.mark(b)
    }

    // A byte of an unquoted value: neither white nor closing, so at most an identifier's mark.
    fn in_value(&self, b: u8) -> bool
        ensures { result ≡ in_value (white_in self.now) b }
    {
        self.mark(b) < 2
    }

    // Three searches that differ in their test, a line each.

    // simd::search_non_ident: the end of the identifier at the place.
    pub fn search_non_ident(&self, s: &[u8], at: usize) -> usize
        ensures { result ≡ skip is_ident s.now at }
    {
        skip_while(s, at, |b| self.is_ident(b))
    }

    // Parser::skip_whitespaces: the end of the white at the place.
    pub fn skip_whitespaces(&self, s: &[u8], at: usize) -> usize
        ensures { result ≡ skip (white_in self.now) s.now at }
    {
        skip_while(s, at, |b| self.is_white(b))
    }

    // simd::find4, for an unquoted value: its end.
    pub fn search_non_value(&self, s: &[u8], at: usize) -> usize
        ensures { result ≡ skip (in_value (white_in self.now)) s.now at }
    {
        skip_while(s, at, |b| self.in_value(b))
    }

    // Whether a closing byte stands at the place.
    pub fn closing_at(&self, s: &[u8], at: usize) -> bool
        ensures { result ≡ here is_closing s.now at }
    {
        s.get(at).is_some_and(|b| self.is_closing(*b))
    }
}

// Whether 256 bytes say that a byte is white. The only test that needs no table of marks: any bytes will do.
#[tactic(auto, unfolding(crate::specs::Marks::white_in))]
pub fn is_white(t: &[u8; 256], b: u8) -> bool
    ensures { result ≡ white_in t.now b }
{
    t[b as usize] / 2 % 2 == 1
}

// The end of the bytes at the place that pass the test.
// With `for` over the places it was tried, and reading was slower by a tenth and more; with `position` it was slower too.
pub fn skip_while<F: Fn(u8) -> bool>(s: &[u8], at: usize, test: F) -> usize
    requires { (b : ℕ) → b < 256 → F.pre test b }
    ensures { Skips (F.post test) s.now at result }
{
    let mut i = at;
    while i < s.len() && test(s[i]) {
        i += 1;
    }
    i
}

// Whether one of the 16 bytes from i is q.
fn any16(s: &[u8], i: usize, q: u8) -> bool
    requires { i + 16 ≤ length s.now }
    ensures { result ≡ false → skip (other q) s.now i ≡ skip (other q) s.now (i + 16) }
{
    u8x16::from_slice(&s[i..]).simd_eq(u8x16::splat(q)).any()
}

// simd::find: the place of the first q at or after `at`, or the end. It passes 16 bytes at a time while none is q.
pub fn find(s: &[u8], at: usize, q: u8) -> usize
    ensures { result ≡ skip (other q) s.now at }
{
    // From a place before `top`, 16 bytes are left. An index, since `step_by` was slower where it was tried (`may_pair`).
    let top = s.len().saturating_sub(15);
    let mut i = at;
    while i < top && !any16(s, i, q) {
        i += 16;
    }
    skip_while(s, i, |b| b != q)
}

// Whether a stands at one of the 16 places from i on, and b d bytes after it.
fn pair16(s: &[u8], i: usize, d: usize, a: u8, b: u8) -> bool
    requires { i + d + 16 ≤ length s.now }
    ensures { result ≡ false → Nowhere (pair_at s.now d a b) i (i + 16) }
{
    let first = u8x16::from_slice(&s[i..]).simd_eq(u8x16::splat(a));
    let last = u8x16::from_slice(&s[i + d..]).simd_eq(u8x16::splat(b));
    (first & last).any()
}

// Whether a may stand at one of the places from `from` up to `to`, and b d bytes after it, 16 places at a time. Where fewer are
// left to the end, the last 16 are tried; a pair outside the places asked for may count.
// With `(from..to).step_by(16)` for the loop it was tried, and was up to a fifth slower.
fn may_pair(s: &[u8], from: usize, to: usize, d: usize, a: u8, b: u8) -> bool
    requires { (to + d ≤ length s.now) × (d + 16 ≤ length s.now) }
    ensures { result ≡ false → Nowhere (pair_at s.now d a b) from to }
{
    let top = s.len() - d - 16;
    let mut i = from;
    while i < to {
        if pair16(s, i.min(top), d, a, b) {
            return true;
        }
        if top <= i {
            return false;
        }
        i += 16;
    }
    false
}

// Whether k may stand in s between two places, with room for it: a quick test by its first and last byte. Where it says no, k does
// not.
pub fn may_hold(s: &[u8], from: usize, to: usize, k: &[u8]) -> bool
    requires { (from + length k.now ≤ to) × (to ≤ length s.now) }
    ensures { result ≡ false → Within k.now (part_of s.now from to) → ⊥ }
{
    let m = k.len();
    if m == 0 {
        return true;
    }
    let d = m - 1;
    if s.len() - d < 16 {
        return true;
    }
    may_pair(s, from, to - d, d, k[0], k[d])
}

// Whether q stands at the place.
pub fn is_at(s: &[u8], at: usize, q: u8) -> bool
    ensures { result ≡ here (is q) s.now at }
{
    s.get(at) == Some(&q)
}

// Stream::advance: one byte on, or the end.
pub fn advance(s: &[u8], at: usize) -> usize
    ensures { result ≡ pass s.now at }
{
    at.saturating_add(1).min(s.len())
}

// Stream::current_cpy: the byte at the place, or the end.
#[tactic(auto, unfolding(rules::specs::Places::current_at))]
pub fn current_cpy(s: &[u8], at: usize) -> Option<u8>
    ensures { result ≡ current_at s.now at }
{
    s.get(at).copied()
}

// Stream::expect_and_skip: the place after q, if q stands at the place.
#[tactic(auto, unfolding(rules::specs::Places::expect_at))]
pub fn expect_and_skip(s: &[u8], at: usize, q: u8) -> Option<usize>
    ensures { result ≡ expect_at q s.now at }
{
    is_at(s, at, q).then_some(advance(s, at))
}

// The bytes from a up to e. Places past the end count as the end, so that it can be asked for any places.
pub fn part(s: &[u8], a: usize, e: usize) -> &[u8]
    ensures { result.now ≡ part_of s.now a e }
{
    let end = e.min(s.len());
    &s[a.min(end)..end]
}
