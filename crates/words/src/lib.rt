// The tests that selectors and class lookups make of an attribute's value v: does it begin with k, end in k, hold k, hold k
// as a word. Bytes are compared as they are, case included. Where std has the test it is a function here all the same, which promises
// what the rules say.

#![tactic(auto)]

ghost use Rattle.std.specs.Prelude.{◌≡◌, [], drop};
ghost use Rattle.std.specs.Int.{from_bool};
ghost use Rattle.rules.specs.Words.{begins, ends, word, has_word, words as words_of, contains as holds, times as times_in};
ghost use Rattle.words.specs.Separators.{separators, separator_of};

use constants::is_same;

// `^=`
#[tactic(auto, unfolding(rules::specs::Scan::agree))]
pub fn starts_with(v: &[u8], k: &[u8]) -> bool
    ensures { result ≡ begins k.now v.now }
{
    v.starts_with(k)
}

// `$=`
pub fn ends_with(v: &[u8], k: &[u8]) -> bool
    ensures { result ≡ ends k.now v.now }
{
    v.ends_with(k)
}

// `*=`
pub fn contains(v: &[u8], k: &[u8]) -> bool
    ensures { result ≡ holds k.now v.now }
{
    // how many starts k fits at: `windows` would ask at each step whether one is left
    let starts = (v.len() + 1).saturating_sub(k.len());
    (0..starts).any(|start| is_same(&v[start..start + k.len()], k))
}

// The white that separates words: class values are cut at ASCII's, `~=` at Unicode's.
#[derive(Clone, Copy, PartialEq)]
pub enum White {
    Ascii,
    Unicode,
}

// The length of the separator that v begins with. The vertical tab, 11, is Unicode white only, and so is what is longer:
// U+0085 and 00A0, U+1680, U+2000 to 200A, U+2028, 2029 and 202F, U+205F, U+3000. Most bytes begin none, as a test or two tell: by the `match`
// alone, a class value of many words took twice as long.
#[tactic(auto, unfolding(rules::specs::Words::gap, rules::specs::Scan::agree))]
#[inline(always)]
fn separator(v: &[u8], white: White) -> Option<usize>
    ensures { result ≡ separator_of (separators white) v.now }
{
    let a = *v.first()?;
    if 32 < a && a < 194 {
        return None;
    }
    if matches!(a, 9 | 10 | 12 | 13 | 32) {
        return Some(1);
    }
    let unicode = white == White::Unicode;
    match v {
        [11, ..] if unicode => Some(1),
        [194, 133 | 160, ..] if unicode => Some(2),
        [225, 154, 128, ..] if unicode => Some(3),
        [226, 128, 128..=138 | 168 | 169 | 175, ..] if unicode => Some(3),
        [226, 129, 159, ..] if unicode => Some(3),
        [227, 128, 128, ..] if unicode => Some(3),
        _ => None,
    }
}

// The length of the separator at a place: what is left from there on is the front that `separator` looks at.
pub fn gap(v: &[u8], i: usize, white: White) -> Option<usize>
    ensures { result ≡ separator_of (separators white) (drop i v.now) }
{
    separator(v.get(i..)?, white)
}

// w is the word k; an empty w is no word.
fn is_word(w: &[u8], k: &[u8]) -> bool
    ensures { from_bool result ≡ times_in k.now (word w.now []) }
{
    !w.is_empty() && is_same(w, k)
}

// How many of the words in v are k. Not a `for`: a step is as long as the separator.
pub fn times(v: &[u8], k: &[u8], white: White) -> usize
    ensures { result ≡ times_in k.now (words_of (separators white) v.now) }
{
    let mut n: usize = 0;
    let mut start: usize = 0;
    let mut i: usize = 0;
    while i < v.len() {
        if let Some(g) = gap(v, i, white) {
            n += usize::from(is_word(&v[start..i], k));
            i += g;
            start = i;
        } else {
            i += 1;
        }
    }
    n + usize::from(is_word(&v[start..], k))
}

// `~=`, and the lookup by class: k is one of the words in v.
pub fn has_word(v: &[u8], k: &[u8], white: White) -> bool
    ensures { result ≡ has_word (separators white) k.now v.now }
{
    times(v, k, white) != 0
}
