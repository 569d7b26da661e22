// Comparisons of page bytes with fixed byte strings: tl's parser/constants and simd::matches_case_insensitive.

#![tactic(auto)]

ghost use Rattle.std.specs.Prelude.{◌≡◌, ◌&&◌, suc};
ghost use Rattle.rules.specs.Bytes.{is};
ghost use Rattle.rules.specs.Scan.{here, same};
ghost use Rattle.rules.specs.Lexer.{same_lower, doctype_name, html_name};
ghost use Rattle.rules.specs.Names.{is_void};

// Byte for byte, case included. Not `x == y`, which takes twice as long for names of two or three bytes, as `td`.
pub fn is_same(x: &[u8], y: &[u8]) -> bool
    ensures { result ≡ same x.now y.now }
{
    x.len() == y.len() && x.iter().zip(y).all(|(a, b)| a == b)
}

// simd::matches_case_insensitive: x in any ASCII case; y is written in lower case, and need not be lowered, as std's
// `eq_ignore_ascii_case` would.
fn matches_case_insensitive(x: &[u8], y: &[u8]) -> bool
    ensures { result ≡ same_lower x.now y.now }
{
    x.len() == y.len() && x.iter().zip(y).all(|(a, b)| a.to_ascii_lowercase() == *b)
}

// `doctype` in any ASCII case; the next is the same for `html`, a line each.
pub fn is_doctype(x: &[u8]) -> bool
    ensures { result ≡ same_lower x.now doctype_name }
{
    matches_case_insensitive(x, b"doctype")
}

// `html` in any ASCII case.
pub fn is_html(x: &[u8]) -> bool
    ensures { result ≡ same_lower x.now html_name }
{
    matches_case_insensitive(x, b"html")
}

// constants::COMMENT: `--` stands at the place.
pub fn is_comment(s: &[u8], at: usize) -> bool
    ensures { result ≡ (here (is 45) s.now at && here (is 45) s.now (suc at)) }
{
    if s.len() <= at {
        return false;
    }
    // the difference, since at + 2 could wrap
    if s.len() - at < 2 {
        return false;
    }
    is_same(&s[at..at + 2], b"--")
}

// constants::VOID_TAGS, in lower case only. By length, so that a name is compared with four at most.
pub fn is_void(x: &[u8]) -> bool
    ensures { result ≡ is_void x.now }
{
    match x.len() {
        2 => is_same(x, b"br") | is_same(x, b"hr"),
        3 => is_same(x, b"col") | is_same(x, b"img") | is_same(x, b"wbr"),
        4 => {
            is_same(x, b"area") | is_same(x, b"base") | is_same(x, b"link") | is_same(x, b"meta")
        }
        5 => {
            is_same(x, b"embed")
                | is_same(x, b"input")
                | is_same(x, b"param")
                | is_same(x, b"track")
        }
        6 => is_same(x, b"keygen") | is_same(x, b"source"),
        _ => false,
    }
}
