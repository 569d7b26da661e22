// Which profiles are within their limits: the test, the type that the test alone makes, and the refusals of a page that go by it.

ghost use Rattle.std.specs.Prelude.{◌≡◌, ◌↔◌, true, ◌<◌, IsSome, IfSome, IfOk, Ok};
ghost use Rattle.rules.specs.Bytes.{is_ident};
ghost use Rattle.rules.specs.Profile.{limit_of, white_of, name_fine, numbers_fine, profile_fine, settings_of};
ghost use Rattle.rules.specs.Refusals.{on_page, told};
ghost use Rattle.scan.specs.Marks.{white_in};

use crate::bytes::{FIRST, NAMES, PLACE, SIZE, WHITE, is_tl, limit};
use rules::{PAGE_LIMIT, Refusal};
use scan::Marks;

// The highest white byte.
const SPACE: u8 = b' ';

// ---- the test of a profile

// By comparisons, so that 16 bytes are tested at once: `matches!` makes branches, and the test of a profile a third slower.
fn is_ident(b: u8) -> bool
    ensures { result ≡ is_ident b }
{
    ((b'0' <= b) & (b <= b'9'))
        | ((b'A' <= b) & (b <= b'Z'))
        | ((b'a' <= b) & (b <= b'z'))
        | (b == b'-')
        | (b == b'_')
        | (b == b':')
        | (b == b'+')
        | (b == b'/')
}

// Whether name i is identifier bytes and then zeros. It has no early exit, so that 16 bytes are tested at once.
fn name_fine(bytes: &[u8; SIZE], i: usize) -> bool
    requires { i < NAMES }
    ensures { result ≡ name_fine bytes.now i }
{
    let a = FIRST + PLACE * i;
    let mut ok = true;
    for j in 0..PLACE {
        let b = bytes[a + j];
        let before = bytes[a + j - 1];
        ok &= (b == 0) | (is_ident(b) & ((j == 0) | (before != 0)));
    }
    ok
}

// Whether the limit is from 1 to the longest page, and no white byte above the space. With `all` over the four the test of a profile took a fortieth longer.
#[tactic(auto, unfolding(rules::specs::Profile::numbers_fine))]
fn numbers_fine(bytes: &[u8; SIZE]) -> bool
    ensures { result ≡ numbers_fine bytes.now }
{
    let n = limit(bytes);
    let [_, _, _, _, a, b, c, d, ..] = *bytes;
    (1 <= n) & (n <= PAGE_LIMIT) & ((a <= SPACE) & (b <= SPACE) & (c <= SPACE) & (d <= SPACE))
}

// Whether the limit, the white bytes and the names are within their limits. It has no early exit either.
fn all_fine(bytes: &[u8; SIZE]) -> bool
    ensures { result ≡ profile_fine bytes.now }
{
    let mut ok = numbers_fine(bytes);
    for i in 0..NAMES {
        ok &= name_fine(bytes, i);
    }
    ok
}

// Whether the profile is within its limits. tl's own costs a comparison alone.
#[tactic(auto, using(rules::proofs::Profile::fine_tl))]
pub fn is_fine(bytes: &[u8; SIZE]) -> bool
    ensures { result ≡ profile_fine bytes.now }
{
    is_tl(bytes) || all_fine(bytes)
}

// ---- a profile

// The bytes of a profile that is within its limits.
#[derive(Clone, Copy)]
pub struct Profile<'a> {
    pub bytes: &'a [u8; SIZE],
    ghost fine: { profile_fine bytes.now ≡ true },
}

impl<'a> Profile<'a> {
    // The profile, if it is within its limits. Not by `then_some`, which would make it before the test.
    pub fn new(bytes: &'a [u8; SIZE]) -> Option<Profile<'a>>
        ensures fine { IsSome result ↔ (profile_fine bytes.now ≡ true) }
        ensures lent { IfSome result (λ p. p.bytes.now ≡ bytes.now) }
    {
        if is_fine(bytes) {
            return Some(Profile { bytes });
        }
        None
    }

    // The longest page that is read.
    pub fn limit(&self) -> usize
        ensures { result ≡ limit_of self.now.bytes.now }
    {
        limit(self.bytes)
    }

    // The marks with the profile's white bytes in place of tl's.
    pub fn marks(&self) -> Marks
        ensures { white_in result ≡ white_of self.now.bytes.now }
    {
        let mut t = Marks::new();
        t.set_white(b'\n', false);
        t.set_white(b' ', false);
        let bytes = self.bytes;
        for b in &bytes[WHITE..FIRST] {
            t.set_white(*b, true);
        }
        // An unused place holds 0, and byte 0 is not white for that.
        t.set_white(0, false);
        t
    }
}

// Refusals 14 and 1, which come before all others.
pub fn check<'a>(bytes: &'a [u8; SIZE], page: &[u8]) -> Result<Profile<'a>, Refusal>
    ensures answer { told result ≡ on_page (settings_of bytes.now) page.now (Ok tt) }
    ensures lent { IfOk result (λ p. p.bytes.now ≡ bytes.now) }
{
    let profile = Profile::new(bytes).ok_or(Refusal::ProfileNotFine)?;
    if profile.limit() < page.len() {
        return Err(Refusal::PageTooLong);
    }
    Ok(profile)
}
