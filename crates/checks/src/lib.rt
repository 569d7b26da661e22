// What is asked before an answer: refusals 14, 1, 3 and 4, in that order. What has passed is handed back as one value that keeps the facts,
// so that nothing below asks again. Page and table come as two slices, and a handle as a number, as the C interface lends them.

#![tactic(auto)]

ghost use Rattle.std.specs.Prelude.{◌≡◌, ◌↔◌, IsTrue, IfOk, Ok, false};
ghost use Rattle.rules.specs.Profile.{settings_of};
ghost use Rattle.rules.specs.Refusals.{page_too_long, asking, asking_tag, told};
ghost use Rattle.checks.specs.Checks.{tags_checked, AllTags};

use profile::{Profile, SIZE};
use rules::Refusal;
use sound::Document;

// ---- page and table

// What a call asks: a document, and the profile that it is read by.
#[derive(Clone, Copy)]
pub struct Checked<'p, 'a> {
    pub profile: Profile<'a>,
    pub document: Document<'p, 'a>,
    ghost short: { page_too_long (settings_of profile.bytes.now) document.page.now ≡ false },
}

// Refusals 14, 1 and 3.
pub fn check<'p, 'a>(
    profile: &'a [u8; SIZE],
    page: &'p [u8],
    table: &'a [u32],
) -> Result<Checked<'p, 'a>, Refusal>
    ensures answer { told result ≡ asking (settings_of profile.now) page.now table.now (Ok tt) }
    ensures lent { IfOk result
        (λ c. (c.profile.bytes.now ≡ profile.now) × (c.document.page.now ≡ page.now) × (c.document.table.now ≡ table.now)) }
{
    let profile = profile::check(profile, page)?;
    let document = Document::new(page, table).ok_or(Refusal::TableNotSound)?;
    Ok(Checked { profile, document })
}

// ---- handles

// Refusals 14, 1, 3 and 4.
pub fn check_tag<'p, 'a>(
    profile: &'a [u8; SIZE],
    page: &'p [u8],
    table: &'a [u32],
    h: usize,
) -> Result<Checked<'p, 'a>, Refusal>
    ensures answer { told result ≡ asking_tag (settings_of profile.now) page.now table.now h (Ok tt) }
    ensures lent { IfOk result
        (λ c. (c.profile.bytes.now ≡ profile.now) × (c.document.page.now ≡ page.now) × (c.document.table.now ≡ table.now)) }
{
    let c = check(profile, page, table)?;
    if c.document.is_tag(h) {
        return Ok(c);
    }
    Err(Refusal::NotATag)
}

// A document whose page is not too long under the profile, and handles that are each a tag's.
#[derive(Clone, Copy)]
pub struct Tags<'a> {
    pub profile: Profile<'a>,
    pub document: Document<'a, 'a>,
    pub handles: &'a [u32],
    ghost short: { page_too_long (settings_of profile.bytes.now) document.page.now ≡ false },
    ghost each: { AllTags document.table.now handles.now },
}

// Whether each handle is a tag's.
fn all_tags(d: &Document, handles: &[u32]) -> bool
    ensures { IsTrue result ↔ AllTags d.now.table.now handles.now }
{
    handles.iter().all(|&h| d.is_tag(h as usize))
}

// Refusals 14, 1, 3 and 4, for a list of handles.
pub fn check_tags<'a>(
    profile: &'a [u8; SIZE],
    page: &'a [u8],
    table: &'a [u32],
    handles: &'a [u32],
) -> Result<Tags<'a>, Refusal>
    ensures answer { told result ≡ tags_checked (settings_of profile.now) page.now table.now handles.now }
    ensures lent { IfOk result
        (λ t. (t.profile.bytes.now ≡ profile.now)
        × (t.document.page.now ≡ page.now)
        × (t.document.table.now ≡ table.now)
        × (t.handles.now ≡ handles.now)) }
{
    let c = check(profile, page, table)?;
    if all_tags(&c.document, handles) {
        return Ok(Tags {
            profile: c.profile,
            document: c.document,
            handles,
        });
    }
    Err(Refusal::NotATag)
}
