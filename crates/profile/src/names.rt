// The void names of a profile: each by its place in the bytes, and where to look for one.

ghost use Rattle.std.specs.Prelude.{◌≡◌, false, ◌+◌, ◌≤◌, ◌<◌, length};
ghost use Rattle.rules.specs.Scan.{part, same};
ghost use Rattle.rules.specs.Profile.{void_name, void_of};
ghost use Rattle.profile.specs.Made.{slot_by, HasNames, Prepared};

use crate::bytes::{FIRST, NAMES, PLACE, is_tl};
use crate::runs::is_bytes;
use crate::valid::Profile;

// Names are looked for by slots.
const SLOTS: usize = 256;

impl<'a> Profile<'a> {
    // How many bytes name i has.
    fn name_len(&self, i: usize) -> usize
        requires { i < NAMES }
        ensures { (result ≡ length (void_name self.now.bytes.now i)) × (result ≤ PLACE) }
    {
        let a = FIRST + PLACE * i;
        let bytes = self.bytes;
        let place = &bytes[a..a + PLACE];
        place.iter().position(|b| *b == 0).unwrap_or(PLACE)
    }

    // Whether name i, which has m bytes, stands from a to e.
    fn is_name(&self, i: usize, m: usize, page: &[u8], a: usize, e: usize) -> bool
        requires number { (i < NAMES) × (m ≡ length (void_name self.now.bytes.now i)) }
        requires part { (a < e) × (e ≤ length page.now) }
        ensures { result ≡ same (part page.now a e) (void_name self.now.bytes.now i) }
    {
        let n = e - a;
        if m != n {
            return false;
        }
        let bytes = self.bytes;
        is_bytes(page, a, bytes, FIRST + PLACE * i, n)
    }

    // The void names. The heads are filled in place: returned by a function they were copied, and took 6 nanoseconds more.
    pub fn void_names(&self) -> VoidNames<'a>
        ensures { result.profile.bytes.now ≡ self.now.bytes.now }
    {
        let fixed = is_tl(self.bytes);
        let mut names = VoidNames {
            profile: *self,
            fixed,
            heads: Heads {
                first: [0; SLOTS],
                links: [0; NAMES],
                lengths: [0; NAMES],
            },
        };
        if !fixed {
            names.heads.put_names(self);
        }
        names
    }
}

// ---- where to look for a void name

// A name's slot, by its first byte, its last and its length.
fn slot(first: u8, last: u8, n: usize) -> usize
    ensures { (result ≡ slot_by first last n) × (result < SLOTS) }
{
    (9 * usize::from(first) + usize::from(last) + 5 * (n % SLOTS)) % SLOTS
}

// Names by their slots: for each slot the last name that has it; for each name the one before it of its slot, and its length. A slot
// and a link hold the number of a name plus 1, or 0: as `Option<u8>` there would be twice as much to clear. Links and lengths are two
// arrays, as the promise follows the links alone.
#[derive(Drop)]
struct Heads {
    first: [u8; SLOTS],
    links: [u8; NAMES],
    lengths: [u8; NAMES],
}

impl Heads {
    // Puts name i, if there is one, before the others of its slot.
    fn put_name(&mut self, profile: &Profile<'_>, i: u8)
        requires { (i < NAMES) × HasNames profile.now.bytes.now self.old i }
        ensures { HasNames profile.now.bytes.now self.new (i + 1) }
    {
        let k = usize::from(i);
        let n = profile.name_len(k);
        self.lengths[k] = n as u8;
        if n == 0 {
            return;
        }
        let a = FIRST + PLACE * k;
        let s = slot(profile.bytes[a], profile.bytes[a + n - 1], n);
        let next = self.first[s];
        self.links[k] = next;
        self.first[s] = i + 1;
    }

    // Puts all names.
    fn put_names(&mut self, profile: &Profile<'_>)
        requires { HasNames profile.now.bytes.now self.old 0 }
        ensures { HasNames profile.now.bytes.now self.new NAMES }
    {
        for i in 0..NAMES as u8 {
            self.put_name(profile, i);
        }
    }
}

// A profile's void names, to be looked for. tl's are fixed, and their heads stay zero. A flag says so: in an `Option` they were copied.
#[derive(Drop)]
pub struct VoidNames<'a> {
    pub profile: Profile<'a>,
    fixed: bool,
    heads: Heads,
    ghost prepared: { ∥ Prepared profile.bytes.now fixed heads ∥₁ },
}

impl<'a> VoidNames<'a> {
    // Whether the name from a to e is void: it is compared with the names of its slot. The loop counts nothing: it follows their links.
    fn is_listed(&self, page: &[u8], a: usize, e: usize) -> bool
        requires { (a ≤ e) × (e ≤ length page.now) × (self.now.fixed ≡ false) }
        ensures { result ≡ void_of self.now.profile.bytes.now (part page.now a e) }
    {
        if a == e {
            return false;
        }
        let s = slot(page[a], page[e - 1], e - a);
        let mut i = usize::from(self.heads.first[s]);
        while 0 < i {
            let m = usize::from(self.heads.lengths[i - 1]);
            if self.profile.is_name(i - 1, m, page, a, e) {
                return true;
            }
            i = usize::from(self.heads.links[i - 1]);
        }
        false
    }

    // Whether the name from a to e is void.
    pub fn is_void(&self, page: &[u8], a: usize, e: usize) -> bool
        requires { (a ≤ e) × (e ≤ length page.now) }
        ensures { result ≡ void_of self.now.profile.bytes.now (part page.now a e) }
    {
        if self.fixed {
            return constants::is_void(&page[a..e]);
        }
        self.is_listed(page, a, e)
    }
}
