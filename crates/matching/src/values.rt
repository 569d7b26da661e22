// Tests of what a tag holds for a name: that it has the attribute, that its value fits, that its class has a word.

ghost use Rattle.std.specs.Prelude.{◌≡◌, Bool, false, List, ℕ};
ghost use Rattle.std.specs.Fn.{FnReturnsAt, FnReturnsAtPair};
ghost use Rattle.rules.specs.Scan.{part};
ghost use Rattle.rules.specs.Words.{Within, ascii_white, has_word};
ghost use Rattle.rules.specs.Lookup.{answer, class_name};
ghost use Rattle.rules.specs.Finds.{valued, held_times};
ghost use Rattle.rules.specs.Query.{present};
ghost use Rattle.scan.specs.Marks.{white_in};
ghost use Rattle.matching.specs.Matching.{told_by, ValueFits};

use rules::Held;
use scan::Marks;
use tag::Tag;
use words::White;

// A tag, and the marks by which its attributes are read.
#[derive(Clone, Copy)]
pub(crate) struct Candidate<'a, 'b> {
    pub(crate) tag: Tag<'a>,
    pub(crate) marks: &'b Marks,
}

impl<'a> Candidate<'a, '_> {
    // What it holds for the name, with an empty fallback: the tests go by which of the three held.
    #[inline(always)]
    fn attribute(&self, name: &[u8], held: &mut Held) -> &'a [u8]
        ensures { answer (white_in self.now.marks.now) self.now.tag.page.now self.now.tag.node name.now ≡ told_by held.new result.now }
    {
        self.tag.attribute(self.marks, name, b"", held)
    }

    // The attribute is there, with a value or without.
    #[inline]
    pub(crate) fn has_attribute(&self, name: &[u8]) -> bool
        ensures { result ≡ present (answer (white_in self.now.marks.now) self.now.tag.page.now self.now.tag.node name.now) }
    {
        let mut held = Held::Absent;
        self.attribute(name, &mut held);
        !matches!(held, Held::Absent)
    }

    // The attribute has a value, and that fits.
    #[inline(always)]
    fn check_attribute<F: Fn(&[u8]) -> bool>(&self, name: &[u8], fits: F) -> bool
        requires { F.IsAlwaysCallable fits }
        ensures { (P : List ℕ → Bool) → ((v : List ℕ) (b : Bool) → FnReturnsAt F.Fn fits v b → b ≡ P v)
            → result ≡ valued P (answer (white_in self.now.marks.now) self.now.tag.page.now self.now.tag.node name.now) }
    {
        let mut held = Held::Absent;
        let value = self.attribute(name, &mut held);
        match held {
            Held::Absent | Held::Bare => false,
            Held::Value(..) => fits(value),
        }
    }

    // Whether the class may hold k. An opening with just the room for ` class=k>` most likely is that, and is read at once.
    #[inline]
    fn may_have_class(&self, k: &[u8]) -> bool
        ensures { result ≡ false → Within k.now (part self.now.tag.page.now self.now.tag.node.stop self.now.tag.node.opened) → ⊥ }
    {
        let room = self.tag.room();
        (8 < room && room - 8 == k.len()) || self.tag.may_have(k)
    }

    // The attribute has a value that fits: a test that only a value passes that has k within.
    #[inline(always)]
    pub(crate) fn has_value<F: Fn(&[u8], &[u8]) -> bool>(
        &self,
        name: &[u8],
        k: &[u8],
        fits: F,
    ) -> bool
        requires { F.IsAlwaysCallable fits }
        ensures { let held = answer (white_in self.now.marks.now) self.now.tag.page.now self.now.tag.node name.now in
            ValueFits (λ v b. FnReturnsAtPair F.Fn fits v k.now b) k.now held result }
    {
        self.tag.may_have(k) && self.check_attribute(name, |v| fits(v, k))
    }

    // Its class value holds the name, as a word.
    #[inline]
    pub(crate) fn has_class(&self, k: &[u8]) -> bool
        ensures { result ≡ valued (has_word ascii_white k.now) (answer (white_in self.now.marks.now) self.now.tag.page.now self.now.tag.node class_name) }
    {
        self.may_have_class(k)
            && self.check_attribute(b"class", |v| words::has_word(v, k, White::Ascii))
    }

    // How many times its class value holds the name, as a word.
    #[inline]
    pub(crate) fn class_times(&self, k: &[u8]) -> usize
        ensures { result ≡ held_times k.now (answer (white_in self.now.marks.now) self.now.tag.page.now self.now.tag.node class_name) }
    {
        if !self.may_have_class(k) {
            return 0;
        }
        let mut held = Held::Absent;
        let class = self.attribute(b"class", &mut held);
        match held {
            Held::Absent | Held::Bare => 0,
            Held::Value(..) => words::times(class, k, White::Ascii),
        }
    }
}
