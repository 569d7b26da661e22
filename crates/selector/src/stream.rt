// The bytes of a selector and a place in them (tl's stream). Its functions are thin, over those of `scan`, which take a slice and a place.

ghost use Rattle.std.specs.Prelude.{◌≡◌, ◌≤◌, length};
ghost use Rattle.rules.specs.Refusals.{selector_limit};

use rules::Span;
use scan::Marks;

// The place is within the bytes, and these are no more than a selector may have, so that places fit the words of its written form.
#[derive(Drop)]
pub struct Stream<'a> {
    pub data: &'a [u8],
    pub idx: usize,
    ghost place: { idx ≤ length «data».now },
    ghost short: { length «data».now ≤ selector_limit },
}

impl<'a> Stream<'a> {
    ghost use Rattle.std.specs.Prelude.{ltb};
    ghost use Rattle.rules.specs.Scan.{pass};
    ghost use Rattle.rules.specs.Places.{current_at};
    ghost use Rattle.rules.specs.Selector.{spaces_end, ident_end, ident};
    ghost use Rattle.selector.specs.Reads.{At, Reads, past};

    pub fn new(data: &'a [u8]) -> Self
        requires { length «data».now ≤ selector_limit }
        ensures { (result.«data» ≡ «data».entry) × (result.idx ≡ 0) }
    {
        Stream { data, idx: 0 }
    }

    // The byte at the place, or the end.
    pub fn current_cpy(&self) -> Option<u8>
        ensures { result ≡ current_at self.now.«data».now self.now.idx }
    {
        scan::current_cpy(self.data, self.idx)
    }

    // One byte on, or the end.
    pub fn advance(&mut self)
        ensures { At self.old (pass self.old.«data».now self.old.idx) self.new }
    {
        self.idx = scan::advance(self.data, self.idx);
    }

    // Passes q, if it stands at the place.
    #[tactic(auto, unfolding(rules::specs::Places::expect_at))]
    pub fn expect_and_skip(&mut self, q: u8) -> Option<u8>
        ensures { Reads (past q self.old.«data».now self.old.idx) self.old result self.new }
    {
        let next = scan::expect_and_skip(self.data, self.idx, q)?;
        self.idx = next;
        Some(q)
    }

    // Passes spaces, and says whether there was one. Only space is skipped.
    pub fn skip_whitespaces(&mut self) -> bool
        ensures spaced { result ≡ ltb self.old.idx self.new.idx }
        ensures on { At self.old (spaces_end self.old.«data».now self.old.idx) self.new }
    {
        let from = self.idx;
        self.idx = scan::skip_while(self.data, from, |b| b == b' ');
        from < self.idx
    }

    // The identifier at the place, perhaps empty, which is passed.
    #[tactic(auto, using(rules::proofs::Runs::skip_le))]
    pub fn read_identifier(&mut self, t: &Marks) -> Span
        ensures span { result ≡ ident self.old.«data».now self.old.idx }
        ensures on { At self.old (ident_end self.old.«data».now self.old.idx) self.new }
    {
        let from = self.idx;
        self.idx = t.search_non_ident(self.data, from);
        Span {
            start: from as u32,
            end: self.idx as u32,
        }
    }
}
