// The types that the promises speak of. The rules that tl goes by are in specs/, as definitions, and laws about them in proofs/.

#![tactic(auto)]

// ---- pages

// The longest page that is read, in bytes.
pub const PAGE_LIMIT: usize = 65536;

// The version of a page whose document type names html; else it is 0.
pub const HTML5: u32 = 5;

// What a node is, by word 0 of its row.
#[derive(Clone, Copy)]
pub enum Kind {
    Tag = 1,
    Text,
    Comment,
}

// How a tag ended, by word 8 of its row: it was open at the end of the page; a closing tag with its `>` closed it; one that the page's
// end cut short did; it was never opened, since its name is void or it ended in `/>`. Texts and comments have the first.
#[derive(Clone, Copy)]
pub enum Ended {
    Open,
    Closed,
    CutShort,
    NeverOpened,
}

// A row of the table: `name` and `stop` are a tag's name start and name end, `opened` the place after its opening `>`.
// All are numbers, the kind and how a tag ended too: they are words of the table, which a caller of the C interface may have filled with
// anything. So is the parent, 0 or its handle plus 1.
#[derive(Clone, Copy)]
pub struct Node {
    pub kind: u32,
    pub start: u32,
    pub end: u32,
    pub name: u32,
    pub stop: u32,
    pub opened: u32,
    pub parent: u32,
    pub last: u32,
    pub ended: u32,
}

impl Node {
    ghost use Rattle.std.specs.Prelude.{◌≡◌, eqb};
    ghost use Rattle.rules.specs.Sound.{tagged};
    ghost use Rattle.rules.specs.Table.{parent_handle};

    pub fn is_tag(&self) -> bool
        ensures { result ≡ tagged self.now }
    {
        self.kind == Kind::Tag as u32
    }

    pub fn is_text(&self) -> bool
        ensures { result ≡ eqb self.now.kind 2 }
    {
        self.kind == Kind::Text as u32
    }

    // The handle of the parent, if it has one.
    pub fn parent(&self) -> Option<usize>
        ensures { result ≡ parent_handle self.now }
    {
        (self.parent as usize).checked_sub(1)
    }
}

// An attribute: its name from and to; its value from and to, if it is given one; the place after it. Here, in an item and in what is held
// two places are two numbers: as a span each would have one more name, in the rules and in the rows, which hold the places one by one.
#[derive(Clone, Copy)]
pub struct Attribute {
    pub name: usize,
    pub stop: usize,
    pub value: Option<(usize, usize)>,
    pub next: usize,
}

// What stands at a place of a page; its last place is the place after it.
#[derive(Clone, Copy)]
pub enum Item {
    // a text up to its end
    Text(usize),
    // a closing tag: its name from and to
    Close {
        name: usize,
        stop: usize,
        next: usize,
    },
    // a comment, from and to
    Comment {
        start: usize,
        end: usize,
        next: usize,
    },
    // a document type: does it name html
    Doctype {
        html: bool,
        next: usize,
    },
    // a tag: its name from and to, the place after its `>`, and whether it ended in `/>`
    Tag {
        name: usize,
        stop: usize,
        next: usize,
        slash: bool,
    },
    // nothing that makes a node
    Nothing(usize),
}

// What a reader keeps: the place, the rows so far, the innermost open tag's handle plus 1, the version. The last two are kept as the
// table's words, into which they go.
#[derive(Clone, Copy)]
pub struct State {
    pub at: usize,
    pub count: usize,
    pub inner: u32,
    pub version: u32,
}

// What a tag holds for an attribute name: nothing, the name without a value, or a part of the page. Three cases with names, which an
// option in an option would not have.
#[derive(Clone, Copy)]
pub enum Held {
    Absent,
    Bare,
    Value(usize, usize),
}

impl Held {
    ghost use Rattle.std.specs.Prelude.{◌≡◌};
    ghost use Rattle.rules.specs.Refusals.{held_numbers};

    // Which of the three, and where a value starts and ends. A method, since `<[usize; 3]>::from` would not say what the numbers are.
    pub fn numbers(self) -> [usize; 3]
        ensures { result ≡ held_numbers self }
    {
        match self {
            Held::Absent => [0, 0, 0],
            Held::Bare => [1, 0, 0],
            Held::Value(start, end) => [2, start, end],
        }
    }
}

// The nodes that a scan lookup or a query goes over: all, or the finished tags alone, those that a closing tag with its `>` closed or that
// were never opened. Document 02 calls these the desk and the book; "reader" is here the one of pages.
#[derive(Clone, Copy)]
pub enum View {
    All,
    Finished,
}

impl View {
    ghost use Rattle.std.specs.Prelude.{◌≡◌};
    ghost use Rattle.rules.specs.Finds.{shows};

    pub fn shows(self, n: &Node) -> bool
        ensures { result ≡ shows self n.now }
    {
        match self {
            View::All => true,
            View::Finished => {
                let closed = n.ended == Ended::Closed as u32;
                n.is_tag() && (closed || n.ended == Ended::NeverOpened as u32)
            }
        }
    }
}

impl From<u32> for View {
    ghost use Rattle.std.specs.Prelude.{◌≡◌};
    ghost use Rattle.rules.specs.Refusals.{view_of};

    ghost from_gives = { λ n view. view ≡ view_of n };

    fn from(n: u32) -> Self {
        if n == 0 { View::All } else { View::Finished }
    }
}

// The two manners of a lookup by id or class: over the tags that a view shows, or over those that a closing tag closed.
#[derive(Clone, Copy)]
pub enum Manner {
    Scan(View),
    Closed,
}

impl Manner {
    ghost use Rattle.std.specs.Prelude.{◌≡◌};
    ghost use Rattle.rules.specs.Refusals.{manner_of};

    // By two numbers, as a caller of the exports says it: that of the view counts in a scan alone.
    pub fn of(manner: u32, view: u32) -> Manner
        ensures { result ≡ manner_of manner view }
    {
        if manner == 0 {
            Manner::Scan(View::from(view))
        } else {
            Manner::Closed
        }
    }
}

// ---- selectors

// A part of a selector, from and to.
#[derive(Clone, Copy)]
pub struct Span {
    pub start: u32,
    pub end: u32,
}

// A simple selector, in the order of the written kinds 1 to 10, with the places of its names.
#[derive(Clone, Copy)]
pub enum Simple {
    Tag(Span),
    Id(Span),
    Class(Span),
    All,
    Attribute(Span),
    AttributeValue(Span, Span),
    AttributeValueWhitespacedContains(Span, Span),
    AttributeValueStartsWith(Span, Span),
    AttributeValueEndsWith(Span, Span),
    AttributeValueSubstring(Span, Span),
}

// How a piece is joined to the rest of its chain, in the order of the written joiners 0 to 4.
#[derive(Clone, Copy)]
pub enum Joiner {
    End,
    And,
    Or,
    Descendant,
    Parent,
}

impl From<Joiner> for u32 {
    ghost use Rattle.std.specs.Prelude.{◌≡◌};
    ghost use Rattle.rules.specs.Chain.{joiner_word};

    ghost from_gives = { λ joiner word. word ≡ joiner_word joiner };

    fn from(joiner: Joiner) -> u32 {
        joiner as u32
    }
}

// A piece of a chain: a simple selector, and the joiner to the rest.
#[derive(Clone, Copy)]
pub struct Piece {
    pub simple: Simple,
    pub joiner: Joiner,
}

// ---- answers

// Why a call is refused. Its number, 1 to 7 or 14, is what a caller of the exports gets.
#[derive(Clone, Copy, PartialEq, Eq)]
pub enum Refusal {
    PageTooLong = 1,
    TableTooSmall,
    TableNotSound,
    NotATag,
    SelectorTooLong,
    SelectorNotRead,
    BufferTooShort,
    ProfileNotFine = 14,
}

impl From<Refusal> for u32 {
    ghost use Rattle.std.specs.Prelude.{◌≡◌};
    ghost use Rattle.rules.specs.Refusals.{number_of};

    ghost from_gives = { λ why n. n ≡ number_of why };

    fn from(why: Refusal) -> u32 {
        why as u32
    }
}
