// The meaning of a chain of pieces for a node.

ghost use Rattle.std.specs.Prelude.{◌≡◌};
ghost use Rattle.rules.specs.Query.{node_fits, meaning};
ghost use Rattle.scan.specs.Marks.{white_in};
ghost use Rattle.piece.specs.Words.{pieces_from};
ghost use Rattle.matching.specs.Matching.{OpeningInPage, decided};

use crate::simple::fits;
use piece::Chain;
use rules::{Joiner, Node};
use scan::Marks;

// What a piece with this joiner settles, which fits or does not.
fn settle(joiner: Joiner, fits: bool) -> Option<bool>
    ensures { result ≡ decided joiner fits }
{
    match joiner {
        Joiner::End => Some(fits),
        Joiner::And => { if fits { None } else { Some(false) } }
        Joiner::Or => { if fits { Some(true) } else { None } }
        Joiner::Descendant => Some(false),
        Joiner::Parent => Some(false),
    }
}

// Selector::matches, for a chain. A piece that settles the answer ends the walk: for `tr.fill` only the rows' classes are looked at.
pub fn matches(t: &Marks, page: &[u8], n: Node, chain: &Chain) -> bool
    requires { OpeningInPage page.now n }
    ensures { let k = chain.now in
        let fit = node_fits (white_in t.now) page.now k.text.now n in
        result ≡ meaning fit (pieces_from k.pieces k.words.now 0) }
{
    // by number, since a piece is six words of the chain
    for i in 0..chain.pieces {
        let p = chain.piece(i);
        let fit = fits(t, page, n, chain.text, p.simple);
        if let Some(answer) = settle(p.joiner, fit) {
            return answer;
        }
    }
    false
}
