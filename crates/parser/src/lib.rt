// Reading a page (parser/base): the items of a page of bytes, one after the other, into a lent table of words. The table is being
// written, and makes no document with the page before the end.

#![tactic(auto)]

ghost use Rattle.std.specs.Prelude.{◌≤◌, length};
ghost use Rattle.rules.specs.Profile.{page_limit, void_of, settings_of};
ghost use Rattle.rules.specs.Refusals.{Leaves};
ghost use Rattle.rules.specs.Answers.{parse_answer, parse_table};
ghost use Rattle.scan.specs.Marks.{white_in};
ghost use Rattle.parser.specs.Parsing.{HoldsPage, Run, HoldsReading, Finished};

use profile::{SIZE, VoidNames};
use rules::{Refusal, State};
use scan::Marks;

// Up to `budget` steps of the reader from a state on. It stops early at the end of the page, and where there is no room for a row. The
// steps are counted because the rules count them (`steps`). The page is within the limit, which `parse` tests.
fn parse_single(
    table: &mut [u32],
    t: &Marks,
    void: &VoidNames,
    page: &[u8],
    from: State,
    budget: usize,
) -> Option<State>
    requires { HoldsPage page.now table.old from × (length page.now ≤ page_limit) }
    ensures { Run (white_in t.now) (void_of void.now.profile.bytes.now) page.now budget table.old from table.new result }
{
    let mut s = from;
    for _ in 0..budget {
        if page.len() <= s.at {
            return Some(s);
        }
        let item = lexer::item_at(t, page, s.at);
        s = tree::put(table, void, page, s, item)?;
    }
    Some(s)
}

// Settles the open tags and writes the header.
fn finish(table: &mut [u32], s: State, len: u32)
    requires { HoldsReading table.old s }
    ensures { Finished table.old s len table.new }
{
    let count = s.count;
    let last = count.saturating_sub(1);
    tree::settle(table, s.inner, last as u32);
    table::put_head(table, count as u32, s.version, len);
}

// Reads a page into a table and answers how many nodes it has. Refused are 14, a profile outside its limits, 1, a page over the profile's
// limit, and 2, a table with too few rows.
pub fn parse(profile: &[u8; SIZE], page: &[u8], table: &mut [u32]) -> Result<usize, Refusal>
    ensures { let f = settings_of profile.now in
        let p = page.now in
        Leaves (parse_answer f p (length table.old)) (parse_table f p table.old) result table.new }
{
    let profile = match profile::check(profile, page) {
        Ok(profile) => profile,
        Err(why) => return table::refuse(table, why),
    };
    if table.len() < table::HEAD {
        return table::refuse(table, Refusal::TableTooSmall);
    }
    let t = profile.marks();
    let void = profile.void_names();
    let start = State {
        at: 0,
        count: 0,
        inner: 0,
        version: 0,
    };
    // Each step passes a byte or more, so that the page's length is budget enough. From here on the page is within the limit.
    let len = page.len();
    let Some(s) = parse_single(table, &t, &void, page, start, len) else {
        return table::refuse(table, Refusal::TableTooSmall);
    };
    finish(table, s, len as u32);
    Ok(s.count)
}
