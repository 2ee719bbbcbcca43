// Judging.
ghost use Rattle.std.specs.Prelude.{◌≡◌, ◌≤◌, ◌<◌, Some};
ghost use Rattle.reading.specs.Check.{run};
ghost use Rattle.reading.specs.Verdict.{verdict_of};
ghost use Rattle.reading.specs.Entries.{in_order};
ghost use Rattle.reading.specs.Answers.{outcome_of, outcome_of_judged};
ghost use Rattle.gtc.specs.Table.{table_end};
ghost use Rattle.gtc.specs.Judge.{is_earlier, judge_as, judge_entry, unjudged_among, judge_table, judging, extent_of};
ghost use Rattle.gtc.specs.Answers.{answer_of_verdict};

use crate::entry::Entry;
use crate::item::{Stored, is_listed, item_tests, listing_of};
use crate::table::{Table, table_end};
use reading::check::{Failure, Reason, Requirement, Rule, Test};
use reading::refusal::Refusal;
use reading::verdict;
use reading::verdict::Refused;

// The file is whole: its extent, the number of entries that are not judged, and how many bytes lie after the extent. The other formats' has no such
// number.
#[derive(Clone, Copy)]
pub struct Whole {
    pub extent: usize,
    pub unjudged: usize,
    pub tail: usize,
}

// One of the first i entries has this id.
fn is_earlier(t: Table, id: u16, i: usize) -> bool
    requires { i ≤ t.count }
    ensures { result ≡ is_earlier t.entry.up_to.now id i }
{
    t.first_id(id, 0, i).is_some()
}

// Judging entry d, which is entry i and has an id that is listed, its data stored so.
fn judge_listed(s: &[u8], t: Table, i: usize, v: Stored, d: Entry) -> Result<usize, Failure>
    requires { i < t.count }
    ensures { outcome_of result ≡ run (judge_as (Some v) t.entry.up_to.now t.entry.count i d) s.now }
{
    if is_earlier(t, d.id, i) {
        return Err(Failure::Failed(Test {
            field: d.id_field(),
            rule: Rule::Other(Requirement::NewId, false),
            refusal: Refusal::StandsTwice,
        }));
    }
    let q = item_tests(s, t, v, d)?;
    Ok(q.start + q.size)
}

fn judge_entry(s: &[u8], t: Table, i: usize) -> Result<usize, Failure>
    requires { i < t.count }
    ensures { outcome_of result ≡ run (judge_entry t.entry.up_to.now t.entry.count i) s.now }
{
    let d = t.entry_at(i);
    match listing_of(d.id) {
        Some(v) => judge_listed(s, t, i, v, d),
        None => Ok(0),
    }
}

// Why an entry is refused, or the extent.
fn judge_entries(s: &[u8], t: Table) -> Result<usize, Reason>
    ensures { outcome_of_judged result ≡ run
        (in_order (judge_entry t.entry.up_to.now t.entry.count) t.entry.count 0 (table_end t.entry.count))
        s.now }
{
    let mut x = table_end(t.count);
    for i in 0..t.count {
        // A match: the same by `map_err` and `?` takes a loop twice the time, as measured for SFF's reads.
        match judge_entry(s, t, i) {
            Ok(y) => x = x.max(y),
            Err(f) => return Err(f.at(i + 1)),
        }
    }
    Ok(x)
}

// The number of entries that are not judged.
fn unjudged_among(t: Table) -> usize
    ensures { result ≡ unjudged_among t.entry.up_to.now t.entry.count 0 }
{
    let mut count = 0;
    for i in 0..t.count {
        if !is_listed(t.entry_at(i).id) {
            count += 1;
        }
    }
    count
}

fn judge_table(s: &[u8], t: Table) -> Result<Whole, Refused>
    ensures { answer_of_verdict result ≡ verdict_of (judge_table t.entry.up_to.now t.entry.count) extent_of s.now }
{
    let extent = judge_entries(s, t)?;
    let whole = verdict::Whole::new(extent, s.len());
    Ok(Whole {
        extent,
        unjudged: unjudged_among(t),
        tail: whole.tail,
    })
}

// Judges the file: whether it is whole, with its extent, its unjudged entries and its tail, or the refusal and its entry.
pub fn judge(s: &[u8]) -> Result<Whole, Refused>
    ensures { answer_of_verdict result ≡ verdict_of judging extent_of s.now }
{
    let t = Table::read(s).map_err(|f| f.at(0))?;
    judge_table(s, t)
}
