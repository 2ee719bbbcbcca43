// Judging.
ghost use Rattle.std.specs.Prelude.{◌≡◌, ◌≤◌, length};
ghost use Rattle.reading.specs.Answers.{outcome_of, outcome_of_judged, answer_of_verdict};
ghost use Rattle.reading.specs.Check.{run};
ghost use Rattle.reading.specs.Verdict.{verdict_of};
ghost use Rattle.sff.specs.Judge.{ending, judging, judging_reads, extent_of};

use crate::header::read_header;
use crate::walk::{Boundary, SffFile};
use reading::check::{Failure, Reason, Requirement, Rule, failed};
use reading::refusal::Refusal;
use reading::verdict::{Refused, Whole};
use sff_fields::header::index_offset_field;

// The extent, from the boundary behind the last read: the index may stand there too, and must have been met.
fn judge_ending(file: SffFile<'_>, b: Boundary) -> Result<usize, Failure>
    requires { b.position ≤ length file.bytes.now }
    ensures { outcome_of result ≡ run (ending file.entry.header b) file.entry.bytes.now }
{
    let d = file.header;
    let c = file.skip_index(b)?;
    if d.index_offset != 0 && !c.met {
        failed(
            index_offset_field(d),
            Rule::Other(Requirement::IndexMet, false),
            Refusal::BadHeader,
        )?;
    }
    Ok(c.position)
}

fn judge_reads(file: SffFile<'_>) -> Result<usize, Reason>
    ensures { outcome_of_judged result ≡ run (judging_reads file.entry.header) file.entry.bytes.now }
{
    let b = file.walk_first(file.header.reads as usize)?;
    judge_ending(file, b).map_err(|f| f.at(0))
}

// The extent, or why the file is refused.
fn extent(s: &[u8]) -> Result<usize, Reason>
    ensures { outcome_of_judged result ≡ run judging s.now }
{
    let header = read_header(s).map_err(|f| f.at(0))?;
    judge_reads(SffFile { bytes: s, header })
}

// Judges the file: whether it is whole, with its extent and its tail, or the refusal and its read.
pub fn judge(s: &[u8]) -> Result<Whole, Refused>
    ensures { answer_of_verdict result ≡ verdict_of judging extent_of s.now }
{
    let extent = extent(s)?;
    Ok(Whole::new(extent, s.len()))
}
