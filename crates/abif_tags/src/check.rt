// The check of a file's tags against a profile.
ghost use Rattle.std.specs.Prelude.{◌≡◌, List, ℕ, ◌≤◌, length};
ghost use Rattle.reading.specs.Check.{answer, map_answer};
ghost use Rattle.reading.specs.Lent.{filled};
ghost use Rattle.reading.specs.Answers.{answer_of};
ghost use Rattle.abif_tags.specs.Report.{finding_numbers, reporting, checking_tags};

use crate::finding::{Finding, Kind, put_all};
use crate::order::{Tagged, sort};
use crate::profile::Profile;
use crate::report::SideBySide;
use crate::table::ROW_COUNT;
use abif::directory::{Directory, open};
use abif::judge::judge;
use abif::tag::Tag;
use reading::refusal::Refusal;

// No directory has more entries.
const MOST_ENTRIES: usize = 999;

// What stands in a list of entries before it is filled.
const FIRST: Tagged = Tagged {
    tag: Tag { name: 0, number: 0 },
    entry: 0,
};

// No report has more findings: one for each entry and each row.
const MOST_FINDINGS: usize = MOST_ENTRIES + ROW_COUNT;

// What stands in a list of findings before it is filled.
const FIRST_FINDING: Finding = Finding {
    tag: Tag { name: 0, number: 0 },
    kind: Kind::Missing,
};

// The report on the entries of the directory at this place, which the bytes end with.
fn check_entries(
    bytes: &[u8],
    place: u32,
    count: usize,
    profile: Profile,
    out: &mut [i64],
) -> Result<u64, Refusal>
    requires { count ≤ MOST_ENTRIES }
    ensures result_value { (l : List ℕ) → answer_of result
        ≡ map_answer length (answer (reporting profile.number (length out.old) (record { place = place; count = count; up_to = bytes.now })) l) }
    ensures out_after { (l : List ℕ) → out.new
        ≡ filled (map_answer finding_numbers (answer (reporting profile.number (length out.old) (record { place = place; count = count; up_to = bytes.now })) l)) out.old }
{
    let mut entries = [FIRST; MOST_ENTRIES];
    let order = &mut entries[..count];
    sort(bytes, place, order);
    let report = SideBySide {
        bytes,
        place,
        order,
        profile,
    };
    // Gathered first, since a refused call leaves the lent list as it was.
    let mut found = [FIRST_FINDING; MOST_FINDINGS];
    let m = report.tell(&mut found);
    if out.len() < 3 * m {
        return Err(Refusal::NoRoom);
    }
    put_all(out, &found[..m]);
    Ok(m as u64)
}

// Every required tag that is missing, every tag of another type and every tag that is not in the profile, in tag order, at the output's front.
pub fn check_tags(s: &[u8], profile: u64, out: &mut [i64]) -> Result<u64, Refusal>
    ensures result_value { answer_of result ≡ map_answer length (answer (checking_tags profile (length out.old)) s.now) }
    ensures out_after { out.new ≡ filled (map_answer finding_numbers (answer (checking_tags profile (length out.old)) s.now)) out.old }
{
    judge(s)?;
    let profile = Profile::try_from(profile)?;
    let Directory { place, count } = open(s)?;
    let end = place as usize + 28 * count as usize;
    check_entries(&s[..end], place, count as usize, profile, out)
}
