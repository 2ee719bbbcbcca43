// The report of a file's tags against a profile.
ghost use Rattle.std.specs.Prelude.{◌≡◌, ◌++◌, ◌+◌, ◌*◌, ◌≤◌, ◌<◌, length, map, take, drop, All};
ghost use Rattle.abif_tags.specs.Order.{tag_at};

use crate::finding::{Finding, Kind};
use crate::order::Tagged;
use crate::profile::Profile;
use crate::table::{Presence, ROW_COUNT, row_at, row_for};
use reading::number::{be16, be32};
use std::cmp::Ordering;

// A file's entries and a profile's rows, which the report goes through side by side: the file's bytes, its directory's place, its entries in
// tag order, and the profile.
#[derive(Clone, Copy)]
pub(crate) struct SideBySide<'a> {
    pub bytes: &'a [u8],
    pub place: u32,
    pub order: &'a [Tagged],
    pub profile: Profile,
    ghost tags_told: { All (λ t. t.tag ≡ tag_at bytes.now place t.entry) order.now },
}

impl<'a> SideBySide<'a> {
    ghost use Rattle.abif.specs.Entry.{entry_of};
    ghost use Rattle.abif_tags.specs.Report.{of_entry};
    ghost use Rattle.abif_tags.specs.Private.{finding_of, told, left};

    // What is found of an entry.
    fn of_entry(&self, at: Tagged) -> Option<Finding>
        requires { at.tag ≡ tag_at self.now.bytes.now self.now.place at.entry }
        ensures { told result ≡ of_entry self.now.profile.number (entry_of self.now.bytes.now (self.now.place + 28 * at.entry)) }
    {
        let Tagged { tag, entry } = at;
        let start = self.place as usize + 28 * entry as usize;
        let code = be16(self.bytes, start + 8);
        let count = be32(self.bytes, start + 12);
        match row_for(self.profile, tag) {
            None => Some(Finding {
                tag,
                kind: Kind::NotInProfile,
            }),
            Some(row) if row.published.admits(code, count) => None,
            Some(_) => Some(Finding {
                tag,
                kind: Kind::OtherType,
            }),
        }
    }

    // The next step, from the entry at place i of the order and from row j on: what is found, and how many entries and rows have gone by then.
    fn step(&self, i: usize, j: usize) -> (Option<Finding>, usize, usize)
        requires { (i ≤ length self.now.order.now) × (j ≤ ROW_COUNT) × (i + j < length self.now.order.now + ROW_COUNT) }
        ensures step_told { left self.now i j ≡ told result.0 ++ left self.now result.1 result.2 }
        ensures step_in_bounds { (result.1 ≤ length self.now.order.now) × (result.2 ≤ ROW_COUNT) × (i + j < result.1 + result.2) }
    {
        if j == ROW_COUNT {
            return (self.of_entry(self.order[i]), i + 1, j);
        }
        let row = row_at(j, self.profile);
        if row.presence != Presence::Required {
            return (None, i, j + 1);
        }
        let missing = Finding {
            tag: row.first,
            kind: Kind::Missing,
        };
        if i == self.order.len() {
            return (Some(missing), i, j + 1);
        }
        let at = self.order[i];
        match at.tag.cmp(&row.first) {
            Ordering::Less => (self.of_entry(at), i + 1, j),
            Ordering::Equal => (self.of_entry(at), i + 1, j + 1),
            Ordering::Greater => (Some(missing), i, j + 1),
        }
    }

    // The report, at the list's front, and how many findings it has.
    pub(crate) fn tell(&self, out: &mut [Finding]) -> usize
        requires { length self.now.order.now + ROW_COUNT ≤ length out.old }
        ensures value { result ≡ length (left self.now 0 0) }
        ensures out_after { (result ≤ length out.old) × (map finding_of (take result out.new) ≡ left self.now 0 0)
            × (drop result out.new ≡ drop result out.old) }
    {
        let n = self.order.len();
        let mut i = 0;
        let mut j = 0;
        let mut m = 0;
        // Each list goes by at its own pace, so no `for` counts the steps.
        while i + j < n + ROW_COUNT {
            let (found, entries, rows) = self.step(i, j);
            if let Some(finding) = found {
                out[m] = finding;
                m += 1;
            }
            i = entries;
            j = rows;
        }
        m
    }
}
