// The raw entries of the directory, into a list of records that the caller lends.
ghost use Rattle.std.specs.Prelude.{◌≡◌, ◌+◌, ◌*◌, ◌≤◌, length};
ghost use Rattle.reading.specs.Check.{answer, map_answer};
ghost use Rattle.reading.specs.Lent.{filled};
ghost use Rattle.reading.specs.Answers.{answer_of};
ghost use Rattle.abif_file.specs.List.{raw_entries, listing};

use crate::entry::{RawEntry, raw_entry};
use abif::directory::open;
use reading::refusal::Refusal;

// The entries of a directory at this place, as many as the list holds.
fn fill(h: &[u8], place: u32, out: &mut [RawEntry])
    requires { place + 28 * length out.old ≤ length h.now }
    ensures { out.new ≡ raw_entries h.now place (length out.old) }
{
    for (i, slot) in out.iter_mut().enumerate() {
        *slot = raw_entry(h, place, i);
    }
}

// All entries, in file order, at the front of the lent list, or a refusal that leaves it as it was.
#[tactic(auto, using(crate::proofs::list::Laws::list_over))]
pub fn list(s: &[u8], out: &mut [RawEntry]) -> Result<u64, Refusal>
    ensures { (answer_of result ≡ map_answer length (answer (listing (length out.old)) s.now))
        × (out.new ≡ filled (answer (listing (length out.old)) s.now) out.old) }
{
    let d = open(s)?;
    let n = d.count as usize;
    if out.len() < n {
        return Err(Refusal::NoRoom);
    }
    let end = d.place as usize + 28 * n;
    fill(&s[..end], d.place, &mut out[..n]);
    Ok(n as u64)
}
