// The ABIF call that lists the directory into a list of records, lent by the caller.
ghost use Rattle.std.specs.Prelude.{◌≡◌, length};
ghost use Rattle.reading.specs.Check.{answer, map_answer};
ghost use Rattle.reading.specs.Lent.{filled};
ghost use Rattle.abif_file.specs.List.{listing};
ghost use Rattle.capi.specs.Answers.{as_listed};

use crate::answers::Listed;
use abif_file::entry::RawEntry;
use abif_file::list;

// All entries, in file order, at the front of the lent list, or a refusal that leaves it as it was.
#[unsafe(no_mangle)]
pub extern "C" fn jt_abif_list(s: &[u8], out: &mut [RawEntry]) -> Listed
    ensures { (result ≡ as_listed (map_answer length (answer (listing (length out.old)) s.now)))
        × (out.new ≡ filled (answer (listing (length out.old)) s.now) out.old) }
{
    list::list(s, out).into()
}
