// What is found of a tag, and its numbers.
ghost use Rattle.std.specs.Prelude.{◌≡◌, ◌++◌, ◌+◌, ◌*◌, ◌≤◌, length, map, drop, Some};
ghost use Rattle.std.proofs.lemmas.List.Edits.{sets};
ghost use Rattle.abif_tags.specs.Report.{finding_numbers};
ghost use Rattle.abif_tags.specs.Private.{finding_of, told};

use abif::tag::Tag;

// What is told of a tag.
#[derive(Clone, Copy)]
pub(crate) enum Kind {
    // the profile requires the tag, and the file does not have it
    Missing = 1,
    // the file has it with another type
    OtherType = 2,
    // the file has it, and the profile does not
    NotInProfile = 3,
}

impl From<Kind> for i64 {
    ghost use Rattle.std.specs.Prelude.{◌≡◌, pos};
    ghost use Rattle.abif_tags.specs.Kind.{kind_number};

    ghost from_gives = { λ kind n. n ≡ pos (kind_number kind) };

    fn from(kind: Kind) -> i64 {
        kind as i64
    }
}

// What is found of a tag.
#[derive(Clone, Copy)]
pub(crate) struct Finding {
    pub tag: Tag,
    pub kind: Kind,
}

// Puts a finding's three numbers behind those of m findings.
fn put(out: &mut [i64], m: usize, finding: Finding)
    requires { 3 * m + 3 ≤ length out.old }
    ensures { out.new ≡ sets out.old (3 * m) (finding_numbers (told (Some finding))) }
{
    out[3 * m] = finding.tag.name.into();
    out[3 * m + 1] = finding.tag.number.into();
    out[3 * m + 2] = finding.kind.into();
}

// Puts the numbers of these findings at the output's front.
pub(crate) fn put_all(out: &mut [i64], findings: &[Finding])
    requires { 3 * length findings.now ≤ length out.old }
    ensures { out.new ≡ finding_numbers (map finding_of findings.now) ++ drop (3 * length findings.now) out.old }
{
    for (m, finding) in findings.iter().enumerate() {
        put(out, m, *finding);
    }
}
