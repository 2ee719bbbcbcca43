// What a genotype code means.
ghost use Rattle.std.specs.Prelude.{◌≡◌, List, ℕ, ◌≤◌, leb};
ghost use Rattle.reading.specs.Choice.{pick};
ghost use Rattle.reading.specs.Check.{answer};
ghost use Rattle.reading.specs.Answers.{answer_of};
ghost use Rattle.gtc_records.specs.declared.genotype.Genotype.TheVariants.{Alleles};
ghost use Rattle.gtc_records.specs.Genotype.{letters_from, last_code, meaning, decoding};

use reading::refusal::Refusal;

const LAST_CODE: u8 = 45;

// A genotype: not called (NC), null, or so many letters of which so many are B, the others A.
#[derive(Clone, Copy, Debug, PartialEq, Eq)]
pub enum Genotype {
    NoCall,
    Null,
    Alleles { ploidy: u8, b_alleles: u8 },
}

impl Genotype {
    ghost use Rattle.gtc_records.specs.Genotype.{ploidy, b_alleles};

    // The number of letters, 0 where there are none.
    pub fn ploidy(self) -> u8
        ensures { result ≡ ploidy self }
    {
        match self {
            Genotype::NoCall | Genotype::Null => 0,
            Genotype::Alleles {
                ploidy,
                b_alleles: _,
            } => ploidy,
        }
    }

    // The number of letters that are B.
    pub fn b_alleles(self) -> u8
        ensures { result ≡ b_alleles self }
    {
        match self {
            Genotype::NoCall | Genotype::Null => 0,
            Genotype::Alleles {
                ploidy: _,
                b_alleles,
            } => b_alleles,
        }
    }
}

// 1 for a code from `least` on, else 0: with no branch, so that codes in any order are fast.
fn reaches(code: u8, least: u8) -> u8
    ensures { (result ≡ pick (leb least code) 1 0) × (result ≤ 1) }
{
    u8::from(least <= code)
}

// The letters of a code from 7 to 45: three, and one more from the first code of each length on.
fn letters_of(code: u8) -> Genotype
    requires { (7 ≤ code) × (code ≤ last_code) }
    ensures { result ≡ letters_from code 3 5 }
{
    let p = 3
        + reaches(code, 11)
        + reaches(code, 16)
        + reaches(code, 22)
        + reaches(code, 29)
        + reaches(code, 37);
    letters(p, code - (p * (p + 1) / 2 + 1))
}

// So many letters, of which so many are B.
fn letters(ploidy: u8, b_alleles: u8) -> Genotype
    ensures { result ≡ Alleles ploidy b_alleles }
{
    Genotype::Alleles { ploidy, b_alleles }
}

// What a code up to 45 means.
fn meaning_of(code: u8) -> Genotype
    requires { code ≤ last_code }
    ensures { result ≡ meaning code }
{
    match code {
        0 => Genotype::NoCall,
        1..=3 => letters(2, code - 1),
        4 => Genotype::Null,
        5 | 6 => letters(1, code - 5),
        _ => letters_of(code),
    }
}

impl TryFrom<u8> for Genotype {
    type Error = Refusal;

    ghost try_from_gives = { λ code r. (l : List ℕ) → answer_of r ≡ answer (decoding code) l };

    // The genotype of a code.
    fn try_from(code: u8) -> Result<Genotype, Refusal> {
        if LAST_CODE < code {
            return Err(Refusal::Forbidden);
        }
        Ok(meaning_of(code))
    }
}

// The genotype of a code: `Genotype::try_from` under the public name that callers outside this crate have.
pub fn genotype_of(code: u8) -> Result<Genotype, Refusal>
    ensures { (l : List ℕ) → answer_of result ≡ answer (decoding code) l }
{
    Genotype::try_from(code)
}
