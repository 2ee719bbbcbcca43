// The records of many SNPs at once.
ghost use Rattle.std.specs.Prelude.{◌≡◌, ◌++◌, ◌+◌, ◌*◌, ◌≤◌, length, drop};
ghost use Rattle.std.proofs.lemmas.List.Edits.{sets};
ghost use Rattle.reading.specs.Check.{answer, map_answer};
ghost use Rattle.reading.specs.Lent.{filled};
ghost use Rattle.reading.specs.Bulk.{record_of};
ghost use Rattle.reading.specs.Answers.{answer_of};
ghost use Rattle.gtc_records.specs.Snps.{snp_width, snps_at, snp_numbers, snp_records, snps_of, snps_reading};
ghost use Rattle.gtc_records.specs.Private.{elements_in, ArraysPresent, ArraysSized, ElementsPresent};

use crate::snp::{Snp, SnpArrays, SnpElements, snp_arrays};
use reading::bulk::put;
use reading::refusal::Refusal;

// A SNP's record in the output: the refusal's number, or 0, and eight numbers.
const SNP_WIDTH: usize = 9;

// The record of a SNP that is answered or refused so, from place p on.
fn put_record(out: &mut [u64], p: usize, r: Result<Snp, Refusal>)
    requires { p + snp_width ≤ length out.old }
    ensures { out.new ≡ sets out.old p (record_of snp_width snp_numbers (answer_of r)) }
{
    match r {
        Ok(d) => {
            let numbers = [
                0,
                d.code as u64,
                d.genotype.ploidy() as u64,
                d.genotype.b_alleles() as u64,
                d.call_1 as u64,
                d.call_2 as u64,
                d.score_bits as u64,
                d.x as u64,
                d.y as u64,
            ];
            put(out, p, numbers);
        }
        Err(refusal) => {
            let number = u64::from(refusal);
            put(out, p, [number, 0, 0, 0, 0, 0, 0, 0, 0]);
        }
    }
}

// The records of n SNPs from SNP j on, counted from 0, at the output's front.
fn put_snps(b: SnpElements, j: usize, n: usize, out: &mut [u64])
    requires { ElementsPresent (elements_in b) (j + n) × (snp_width * n ≤ length out.old) }
    ensures { out.new ≡ snp_records (snps_at (elements_in b.entry) n j) ++ drop (snp_width * n) out.old }
{
    for i in 0..n {
        put_record(out, SNP_WIDTH * i, b.snp(j + i));
    }
}

// The SNPs of these arrays from number `first` on.
fn snps_of(s: &[u8], a: SnpArrays, first: u64, out: &mut [u64]) -> Result<u64, Refusal>
    requires { ArraysPresent s.now a × ArraysSized a }
    ensures result_value { answer_of result ≡ map_answer length (answer (snps_of a first (length out.old)) s.now) }
    ensures out_after { out.new ≡ filled
        (map_answer snp_records (answer (snps_of a first (length out.old)) s.now)) out.old }
{
    let count = a.genotypes.count as u64;
    if first < 1 || count < first {
        return Err(Refusal::NoSuchElement);
    }
    let room = out.len();
    if room < SNP_WIDTH {
        return Err(Refusal::NoRoom);
    }
    let j = (first - 1) as usize;
    let n = ((count - (first - 1)) as usize).min(room / SNP_WIDTH);
    put_snps(a.elements(s), j, n, out);
    Ok(n as u64)
}

// The records of the SNPs from number `first` on, as many as are left and as fit, at the output's front: nine numbers for each, the refusal's
// and those of `Snp`.
pub fn read_snps(s: &[u8], first: u64, out: &mut [u64]) -> Result<u64, Refusal>
    ensures result_value { answer_of result ≡ map_answer length (answer (snps_reading first (length out.old)) s.now) }
    ensures out_after { out.new ≡ filled
        (map_answer snp_records (answer (snps_reading first (length out.old)) s.now)) out.old }
{
    let a = snp_arrays(s)?;
    snps_of(s, a, first, out)
}
