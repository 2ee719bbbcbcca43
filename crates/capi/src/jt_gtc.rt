// The GTC calls. SNPs and transformations count from one; a part is told by its start and length.
ghost use Rattle.std.specs.Prelude.{◌≡◌, length};
ghost use Rattle.reading.specs.Check.{answer, map_answer};
ghost use Rattle.reading.specs.Verdict.{verdict_of};
ghost use Rattle.reading.specs.Lent.{filled};
ghost use Rattle.reading.specs.Bulk.{records};
ghost use Rattle.gtc.specs.Judge.{judging, extent_of};
ghost use Rattle.gtc.specs.Lookup.{looking_up};
ghost use Rattle.gtc_records.specs.Snp.{snp_reading};
ghost use Rattle.gtc_records.specs.Snps.{snps_reading, snp_numbers};
ghost use Rattle.gtc_records.specs.Transformation.{transformation_reading};
ghost use Rattle.gtc_records.specs.Normalise.{normalised};
ghost use Rattle.capi.specs.Answers.{as_item, as_listed};
ghost use Rattle.capi.specs.Gtc.{as_judged, as_snp, as_transformation};

use crate::answers::{Item, Listed, Snp, TransformationAnswer, Verdict};
use gtc::judge::Whole;
use gtc::{judge, lookup};
use gtc_records::normalise::Point;
use gtc_records::transformation::{Transformation, Transformed};
use gtc_records::{normalise, snp, snps, transformation};
use reading::refusal::Refusal;
use reading::verdict::Refused;

impl From<Result<Whole, Refused>> for Verdict {
    ghost use Rattle.gtc.specs.Answers.{answer_of_verdict};
    ghost use Rattle.capi.specs.Gtc.{as_judged};

    ghost from_gives = { λ r a. a ≡ as_judged (answer_of_verdict r) };

    fn from(verdict: Result<Whole, Refused>) -> Verdict {
        match verdict {
            Ok(whole) => Verdict {
                extent: whole.extent as u64,
                unjudged: whole.unjudged as u64,
                tail: whole.tail as u64,
                ..Verdict::default()
            },
            Err(refused) => Verdict {
                refusal: refused.refusal.into(),
                entry: refused.entry as u64,
                ..Verdict::default()
            },
        }
    }
}

// Whether the bytes are a whole GTC file, with its extent, its unjudged entries and its tail.
#[unsafe(no_mangle)]
pub extern "C" fn jt_gtc_judge(s: &[u8]) -> Verdict
    ensures { result ≡ as_judged (verdict_of judging extent_of s.now) }
{
    judge::judge(s).into()
}

// The item with this id.
#[unsafe(no_mangle)]
pub extern "C" fn jt_gtc_lookup(s: &[u8], id: u16) -> Item
    ensures { result ≡ as_item (answer (looking_up id) s.now) }
{
    lookup::lookup(s, id).into()
}

impl From<Result<snp::Snp, Refusal>> for Snp {
    ghost use Rattle.reading.specs.Answers.{answer_of};
    ghost use Rattle.capi.specs.Gtc.{as_snp};

    ghost from_gives = { λ r a. a ≡ as_snp (answer_of r) };

    fn from(found: Result<snp::Snp, Refusal>) -> Snp {
        match found {
            Ok(r) => Snp {
                refusal: 0,
                code: r.code as u64,
                ploidy: r.genotype.ploidy() as u64,
                b_alleles: r.genotype.b_alleles() as u64,
                call_1: r.call_1 as u64,
                call_2: r.call_2 as u64,
                score_bits: r.score_bits as u64,
                x: r.x as u64,
                y: r.y as u64,
            },
            Err(refusal) => Snp {
                refusal: refusal.into(),
                ..Snp::default()
            },
        }
    }
}

// The record of SNP number `index`, from one.
#[unsafe(no_mangle)]
pub extern "C" fn jt_gtc_snp(s: &[u8], index: u64) -> Snp
    ensures { result ≡ as_snp (answer (snp_reading index) s.now) }
{
    snp::read_snp(s, index).into()
}

// Nine numbers for each SNP: the fields of its record in their order.
#[unsafe(no_mangle)]
pub extern "C" fn jt_gtc_snps(s: &[u8], first: u64, out: &mut [u64]) -> Listed
    ensures value { result ≡ as_listed (map_answer length (answer (snps_reading first (length out.old)) s.now)) }
    ensures out_after { out.new ≡ filled
        (map_answer (records 9 snp_numbers) (answer (snps_reading first (length out.old)) s.now))
        out.old }
{
    snps::read_snps(s, first, out).into()
}

impl From<Result<Transformed, Refusal>> for TransformationAnswer {
    ghost use Rattle.reading.specs.Answers.{answer_of};
    ghost use Rattle.capi.specs.Gtc.{as_transformation};

    ghost from_gives = { λ r a. a ≡ as_transformation (answer_of r) };

    fn from(found: Result<Transformed, Refusal>) -> TransformationAnswer {
        match found {
            Ok(transformed) => TransformationAnswer {
                refusal: 0,
                start: transformed.start as u64,
                value: transformed.value,
            },
            Err(refusal) => TransformationAnswer {
                refusal: refusal.into(),
                ..TransformationAnswer::default()
            },
        }
    }
}

// Transformation k, with where it starts.
#[unsafe(no_mangle)]
pub extern "C" fn jt_gtc_transformation(s: &[u8], k: u64) -> TransformationAnswer
    ensures { result ≡ as_transformation (answer (transformation_reading k) s.now) }
{
    transformation::read_transformation(s, k).into()
}

// Two intensities normalised, with the cosine and the sine of theta handed in.
#[unsafe(no_mangle)]
pub extern "C" fn jt_gtc_normalise(
    t: Transformation,
    x: u16,
    y: u16,
    cos_theta: f32,
    sin_theta: f32,
) -> Point
    ensures { result ≡ normalised t x y cos_theta sin_theta }
{
    normalise::normalise(t, x, y, cos_theta, sin_theta)
}
