// The record of one SNP.
ghost use Rattle.std.specs.Prelude.{◌≡◌, List, ℕ, ◌+◌, ◌≤◌, length};
ghost use Rattle.reading.specs.Check.{answer};
ghost use Rattle.reading.specs.Answers.{answer_of};
ghost use Rattle.reading.specs.Part.{bytes_at};
ghost use Rattle.reading.specs.Item.{data_span};
ghost use Rattle.gtc.specs.Item.{item_end};
ghost use Rattle.gtc_records.specs.Snp.{snp_arrays, is_base_call, snp_of, snp_reading};
ghost use Rattle.gtc_records.specs.Private.{ArraysPresent, ArraysSized};

use crate::genotype::{Genotype, genotype_of};
use gtc::item::{BASE_CALLS_ID, GENOTYPE_SCORES_ID, GENOTYPES_ID, RAW_X_ID, RAW_Y_ID};
use gtc::lookup::lookup;
use reading::float::single;
use reading::item::ItemData;
use reading::number::{le16, le32};
use reading::refusal::Refusal;

// A SNP's record: the genotype's code and meaning, the two letters of the base call, the score with its bits, and the intensities.
#[derive(Clone, Copy)]
pub struct Snp {
    pub code: u8,
    pub genotype: Genotype,
    pub call_1: u8,
    pub call_2: u8,
    pub score: f32,
    pub score_bits: u32,
    pub x: u16,
    pub y: u16,
}

// The five arrays with one element for each SNP. That they are there is a fact about them and the file, and the tree of checks makes this struct of
// them alone, so it stands in the contracts and not in the struct.
#[derive(Clone, Copy)]
pub(crate) struct SnpArrays {
    pub genotypes: ItemData,
    pub base_calls: ItemData,
    pub scores: ItemData,
    pub x: ItemData,
    pub y: ItemData,
}

// The elements of the five arrays.
#[derive(Clone, Copy)]
pub(crate) struct SnpElements<'a> {
    pub genotypes: &'a [u8],
    pub base_calls: &'a [u8],
    pub scores: &'a [u8],
    pub x: &'a [u8],
    pub y: &'a [u8],
}

// The five arrays, looked up in the order genotype, base call, score, X, Y.
pub(crate) fn snp_arrays(s: &[u8]) -> Result<SnpArrays, Refusal>
    ensures { answer_of result ≡ answer snp_arrays s.now }
{
    let genotypes = lookup(s, GENOTYPES_ID)?;
    let base_calls = lookup(s, BASE_CALLS_ID)?;
    let scores = lookup(s, GENOTYPE_SCORES_ID)?;
    let x = lookup(s, RAW_X_ID)?;
    let y = lookup(s, RAW_Y_ID)?;
    Ok(SnpArrays {
        genotypes,
        base_calls,
        scores,
        x,
        y,
    })
}

// A letter of a base call: A, C, G, T or -.
#[tactic(auto, using(std::proofs::lemmas::Bool::Decides::nat_tests), unfolding(crate::specs::Snp::is_base_call))]
fn is_base_call(v: u8) -> bool
    ensures { result ≡ is_base_call v }
{
    matches!(v, b'A' | b'C' | b'G' | b'T' | b'-')
}

// An array's elements.
fn elements(s: &[u8], q: ItemData) -> &[u8]
    requires { item_end q ≤ length s.now }
    ensures { result.now ≡ bytes_at s.now (data_span q) }
{
    &s[q.start..q.start + q.size]
}

impl SnpArrays {
    ghost use Rattle.gtc_records.specs.Private.{elements_in, bytes_in};

    // The elements of the arrays, which are there.
    pub(crate) fn elements(self, s: &[u8]) -> SnpElements<'_>
        requires { ArraysPresent s.now self }
        ensures { elements_in result ≡ bytes_in s.now self }
    {
        SnpElements {
            genotypes: elements(s, self.genotypes),
            base_calls: elements(s, self.base_calls),
            scores: elements(s, self.scores),
            x: elements(s, self.x),
            y: elements(s, self.y),
        }
    }
}

impl SnpElements<'_> {
    ghost use Rattle.gtc_records.specs.Snp.{snp_at};
    ghost use Rattle.gtc_records.specs.Private.{elements_in, ElementsPresent};

    // The record of SNP j, counted from 0. A part of a fixed length is read with no test of its length, so a loop over this is fast.
    pub(crate) fn snp(self, j: usize) -> Result<Snp, Refusal>
        requires { ElementsPresent (elements_in self) (j + 1) }
        ensures { (l : List ℕ) → answer_of result ≡ answer (snp_at (elements_in self.entry) j) l }
    {
        let code = self.genotypes[j];
        let genotype = genotype_of(code)?;
        let call_1 = self.base_calls[2 * j];
        let call_2 = self.base_calls[2 * j + 1];
        if !is_base_call(call_1) || !is_base_call(call_2) {
            return Err(Refusal::Forbidden);
        }
        let score_bits = le32(&self.scores[4 * j..4 * j + 4], 0);
        Ok(Snp {
            code,
            genotype,
            call_1,
            call_2,
            score: single(score_bits),
            score_bits,
            x: le16(&self.x[2 * j..2 * j + 2], 0),
            y: le16(&self.y[2 * j..2 * j + 2], 0),
        })
    }
}

fn snp_of(s: &[u8], a: SnpArrays, index: u64) -> Result<Snp, Refusal>
    requires { ArraysPresent s.now a × ArraysSized a }
    ensures { answer_of result ≡ answer (snp_of a index) s.now }
{
    if index < 1 || (a.genotypes.count as u64) < index {
        return Err(Refusal::NoSuchElement);
    }
    a.elements(s).snp((index - 1) as usize)
}

// The record of SNP number `index`, from one.
pub fn read_snp(s: &[u8], index: u64) -> Result<Snp, Refusal>
    ensures { answer_of result ≡ answer (snp_reading index) s.now }
{
    let a = snp_arrays(s)?;
    snp_of(s, a, index)
}
