// GTC: SNP records, transformations and normalising, of a file in lent bytes.
#![tactic(auto)]

pub mod genotype;
pub mod normalise;
pub mod snp;
pub mod snps;
pub mod transformation;
