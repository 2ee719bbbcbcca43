// The fields of a read's header, their check, and the length of a read's data.
ghost use Rattle.std.specs.Prelude.{◌≡◌, List, ℕ, ◌<◌};
ghost use Rattle.reading.specs.Check.{run};
ghost use Rattle.reading.specs.Answers.{outcome_of_tested};
ghost use Rattle.sff_fields.specs.Read.{read_header_length, read_length_check, data_length};

use crate::padding::round_up;
use reading::check::{Field, Rule, Test, failed, unsigned_field};
use reading::refusal::Refusal;

// How many bytes the fields of a read's header take.
pub const READ_FRONT_LENGTH: usize = 16;

// The fields of a read's header, and where the read starts.
#[derive(Clone, Copy)]
pub struct ReadHeader {
    pub start: usize,
    pub header_length: u16,
    pub name_length: u16,
    pub bases: u32,
    pub quality_left: u16,
    pub quality_right: u16,
    pub adapter_left: u16,
    pub adapter_right: u16,
}

fn read_header_length_field(start: usize, stated: u16) -> Field
    ensures { result ≡ read_header_length start stated }
{
    unsigned_field(2, start, stated as u64)
}

// The check of the header length that a read states which starts here and has a name of so many bytes.
#[tactic(auto, using(reading::proofs::Tests::tests), unfolding(crate::specs::Read::read_length_check, reading::specs::Check::run))]
pub fn read_length_tests(start: usize, stated: u16, name: u16) -> Result<(), Test>
    ensures { (l : List ℕ) → outcome_of_tested result ≡ run (read_length_check start stated name) l }
{
    let expected = round_up(READ_FRONT_LENGTH + name as usize);
    if (stated as usize) != expected {
        let field = read_header_length_field(start, stated);
        return failed(field, Rule::EqualTo(expected as u64), Refusal::BadSize);
    }
    Ok(())
}

// How many bytes the data of a read of so many bases take, in a file of so many flows.
pub fn data_length(flows: u16, bases: u32) -> usize
    ensures { (result ≡ data_length flows bases) × (result < 0x400000000) }
{
    round_up(2 * flows as usize + 3 * bases as usize)
}
