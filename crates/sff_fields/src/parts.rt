// All that is answered of a read, and where its parts stand.
ghost use Rattle.std.specs.Prelude.{◌≡◌};
ghost use Rattle.sff_fields.specs.Parts.{span_of};

use crate::position::BasePosition;
use reading::part::Span;

// All that is answered of a read: its header's fields, where its parts start, and the first and last base of its insert.
#[derive(Clone, Copy)]
pub struct Read {
    pub start: usize,
    pub name_start: usize,
    pub name_length: u16,
    pub flows: u16,
    pub bases: u32,
    pub quality_left: u16,
    pub quality_right: u16,
    pub adapter_left: u16,
    pub adapter_right: u16,
    pub flows_start: usize,
    pub steps_start: usize,
    pub letters_start: usize,
    pub qualities_start: usize,
    pub first: BasePosition,
    pub last: BasePosition,
    pub insert_start: usize,
    pub insert_length: usize,
}

// The parts of a read that are handed back.
#[derive(Clone, Copy)]
pub enum ReadPart {
    Name,
    Flows,
    Steps,
    Letters,
    Qualities,
    Insert,
}

// Where this part of the read stands.
pub fn span_of(which: ReadPart, r: Read) -> Span
    ensures { result ≡ span_of which r }
{
    let (start, size) = match which {
        ReadPart::Name => (r.name_start, r.name_length as usize),
        ReadPart::Flows => (r.flows_start, 2 * r.flows as usize),
        ReadPart::Steps => (r.steps_start, r.bases as usize),
        ReadPart::Letters => (r.letters_start, r.bases as usize),
        ReadPart::Qualities => (r.qualities_start, r.bases as usize),
        ReadPart::Insert => (r.insert_start, r.insert_length),
    };
    Span { start, size }
}
