// The answers that C programs get. `refusal` is 0 for an answer, else the refusal's number, and then every other field is 0, but for a verdict's entry.
// Each struct has a `From` of its own, since the C interface gives each its own fields: only the arm of a refusal is alike.
ghost use Rattle.std.specs.Prelude.{◌≡◌};

use gtc_records::transformation::Transformation;
use reading::item::ItemData;
use reading::part::Span;
use reading::refusal::Refusal;
use reading::verdict::{Refused, Whole};

// What judging finds; `unjudged` counts a GTC file's entries that are not judged, and `tail` the bytes after the extent.
#[repr(C)]
#[derive(Clone, Copy, Default)]
pub struct Verdict {
    pub refusal: u64,
    pub entry: u64,
    pub extent: u64,
    pub unjudged: u64,
    pub tail: u64,
}

// An ABIF file's directory.
#[repr(C)]
#[derive(Clone, Copy, Default)]
pub struct Opened {
    pub refusal: u64,
    pub place: u64,
    pub count: u64,
}

// An item: its type's code, which C calls `type` (in a GTC file its id), its number of elements, and where its data stand.
#[repr(C)]
#[derive(Clone, Copy, Default)]
pub struct Item {
    pub refusal: u64,
    pub code: u64,
    pub count: u64,
    pub start: u64,
    pub length: u64,
}

// An element of an ABIF item; `kind` tells which fields hold it.
#[repr(C)]
#[derive(Clone, Copy, Default)]
pub struct Element {
    pub refusal: u64,
    pub kind: u64,
    pub whole: i64,
    pub single: f32,
    pub single_bits: u32,
    pub real: f64,
    pub real_bits: u64,
    pub a: i32,
    pub b: i32,
    pub c: i32,
    pub d: i32,
}

// Where a part of the caller's bytes stands.
#[repr(C)]
#[derive(Clone, Copy, Default)]
pub struct Part {
    pub refusal: u64,
    pub start: u64,
    pub length: u64,
}

// How many of something were put into the lent output.
#[repr(C)]
#[derive(Clone, Copy, Default)]
pub struct Listed {
    pub refusal: u64,
    pub count: u64,
}

// The common header of an SFF file; the flow letters and the key are told by where they start.
#[repr(C)]
#[derive(Clone, Copy, Default)]
pub struct SffHeader {
    pub refusal: u64,
    pub index_offset: u64,
    pub index_length: u64,
    pub reads: u64,
    pub header_length: u64,
    pub key_length: u64,
    pub flows: u64,
    pub flow_letters_start: u64,
    pub key_start: u64,
}

// A read of an SFF file; base positions count from one.
#[repr(C)]
#[derive(Clone, Copy, Default)]
pub struct SffRead {
    pub refusal: u64,
    pub start: u64,
    pub name_start: u64,
    pub name_length: u64,
    pub bases: u64,
    pub quality_left: u64,
    pub quality_right: u64,
    pub adapter_left: u64,
    pub adapter_right: u64,
    pub flows_start: u64,
    pub steps_start: u64,
    pub letters_start: u64,
    pub qualities_start: u64,
    pub first: u64,
    pub last: u64,
    pub insert_start: u64,
    pub insert_length: u64,
}

// The position of a flow, from one.
#[repr(C)]
#[derive(Clone, Copy, Default)]
pub struct Flow {
    pub refusal: u64,
    pub flow: u64,
}

// The length of a file that was written.
#[repr(C)]
#[derive(Clone, Copy, Default)]
pub struct Written {
    pub refusal: u64,
    pub length: u64,
}

// The state of an SFF file that is being written: the stated number of reads, how many of them are written, how many flows each has, and the
// place behind what is written.
#[repr(C)]
#[derive(Clone, Copy, Default)]
pub struct SffWriter {
    pub refusal: u64,
    pub reads: u64,
    pub written: u64,
    pub flows: u64,
    pub at: u64,
}

// A SNP's record: the genotype's code, its number of letters and of those that are B, the letters of the base call, the score's bits, and the
// intensities.
#[repr(C)]
#[derive(Clone, Copy, Default)]
pub struct Snp {
    pub refusal: u64,
    pub code: u64,
    pub ploidy: u64,
    pub b_alleles: u64,
    pub call_1: u64,
    pub call_2: u64,
    pub score_bits: u64,
    pub x: u64,
    pub y: u64,
}

// A transformation of a GTC file, with where its 52 bytes stand, so that the bits of a NaN can be had; every field of it is 0 where it is refused.
#[repr(C)]
#[derive(Clone, Copy, Default)]
pub struct TransformationAnswer {
    pub refusal: u64,
    pub start: u64,
    pub value: Transformation,
}

// The verdict on a file of a format that has no unjudged entries.
impl From<Result<Whole, Refused>> for Verdict {
    ghost use Rattle.reading.specs.Answers.{answer_of_verdict};
    ghost use Rattle.capi.specs.Answers.{as_verdict};

    ghost from_gives = { λ r a. a ≡ as_verdict (answer_of_verdict r) };

    fn from(verdict: Result<Whole, Refused>) -> Verdict {
        match verdict {
            Ok(whole) => Verdict {
                extent: whole.extent as u64,
                tail: whole.tail as u64,
                ..Verdict::default()
            },
            Err(refused) => Verdict {
                refusal: refused.refusal.into(),
                entry: refused.entry as u64,
                ..Verdict::default()
            },
        }
    }
}

// The item that lookup finds.
impl From<Result<ItemData, Refusal>> for Item {
    ghost use Rattle.reading.specs.Answers.{answer_of};
    ghost use Rattle.capi.specs.Answers.{as_item};

    ghost from_gives = { λ r a. a ≡ as_item (answer_of r) };

    fn from(found: Result<ItemData, Refusal>) -> Item {
        match found {
            Ok(data) => Item {
                refusal: 0,
                code: data.code as u64,
                count: data.count as u64,
                start: data.start as u64,
                length: data.size as u64,
            },
            Err(refusal) => Item {
                refusal: refusal.into(),
                ..Item::default()
            },
        }
    }
}

// Where a part of the caller's bytes stands.
impl From<Result<Span, Refusal>> for Part {
    ghost use Rattle.reading.specs.Answers.{answer_of};
    ghost use Rattle.capi.specs.Answers.{as_part};

    ghost from_gives = { λ r a. a ≡ as_part (answer_of r) };

    fn from(found: Result<Span, Refusal>) -> Part {
        match found {
            Ok(span) => Part {
                refusal: 0,
                start: span.start as u64,
                length: span.size as u64,
            },
            Err(refusal) => Part {
                refusal: refusal.into(),
                ..Part::default()
            },
        }
    }
}

// How many items a call has put into a lent list.
impl From<Result<u64, Refusal>> for Listed {
    ghost use Rattle.reading.specs.Answers.{answer_of};
    ghost use Rattle.capi.specs.Answers.{as_listed};

    ghost from_gives = { λ r a. a ≡ as_listed (answer_of r) };

    fn from(listed: Result<u64, Refusal>) -> Listed {
        match listed {
            Ok(count) => Listed { refusal: 0, count },
            Err(refusal) => Listed {
                refusal: refusal.into(),
                ..Listed::default()
            },
        }
    }
}

// The length of a file that a call has written.
impl From<Result<usize, Refusal>> for Written {
    ghost use Rattle.reading.specs.Answers.{answer_of};
    ghost use Rattle.capi.specs.Answers.{as_written};

    ghost from_gives = { λ r a. a ≡ as_written (answer_of r) };

    fn from(written: Result<usize, Refusal>) -> Written {
        match written {
            Ok(length) => Written {
                refusal: 0,
                length: length as u64,
            },
            Err(refusal) => Written {
                refusal: refusal.into(),
                ..Written::default()
            },
        }
    }
}
