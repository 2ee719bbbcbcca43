// A read, or its refusal, as a record of numbers.
ghost use Rattle.std.specs.Prelude.{◌≡◌, ℕ, MatchResult};
ghost use Rattle.reading.specs.Check.{ok, refused};
ghost use Rattle.reading.specs.Bulk.{record_of, placed};
ghost use Rattle.sff_fields.specs.Parts.{record_width, read_numbers};

use crate::parts::Read;
use reading::bulk::put;

// How many numbers a read's record has.
pub const RECORD_WIDTH: usize = 17;

// The record: no refusal, and the read's numbers; or the refusal, and zeros.
fn record_of<R: Into<u64>>(read: Result<Read, R>) -> [u64; RECORD_WIDTH]
    ensures { MatchResult read (λ r. result ≡ record_of record_width read_numbers (ok r))
        (λ e. (n : ℕ) × R.converts e n × (result ≡ record_of record_width read_numbers (refused n 0))) }
{
    match read {
        Ok(r) => [
            0,
            r.start as u64,
            r.name_start as u64,
            r.name_length as u64,
            r.bases as u64,
            r.quality_left as u64,
            r.quality_right as u64,
            r.adapter_left as u64,
            r.adapter_right as u64,
            r.flows_start as u64,
            r.steps_start as u64,
            r.letters_start as u64,
            r.qualities_start as u64,
            r.first.0,
            r.last.0,
            r.insert_start as u64,
            r.insert_length as u64,
        ],
        Err(refusal) => {
            let mut record = [0; RECORD_WIDTH];
            record[0] = refusal.into();
            record
        }
    }
}

// The record from place p of the list on, where there is room for it; of a refused read its first number is what the refusal converts to.
pub fn put_record<R: Into<u64>>(out: &mut [u64], p: usize, read: Result<Read, R>)
    ensures { MatchResult read (λ r. out.new ≡ placed out.old p (record_of record_width read_numbers (ok r)))
        (λ e. (n : ℕ) × R.converts e n × (out.new ≡ placed out.old p (record_of record_width read_numbers (refused n 0)))) }
{
    put(out, p, record_of(read));
}
