// The common header.
ghost use Rattle.std.specs.Prelude.{◌≡◌, ◌++◌, ◌+◌, ◌≤◌, length, replicate};
ghost use Rattle.sff_fields.specs.Header.{header_length_place, front_length};
ghost use Rattle.writing.specs.Put.{put};
ghost use Rattle.sff_write.specs.Header.{front_bytes, length_bytes, header_size, header_bytes};

use sff_fields::header::{
    CODE_PLACE, FLOWS_PLACE, FORMAT_CODE, FRONT_LENGTH, HEADER_LENGTH_PLACE, INDEX_OFFSET_PLACE,
    KEY_LENGTH_PLACE, MARK_PLACE, READS_PLACE, SFF_MARK, SFF_VERSION, VERSION_PLACE,
};
use sff_fields::padding::padding_behind;
use writing::bytes::{copy, put_zeros};

// The mark, the version, no index, and the number of reads.
fn put_front(out: &mut [u8], reads: u32)
    requires { front_length ≤ length out.old }
    ensures { out.new ≡ put out.old 0 (front_bytes reads) }
{
    copy(out, MARK_PLACE, &SFF_MARK.to_be_bytes());
    copy(out, VERSION_PLACE, &SFF_VERSION.to_be_bytes());
    put_zeros(out, INDEX_OFFSET_PLACE, 12);
    copy(out, READS_PLACE, &reads.to_be_bytes());
}

// The lengths of the header, the key and the flows, and the format code.
fn put_lengths(out: &mut [u8], size: u16, key: u16, flows: u16)
    requires { front_length ≤ length out.old }
    ensures { out.new ≡ put out.old header_length_place (length_bytes size key flows) }
{
    copy(out, HEADER_LENGTH_PLACE, &size.to_be_bytes());
    copy(out, KEY_LENGTH_PLACE, &key.to_be_bytes());
    copy(out, FLOWS_PLACE, &flows.to_be_bytes());
    copy(out, CODE_PLACE, &FORMAT_CODE.to_be_bytes());
}

fn put_letters(out: &mut [u8], letters: &[u8], key: &[u8], zeros: usize)
    requires { front_length + length letters.now + length key.now + zeros ≤ length out.old }
    ensures { out.new ≡ put out.old front_length (letters.now ++ (key.now ++ replicate zeros 0)) }
{
    copy(out, FRONT_LENGTH, letters);
    let p = FRONT_LENGTH + letters.len();
    copy(out, p, key);
    let q = p + key.len();
    put_zeros(out, q, zeros);
}

// Writes the header, of which all is known to fit.
pub(crate) fn put_header(out: &mut [u8], reads: u32, letters: &[u8], key: &[u8])
    requires { (header_size letters.now key.now ≤ 65535) × (header_size letters.now key.now ≤ length out.old) }
    ensures { out.new ≡ put out.old 0 (header_bytes reads letters.now key.now) }
{
    let n = letters.len();
    let k = key.len();
    let zeros = padding_behind(FRONT_LENGTH + n + k);
    let size = FRONT_LENGTH + n + k + zeros;
    put_front(out, reads);
    put_lengths(out, size as u16, k as u16, n as u16);
    put_letters(out, letters, key, zeros);
}
