// The normalization transformations.
ghost use Rattle.std.specs.Prelude.{◌≡◌, ◌+◌, ◌≤◌, ◌<◌, length};
ghost use Rattle.reading.specs.Check.{answer, map_answer};
ghost use Rattle.reading.specs.Answers.{answer_of};
ghost use Rattle.reading.specs.Part.{shown, handed_back};
ghost use Rattle.gtc.specs.Item.{item_end};
ghost use Rattle.gtc_records.specs.Transformation.{transformation_size, float_at, transformation_at, transformation_of};
ghost use Rattle.gtc_records.specs.Transformation.{transformation_reading, transformation_span};

use gtc::item::NORMALIZATION_TRANSFORMATIONS_ID;
use gtc::lookup::lookup;
use reading::float::single;
use reading::item::ItemData;
use reading::number::le32;
use reading::part::part;
use reading::refusal::Refusal;

// A transformation is a version and twelve floats.
const TRANSFORMATION_SIZE: usize = 52;

// A transformation, as the 52 bytes of the file hold it.
#[repr(C)]
#[derive(Clone, Copy, Default)]
pub struct Transformation {
    pub version: i32,
    pub offset_x: f32,
    pub offset_y: f32,
    pub scale_x: f32,
    pub scale_y: f32,
    pub shear: f32,
    pub theta: f32,
    pub reserved_1: f32,
    pub reserved_2: f32,
    pub reserved_3: f32,
    pub reserved_4: f32,
    pub reserved_5: f32,
    pub reserved_6: f32,
}

// A transformation, and where it starts.
#[derive(Clone, Copy)]
pub struct Transformed {
    pub start: usize,
    pub value: Transformation,
}

fn float_at(l: &[u8], p: usize) -> f32
    ensures { result ≡ float_at l.now p }
{
    single(le32(l, p))
}

// The transformation at place p.
fn transformation_at(l: &[u8], p: usize) -> Transformation
    requires { p + transformation_size ≤ 0xffffffffffffffff }
    ensures { result ≡ transformation_at l.now p }
{
    Transformation {
        version: le32(l, p).cast_signed(),
        offset_x: float_at(l, p + 4),
        offset_y: float_at(l, p + 8),
        scale_x: float_at(l, p + 12),
        scale_y: float_at(l, p + 16),
        shear: float_at(l, p + 20),
        theta: float_at(l, p + 24),
        reserved_1: float_at(l, p + 28),
        reserved_2: float_at(l, p + 32),
        reserved_3: float_at(l, p + 36),
        reserved_4: float_at(l, p + 40),
        reserved_5: float_at(l, p + 44),
        reserved_6: float_at(l, p + 48),
    }
}

// Number k of the array.
fn transformation_of(s: &[u8], q: ItemData, k: u64) -> Result<Transformed, Refusal>
    requires { item_end q ≤ length s.now }
    ensures { answer_of result ≡ answer (transformation_of q k) s.now }
{
    if k < 1 || (q.count as u64) < k {
        return Err(Refusal::NoSuchElement);
    }
    let end = q.start + q.size;
    let start = q.start + TRANSFORMATION_SIZE * (k - 1) as usize;
    Ok(Transformed {
        start,
        value: transformation_at(&s[..end], start),
    })
}

// Transformation number k, from one.
pub fn read_transformation(s: &[u8], k: u64) -> Result<Transformed, Refusal>
    ensures { answer_of result ≡ answer (transformation_reading k) s.now }
{
    let q = lookup(s, NORMALIZATION_TRANSFORMATIONS_ID)?;
    transformation_of(s, q, k)
}

// The 52 bytes of a transformation, as a part of the caller's bytes; the empty part at their start where it is refused.
pub fn transformation_part(s: &[u8], k: u64) -> &[u8]
    ensures { shown result ≡ handed_back (shown s.entry) (map_answer transformation_span (answer (transformation_reading k) s.now)) }
{
    match read_transformation(s, k) {
        Ok(t) => part(s, t.start, TRANSFORMATION_SIZE),
        Err(_) => part(s, 0, 0),
    }
}
