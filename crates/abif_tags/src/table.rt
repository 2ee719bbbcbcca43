// The table of tags.
ghost use Rattle.std.specs.Prelude.{◌≡◌, ◌≤◌, ◌<◌};
ghost use Rattle.abif_tags.specs.Table.{row_in, row_at, stands_for, row_for, agrees};
ghost use Rattle.abif_tags.specs.Private.{presence_of, as_defined, name_reached, Parted, row_if};

use crate::profile::Profile;
use PrintedRow::{Many, One};
use Published::{Char4, User};
use abif::tag::Tag;

// A published type: a single value or text, by its code; an array, by the code of its elements; char[4]; or any user type.
#[derive(Clone, Copy)]
pub(crate) enum Published {
    Of(u16),
    Array(u16),
    Char4,
    User,
}

// Whether a profile has a row.
#[derive(Clone, Copy, PartialEq, Eq)]
pub(crate) enum Presence {
    Absent,
    Required,
    Optional,
}

const BYTE: Published = Published::Of(1);

const CHAR: Published = Published::Of(2);

const SHORT: Published = Published::Of(4);

const LONG: Published = Published::Of(5);

const FLOAT: Published = Published::Of(7);

const DATE: Published = Published::Of(10);

const TIME: Published = Published::Of(11);

const P_STRING: Published = Published::Of(18);

const C_STRING: Published = Published::Of(19);

const CHAR_ARRAY: Published = Published::Array(2);

const SHORT_ARRAY: Published = Published::Array(4);

const LONG_ARRAY: Published = Published::Array(5);

// A row of the published tables: the tag's name; its number, or that it is numbered 1-N; the published type; and for each profile a letter: R where the row is
// required, O where it is optional, N where it is not there. Letters, since the borrow checker covers no static of structs with an array of enums.
enum PrintedRow {
    One([u8; 4], i32, Published, [u8; 8]),
    Many([u8; 4], Published, [u8; 8]),
}

pub(crate) const ROW_COUNT: usize = 112;

// Tables 1 to 8 of document 000 as one table, in ascending order of tags.
static TABLE: [PrintedRow; ROW_COUNT] = [
    One(*b"ANME", 1, C_STRING, *b"NRNNNRNR"),
    One(*b"APFN", 2, P_STRING, *b"RNRNRNRN"),
    One(*b"APXV", 1, C_STRING, *b"RNRNRNRN"),
    One(*b"APrN", 1, C_STRING, *b"RNRNRNRN"),
    One(*b"APrV", 1, C_STRING, *b"RNRNRNRN"),
    One(*b"APrX", 1, CHAR_ARRAY, *b"RNRNRNRN"),
    One(*b"BufT", 1, SHORT_ARRAY, *b"NNNNRRRR"),
    One(*b"CMNT", 1, P_STRING, *b"ONONONON"),
    Many(*b"CMNT", P_STRING, *b"NONONONO"),
    One(*b"CTID", 1, C_STRING, *b"RRRRRRRR"),
    One(*b"CTNM", 1, C_STRING, *b"RRRRRRRR"),
    One(*b"CTOw", 1, C_STRING, *b"NNRRNNRR"),
    One(*b"CTTL", 1, P_STRING, *b"RRRRRRRR"),
    One(*b"CpEP", 1, BYTE, *b"RRRRRRRR"),
    One(*b"DATA", 1, SHORT_ARRAY, *b"RRRRRRRR"),
    One(*b"DATA", 2, SHORT_ARRAY, *b"RRRRRRRR"),
    One(*b"DATA", 3, SHORT_ARRAY, *b"RRRRRRRR"),
    One(*b"DATA", 4, SHORT_ARRAY, *b"RRRRRRRR"),
    One(*b"DATA", 5, SHORT_ARRAY, *b"RRRRRRRR"),
    One(*b"DATA", 6, SHORT_ARRAY, *b"RRRRRRRR"),
    One(*b"DATA", 7, SHORT_ARRAY, *b"RRRRRRRR"),
    One(*b"DATA", 8, SHORT_ARRAY, *b"RRRRRRRR"),
    One(*b"DATA", 105, SHORT_ARRAY, *b"OOOOOOOO"),
    One(*b"DCHT", 1, SHORT, *b"NNNRNNRR"),
    One(*b"DSam", 1, SHORT, *b"RRRRRRRR"),
    One(*b"DySN", 1, P_STRING, *b"RRRRRRRR"),
    One(*b"Dye#", 1, SHORT, *b"RRRRRRRR"),
    One(*b"DyeB", 1, CHAR, *b"NRNRNRNR"),
    One(*b"DyeB", 2, CHAR, *b"NRNRNRNR"),
    One(*b"DyeB", 3, CHAR, *b"NRNRNRNR"),
    One(*b"DyeB", 4, CHAR, *b"NRNRNRNR"),
    One(*b"DyeB", 5, CHAR, *b"NONONONO"),
    One(*b"DyeN", 1, P_STRING, *b"RRRRRRRR"),
    One(*b"DyeN", 2, P_STRING, *b"RRRRRRRR"),
    One(*b"DyeN", 3, P_STRING, *b"RRRRRRRR"),
    One(*b"DyeN", 4, P_STRING, *b"RRRRRRRR"),
    One(*b"DyeN", 5, P_STRING, *b"NONOORNO"),
    One(*b"DyeW", 1, SHORT, *b"RRRRRRRR"),
    One(*b"DyeW", 2, SHORT, *b"RRRRRRRR"),
    One(*b"DyeW", 3, SHORT, *b"RRRRRRRR"),
    One(*b"DyeW", 4, SHORT, *b"RRRRRRRR"),
    One(*b"DyeW", 5, SHORT, *b"NONOOONO"),
    One(*b"EPVt", 1, LONG, *b"RRRRRRRR"),
    One(*b"EVNT", 1, P_STRING, *b"RRRRRRRR"),
    One(*b"EVNT", 2, P_STRING, *b"RRRRRRRR"),
    One(*b"EVNT", 3, P_STRING, *b"RRRRRRRR"),
    One(*b"EVNT", 4, P_STRING, *b"RRRRRRRR"),
    One(*b"FWO_", 1, CHAR_ARRAY, *b"RNRNRNRN"),
    One(*b"GTyp", 1, P_STRING, *b"RRRRRRRR"),
    One(*b"HCFG", 1, C_STRING, *b"NNRRNNRR"),
    One(*b"HCFG", 2, C_STRING, *b"NNRRNNRR"),
    One(*b"HCFG", 3, C_STRING, *b"NNRRNNRR"),
    One(*b"HCFG", 4, C_STRING, *b"NNRRNNRR"),
    One(*b"InSc", 1, LONG, *b"RRRRRRRR"),
    One(*b"InVt", 1, LONG, *b"RRRRRRRR"),
    One(*b"LANE", 1, SHORT, *b"RRRRRRRR"),
    One(*b"LIMS", 1, P_STRING, *b"RRRRRRRR"),
    One(*b"LNTD", 1, SHORT, *b"RRRRRRRR"),
    One(*b"LsrP", 1, LONG, *b"RRRRRRRR"),
    One(*b"MCHN", 1, P_STRING, *b"RRRRRRRR"),
    One(*b"MODF", 1, P_STRING, *b"RRRRRRRR"),
    One(*b"MODL", 1, Char4, *b"RRRRRRRR"),
    One(*b"NAVG", 1, SHORT, *b"RRRRRRRR"),
    One(*b"NLNE", 1, SHORT, *b"RRRRRRRR"),
    One(*b"OfSc", 1, LONG_ARRAY, *b"OOOOOOOO"),
    Many(*b"OffS", User, *b"NNNONONO"),
    Many(*b"OvrV", LONG_ARRAY, *b"OOOOOOOO"),
    Many(*b"Ovrl", LONG_ARRAY, *b"OOOOOOOO"),
    One(*b"PANL", 1, C_STRING, *b"NRNRNRNR"),
    One(*b"PDMF", 1, P_STRING, *b"RNRNRNRN"),
    One(*b"PRJT", 1, C_STRING, *b"ONONONON"),
    One(*b"PROJ", 4, C_STRING, *b"ONONONON"),
    One(*b"PSZE", 1, LONG, *b"NNNRNNRR"),
    One(*b"PTYP", 1, C_STRING, *b"NNNRNNRR"),
    One(*b"PXLB", 1, LONG, *b"RRRRRRRR"),
    One(*b"RGCm", 1, C_STRING, *b"OOOOOOOO"),
    One(*b"RGNm", 1, C_STRING, *b"RRRRRRRR"),
    One(*b"RGOw", 1, C_STRING, *b"NNOONNOO"),
    One(*b"RMXV", 1, C_STRING, *b"RRRRRRRR"),
    One(*b"RMdN", 1, C_STRING, *b"RRRRRRRR"),
    One(*b"RMdV", 1, C_STRING, *b"RRRRRRRR"),
    One(*b"RMdX", 1, CHAR_ARRAY, *b"RRRRRRRR"),
    One(*b"RPrN", 1, C_STRING, *b"RRRRRRRR"),
    One(*b"RPrV", 1, C_STRING, *b"RRRRRRRR"),
    One(*b"RUND", 1, DATE, *b"RRRRRRRR"),
    One(*b"RUND", 2, DATE, *b"RRRRRRRR"),
    One(*b"RUND", 3, DATE, *b"RRRRRRRR"),
    One(*b"RUND", 4, DATE, *b"RRRRRRRR"),
    One(*b"RUNT", 1, TIME, *b"RRRRRRRR"),
    One(*b"RUNT", 2, TIME, *b"RRRRRRRR"),
    One(*b"RUNT", 3, TIME, *b"RRRRRRRR"),
    One(*b"RUNT", 4, TIME, *b"RRRRRRRR"),
    One(*b"Rate", 1, User, *b"RRRRRRRR"),
    One(*b"RunN", 1, C_STRING, *b"RRRRRRRR"),
    One(*b"SCAN", 1, LONG, *b"RRRRRRRR"),
    One(*b"SMED", 1, P_STRING, *b"RRRRRRRR"),
    One(*b"SMLt", 1, P_STRING, *b"RRRRRRRR"),
    One(*b"SMPL", 1, P_STRING, *b"RNRNRNRN"),
    One(*b"SPEC", 1, C_STRING, *b"ONONONON"),
    One(*b"STYP", 1, C_STRING, *b"NRNNNRNR"),
    One(*b"SVER", 1, P_STRING, *b"RRRRRRRR"),
    One(*b"SVER", 3, P_STRING, *b"RRRRRRRR"),
    One(*b"SVER", 4, P_STRING, *b"NRNRNRNR"),
    One(*b"Satd", 1, LONG_ARRAY, *b"OOOOOOOO"),
    One(*b"Scal", 1, FLOAT, *b"RRRRRRRR"),
    One(*b"Scan", 1, SHORT, *b"RRRRRRRR"),
    One(*b"SnpS", 1, P_STRING, *b"NONONONO"),
    One(*b"SpNm", 1, P_STRING, *b"NRNRNRNR"),
    One(*b"StdF", 1, P_STRING, *b"NRNNNRNR"),
    One(*b"TUBE", 1, P_STRING, *b"RRRRRRRR"),
    One(*b"Tmpr", 1, LONG, *b"RRRRRRRR"),
    One(*b"User", 1, P_STRING, *b"OOOOOOOO"),
];

// A row of the table as it stands in a profile, with the fields of the definition's: its first tag, whether it is numbered 1-N, its type, and whether it
// is there.
#[derive(Clone, Copy)]
pub(crate) struct Row {
    pub first: Tag,
    pub many: bool,
    pub published: Published,
    pub presence: Presence,
}

// The presence that a letter of the table stands for.
fn presence_of(letter: u8) -> Presence
    ensures { result ≡ presence_of letter }
{
    match letter {
        b'R' => Presence::Required,
        b'O' => Presence::Optional,
        _ => Presence::Absent,
    }
}

impl PrintedRow {
    // The number of the name's four bytes.
    fn name(&self) -> u32
        ensures { result ≡ (as_defined self.now).first.name }
    {
        match self {
            One(name, ..) | Many(name, ..) => u32::from_be_bytes(*name),
        }
    }

    // The row in a profile.
    #[tactic(auto, unfolding(crate::specs::Table::row_in))]
    fn in_profile(&self, profile: Profile) -> Row
        ensures { result ≡ row_in profile.number (as_defined self.now) }
    {
        let (number, many, published, letters) = match self {
            One(_, number, published, letters) => (*number, false, *published, letters),
            Many(_, published, letters) => (1, true, *published, letters),
        };
        let first = Tag {
            name: self.name(),
            number,
        };
        let presence = presence_of(letters[profile.number as usize - 1]);
        Row {
            first,
            many,
            published,
            presence,
        }
    }
}

// Row k of the table, counted from 0, in a profile.
pub(crate) fn row_at(k: usize, profile: Profile) -> Row
    requires { k < ROW_COUNT }
    ensures { result ≡ row_at profile.number k }
{
    TABLE[k].in_profile(profile)
}

// The first row whose name is not below this one, or the number past the last.
fn first_named(name: u32) -> usize
    ensures { Parted (name_reached name) ROW_COUNT result }
{
    TABLE.partition_point(|row| row.name() < name)
}

impl Row {
    // The row stands for a tag; one numbered 1-N stands for every number from 1.
    #[tactic(auto, unfolding(crate::specs::Table::stands_for))]
    fn stands_for(&self, tag: Tag) -> bool
        ensures { result ≡ stands_for self.now tag }
    {
        if self.presence == Presence::Absent {
            return false;
        }
        if self.many {
            return self.first.name == tag.name && 1 <= tag.number;
        }
        self.first == tag
    }
}

// The row of a profile that stands for a tag.
pub(crate) fn row_for(profile: Profile, tag: Tag) -> Option<Row>
    ensures { result ≡ row_if profile.number (row_for profile.number tag) }
{
    for k in first_named(tag.name)..ROW_COUNT {
        let row = row_at(k, profile);
        if row.first.name != tag.name {
            return None;
        }
        if row.stands_for(tag) {
            return Some(row);
        }
    }
    None
}

impl Published {
    // An item of this type and count is of the published type.
    #[tactic(auto, unfolding(crate::specs::Table::agrees))]
    pub(crate) fn admits(self, code: u16, count: u32) -> bool
        ensures { result ≡ agrees self code count }
    {
        match self {
            Published::Of(k) => code == k && (matches!(k, 18 | 19) || count == 1),
            Published::Array(k) => code == k,
            Published::Char4 => code == 2 && count == 4,
            Published::User => matches!(code, 1024..=32767),
        }
    }
}
