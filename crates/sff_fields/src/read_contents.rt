// The checks of a read's contents.
ghost use Rattle.std.specs.Prelude.{◌≡◌, List, ℕ};
ghost use Rattle.reading.specs.Choice.{pick};
ghost use Rattle.reading.specs.Check.{answer, ok, refused};
ghost use Rattle.sff_fields.specs.Contents.{contents_check};

use crate::clips::clips_hold;
use crate::read::ReadHeader;
use contents::steps::steps_hold;

// No clip is above the bases, and the flow steps keep to the flows. What it is lent are a read's flow steps, no file.
pub fn contents_hold(d: ReadHeader, flows: u16, steps: &[u8]) -> bool
    ensures { (l : List ℕ) → pick result (ok tt) (refused 11 0) ≡ answer (contents_check d flows steps.now) l }
{
    clips_hold(d) && steps_hold(flows, steps)
}
