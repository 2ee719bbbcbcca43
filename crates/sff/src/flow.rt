// The flow of a base.
ghost use Rattle.std.specs.Prelude.{◌≡◌, ◌+◌, ◌≤◌, length};
ghost use Rattle.reading.specs.Answers.{answer_of};
ghost use Rattle.reading.specs.Check.{answer};
ghost use Rattle.sff.specs.Flow.{flow_of, flow_reading};

use crate::lookup::read_number;
use contents::steps::sum_of;
use reading::refusal::Refusal;
use sff_fields::parts::Read;
use sff_fields::position::{BasePosition, FlowPosition};

fn flow_in(s: &[u8], r: Read, base: BasePosition) -> Result<FlowPosition, Refusal>
    requires { r.steps_start + r.bases ≤ length s.now }
    ensures { answer_of result ≡ answer (flow_of r base) s.now }
{
    let i = base.0;
    if i < 1 || (r.bases as u64) < i {
        return Err(Refusal::NoSuchElement);
    }
    let start = r.steps_start;
    let end = start + i as usize;
    Ok(FlowPosition(sum_of(&s[start..end])))
}

// The flow of base `base` of read k.
pub fn flow_of_base(s: &[u8], k: u64, base: BasePosition) -> Result<FlowPosition, Refusal>
    ensures { answer_of result ≡ answer (flow_reading k base) s.now }
{
    let r = read_number(s, k)?;
    flow_in(s, r, base)
}
