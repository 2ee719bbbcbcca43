// The flow steps of an SFF read.
ghost use Rattle.std.specs.Prelude.{◌≡◌, List, ℕ, ◌+◌, ◌*◌, ◌≤◌, ◌<◌, min, leb, length};
ghost use Rattle.reading.specs.Choice.{pick};
ghost use Rattle.reading.specs.Check.{answer, ok, refused};
ghost use Rattle.contents.specs.Steps.{steps_check, step_sum};

// The sum of a few steps, in 16 bits: the machine adds more of them at once than in 64.
fn chunk_sum(steps: &[u8]) -> u16
    requires { length steps.now ≤ 256 }
    ensures { result ≡ step_sum steps.now 0 (length steps.now) }
{
    let mut sum = 0;
    for step in steps {
        sum += u16::from(*step);
    }
    sum
}

// The sum of the steps, or the number past the most where it is past that: from there on nothing is added.
fn sum_up_to(most: u64, steps: &[u8]) -> u64
    requires { most < 0x8000000000000000 }
    ensures { (result ≡ min (step_sum steps.now 0 (length steps.now)) (most + 1))
        × (result ≤ 65536 * length steps.now) }
{
    let mut sum = 0;
    for chunk in steps.chunks(256) {
        sum += u64::from(chunk_sum(chunk));
        if most < sum {
            return most + 1;
        }
    }
    sum
}

// The sum of the steps, at most 2^48. That of fewer than 2^32 steps is less.
pub fn sum_of(steps: &[u8]) -> u64
    ensures { (result ≡ min (step_sum steps.now 0 (length steps.now)) 0x1000000000000)
        × (result ≤ 65536 * length steps.now) }
{
    sum_up_to(0xffffffffffff, steps)
}

// The first step is at least 1, and no running sum passes the flows: sums never fall, so the last one tells.
pub fn steps_hold(flows: u16, steps: &[u8]) -> bool
    ensures { (l : List ℕ) → pick result (ok tt) (refused 11 0) ≡ answer (steps_check flows steps.now 0 (length steps.now)) l }
{
    let most = u64::from(flows);
    match steps.first() {
        Some(first) => 1 <= *first && sum_up_to(most, steps) <= most,
        None => true,
    }
}
