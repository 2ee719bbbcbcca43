// The profiles.
ghost use Rattle.std.specs.Prelude.{◌≤◌};

use reading::refusal::Refusal;

// A profile: one of Tables 1 to 8, by its number.
#[derive(Clone, Copy)]
pub(crate) struct Profile {
    pub number: u8,
    ghost from_one: { 1 ≤ number },
    ghost to_eight: { number ≤ 8 },
}

impl TryFrom<u64> for Profile {
    ghost use Rattle.std.specs.Prelude.{◌≡◌, false, MatchResult};
    ghost use Rattle.reading.specs.Choice.{is_number_of};
    ghost use Rattle.reading.specs.declared.refusal.Refusal.TheVariants.{OtherType};

    type Error = Refusal;

    ghost try_from_gives = { λ n r. MatchResult r (λ p. p.number ≡ n)
        (λ e. (e ≡ OtherType) × (is_number_of n 8 ≡ false)) };

    fn try_from(number: u64) -> Result<Profile, Refusal> {
        match number {
            1..=8 => Ok(Profile {
                number: number as u8,
            }),
            _ => Err(Refusal::OtherType),
        }
    }
}
