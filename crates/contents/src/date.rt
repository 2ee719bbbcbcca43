// The rule of a date.
ghost use Rattle.std.specs.Prelude.{◌≡◌};
ghost use Rattle.contents.specs.Date.{is_date};

// The fields are those of a date.
#[tactic(auto, using(std::proofs::lemmas::Bool::Decides::nat_tests), unfolding(crate::specs::Date::is_date))]
pub fn date_holds(year: i16, month: u8, day: u8) -> bool
    ensures { result ≡ is_date year month day }
{
    matches!(month, 1..=12) && matches!(day, 1..=31)
}
