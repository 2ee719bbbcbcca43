// The rule of a time.
ghost use Rattle.std.specs.Prelude.{◌≡◌};
ghost use Rattle.contents.specs.Time.{is_time};

// The fields are those of a time.
#[tactic(auto, using(std::proofs::lemmas::Bool::Decides::nat_tests), unfolding(crate::specs::Time::is_time))]
pub fn time_holds(hour: u8, minute: u8, second: u8, hundredth: u8) -> bool
    ensures { result ≡ is_time hour minute second hundredth }
{
    hour <= 23 && minute <= 59 && second <= 59 && hundredth <= 99
}
