// Numbers in texts.
ghost use Rattle.std.specs.Prelude.{◌≡◌, ◌≤◌};
ghost use Rattle.plant_values.specs.Digits.{digits_of};

/// The number that 1 to `most` decimal digits spell, leading zeros among them, and nothing else: no sign, no blank.
/// `most` is at most 18, so that each such number has room.
/// `None` where the bytes aren't written so.
#[tactic(auto, using(std::proofs::lemmas::List::Folds::list_all_at), unfolding(crate::specs::Digits::digits_of))]
pub fn read_digits(text: &[u8], most: usize) -> Option<u64>
    requires { most ≤ 18 }
    ensures { result ≡ digits_of most text.now }
{
    if text.is_empty() || text.len() > most {
        return None;
    }
    let mut number = 0u64;
    for digit in text {
        if !digit.is_ascii_digit() {
            return None;
        }
        number = number * 10 + u64::from(*digit - b'0');
    }
    Some(number)
}
