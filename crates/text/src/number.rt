// A number of a sheet: 1 to 6 digits, no leading zero but in 0 itself.
ghost use Rattle.std.specs.Prelude.{◌≡◌};
ghost use Rattle.text.specs.Number.{number_of};

// The number that v spells. Not `parse`, which takes a sign and leading zeros.
#[tactic(auto, unfolding(crate::specs::Number::number_of))]
pub fn read_number(v: &[u8]) -> Option<u32>
    ensures { result ≡ number_of v.now }
{
    if v.is_empty() || v.len() > 6 {
        return None;
    }
    if let [b'0', _, ..] = v {
        return None;
    }
    let mut n = 0;
    for &digit in v {
        if !digit.is_ascii_digit() {
            return None;
        }
        n = n * 10 + u32::from(digit - b'0');
    }
    Some(n)
}
