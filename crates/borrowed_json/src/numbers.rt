//! Numbers: an integer of 64 bits, or a finite float.
ghost use Rattle.std.specs.Prelude.{◌≡◌, ◌<◌, ◌==◌, IsTrue, true, false, length, option_map, slice_index};
ghost use Rattle.fast_float.specs.Text.{minus};
ghost use Rattle.serde_json.specs.Read.{number_of, number_from};
ghost use Rattle.serde_json.specs.View.{number_view};

use fast_float::Numeral;
use serde_json::Number;

/// The number that the text writes. `None` where it is too large for a float.
pub(crate) fn number_in(text: &str) -> Option<Number>
    ensures { option_map number_view result ≡ number_of text.now }
{
    let bytes = text.as_bytes();
    if begins_with_minus(bytes) {
        below_zero(&Numeral::scan(&bytes[1..]))
    } else {
        from_zero(&Numeral::scan(bytes))
    }
}

fn begins_with_minus(bytes: &[u8]) -> bool
    ensures begins { result ≡ (slice_index bytes.now 0 == minus) }
    ensures some { IsTrue result → 0 < length bytes.now }
{
    !bytes.is_empty() && bytes[0] == b'-'
}

// The number of a numeral with no sign.
fn from_zero(numeral: &Numeral<'_>) -> Option<Number>
    ensures { option_map number_view result ≡ number_from false numeral.now }
{
    match numeral.to_u64() {
        Some(number) => Number::from_u128(u128::from(number)),
        None => Number::from_f64(numeral.to_float::<f64>(false)),
    }
}

// The number of a numeral behind a minus. There is no integer -0.
fn below_zero(numeral: &Numeral<'_>) -> Option<Number>
    ensures { option_map number_view result ≡ number_from true numeral.now }
{
    match numeral.to_i64(true) {
        Some(number) if number < 0 => Number::from_i128(i128::from(number)),
        _ => Number::from_f64(numeral.to_float::<f64>(true)),
    }
}
