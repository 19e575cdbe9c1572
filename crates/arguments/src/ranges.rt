//! Which values an option may have, and which value it has if the command line does not give it.
ghost use Rattle.std.specs.Prelude.{◌≡◌, ◌≤◌, ◌^◌, Some, None, Err, IfOk, OnErr};
ghost use Rattle.std.specs.Char.{is_ascii_digit};
ghost use Rattle.std.specs.List.{list_all};
ghost use Rattle.std.specs.Option.{ForSome, option_copied};
ghost use Rattle.arguments.specs.Settings.{is_number, is_place, max_input_of, number_of, number_within, rehearse_of, store_of};

use crate::settings::ArgumentsFault;

/// How many bytes of the input the program serves if no number is given.
const USUAL_MAX_INPUT: u64 = 4_294_967_296;

/// The greatest number of bytes of the input that may be asked for.
const GREATEST_MAX_INPUT: u64 = 1_099_511_627_776;

/// The greatest number of a rehearsal.
const GREATEST_REHEARSAL: u64 = 100_000;

/// The longest place, in bytes.
const LONGEST_PLACE: usize = 4096;

/// The greatest number of digits of a number: `GREATEST_MAX_INPUT` has so many.
const MOST_DIGITS: usize = 13;

/// The place of the store, if the option gives one. `Refused`: the place is empty or too long.
pub fn place_in(option: Option<&str>) -> Result<Option<&str>, ArgumentsFault>
    ensures ok { IfOk result (λ place.
        store_of (option_copied option.entry) ≡ Some (option_copied place)) }
    ensures refused { OnErr result (store_of (option_copied option.entry) ≡ None) }
    ensures fault { OnErr result (result ≡ Err ArgumentsFault.Refused) }
{
    match option {
        Some(text) if !is_place(text) => Err(ArgumentsFault::Refused),
        place => Ok(place),
    }
}

fn is_place(text: &str) -> bool
    ensures { result ≡ is_place text.now }
{
    !text.is_empty() && text.len() <= LONGEST_PLACE
}

/// How many bytes of the input the program serves: `USUAL_MAX_INPUT` if the option is not given.
/// `Refused`: the text is no number from 1 to `GREATEST_MAX_INPUT`.
pub fn max_input_in(option: Option<&str>) -> Result<u64, ArgumentsFault>
    ensures ok { IfOk result (λ bytes. max_input_of (option_copied option.entry) ≡ Some bytes) }
    ensures refused { OnErr result (max_input_of (option_copied option.entry) ≡ None) }
    ensures fault { OnErr result (result ≡ Err ArgumentsFault.Refused) }
    ensures least { IfOk result (λ bytes. 1 ≤ bytes) }
    ensures most { IfOk result (λ bytes. bytes ≤ 2 ^ 40) }
{
    match option {
        None => Ok(USUAL_MAX_INPUT),
        Some(text) => number_within(GREATEST_MAX_INPUT, text),
    }
}

/// The number of the rehearsal, if the option asks for one. `Refused`: the text is no number from 1
/// to `GREATEST_REHEARSAL`.
pub fn rehearsal_in(option: Option<&str>) -> Result<Option<u64>, ArgumentsFault>
    ensures ok { IfOk result (λ number.
        rehearse_of (option_copied option.entry) ≡ Some number) }
    ensures refused { OnErr result (rehearse_of (option_copied option.entry) ≡ None) }
    ensures fault { OnErr result (result ≡ Err ArgumentsFault.Refused) }
    ensures most { IfOk result (λ number. ForSome number (λ n. n ≤ 100000)) }
{
    match option {
        None => Ok(None),
        Some(text) => {
            let number = number_within(GREATEST_REHEARSAL, text)?;
            Ok(Some(number))
        }
    }
}

// The number that the text says, if it is from 1 to `greatest`.
fn number_within(greatest: u64, text: &str) -> Result<u64, ArgumentsFault>
    ensures ok { IfOk result (λ number. number_within greatest text.now ≡ Some number) }
    ensures refused { OnErr result (number_within greatest text.now ≡ None) }
    ensures fault { OnErr result (result ≡ Err ArgumentsFault.Refused) }
    ensures least { IfOk result (λ number. 1 ≤ number) }
    ensures most { IfOk result (λ number. number ≤ greatest) }
{
    match number_of(text) {
        Some(number) if 1 <= number && number <= greatest => Ok(number),
        _ => Err(ArgumentsFault::Refused),
    }
}

// The number that the text says, if the text is 1 to `MOST_DIGITS` decimal digits.
fn number_of(text: &str) -> Option<u64>
    ensures { result ≡ number_of text.now }
{
    if is_number(text) {
        text.parse::<u64>().ok()
    } else {
        None
    }
}

fn is_number(text: &str) -> bool
    ensures { result ≡ is_number text.now }
{
    !text.is_empty() && text.len() <= MOST_DIGITS && are_digits(text)
}

fn are_digits(text: &str) -> bool
    ensures { result ≡ list_all is_ascii_digit text.now }
{
    text.as_bytes().iter().all(|b| b.is_ascii_digit())
}
