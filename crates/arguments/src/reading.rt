//! The settings that the words say.
ghost use Rattle.std.specs.Prelude.{◌≡◌, Some, None, Err, IfOk, OnErr, map, string_bytes};
ghost use Rattle.arguments.specs.Settings.{settings, settings_of};
ghost use Rattle.arguments.specs.Views.{options_view, settings_view};

use crate::parsing::{Options, parse};
use crate::ranges::{max_input_in, place_in, rehearsal_in};
use crate::settings::{ArgumentsFault, Settings};
use std::alloc::Global;

/// Reads the settings from the words of the command line, the program's name first: `--store PATH`,
/// `--max-input N` and `--rehearse N`, each once at most. `Refused`: a word is no option and no
/// value of one, or a value is out of its range, or a place is given beside a rehearsal.
/// `NoMemory`: memory ran out.
#[tactic(auto, unfolding(crate::specs::Settings::settings))]
pub fn read_settings<'a>(alloc: Global, words: &'a [String]) -> Result<Settings<'a>, ArgumentsFault>
    ensures ok { IfOk result (λ s.
        settings (map string_bytes words.now) ≡ Some (settings_view s)) }
    ensures refused { result ≡ Err ArgumentsFault.Refused
        → settings (map string_bytes words.now) ≡ None }
{
    let options = parse(alloc, words)?;
    settings_in(options)
}

// The settings that the options say.
fn settings_in<'a>(options: Options<'a>) -> Result<Settings<'a>, ArgumentsFault>
    ensures ok { IfOk result (λ s.
        settings_of (options_view options.entry) ≡ Some (settings_view s)) }
    ensures refused { OnErr result (settings_of (options_view options.entry) ≡ None) }
    ensures fault { OnErr result (result ≡ Err ArgumentsFault.Refused) }
{
    let store = place_in(options.store)?;
    let max_input = max_input_in(options.max_input)?;
    let rehearse = rehearsal_in(options.rehearse)?;
    if store.is_some() && rehearse.is_some() {
        return Err(ArgumentsFault::Refused);
    }
    Ok(Settings {
        store,
        max_input,
        rehearse,
    })
}
