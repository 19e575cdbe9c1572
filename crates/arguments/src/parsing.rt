//! The options as the command line writes them: `ranges` judges their texts.
ghost use Rattle.std.specs.Prelude.{◌≡◌, ◌↔◌, Some, None, Err, IfOk, false, map, string_bytes};
ghost use Rattle.clap.specs.Simple.{app_of};
ghost use Rattle.clap.specs.Walk.{rule_of};
ghost use Rattle.clap.specs.declared.error.kind.ErrorKind.TheVariants.{OutOfMemory};
ghost use Rattle.arguments.specs.Options.{command, entries, option};
ghost use Rattle.arguments.specs.Views.{options_view};

use crate::settings::ArgumentsFault;
use clap::error::ErrorKind;
use clap::{Arg, Command};
use std::alloc::{AllocError, Global};

/// The text of each option that the command line gives.
#[derive(Drop)]
pub struct Options<'a> {
    pub store: Option<&'a str>,
    pub max_input: Option<&'a str>,
    pub rehearse: Option<&'a str>,
}

/// Parses the words. `Refused`: the command does not take them; `NoMemory`.
pub fn parse<'a>(alloc: Global, words: &'a [String]) -> Result<Options<'a>, ArgumentsFault>
    ensures ok { IfOk result (λ options.
        entries (map string_bytes words.now) ≡ Some (options_view options)) }
    ensures refused { result ≡ Err ArgumentsFault.Refused
        → entries (map string_bytes words.now) ≡ None }
{
    let Ok(command) = command(alloc) else {
        return Err(ArgumentsFault::NoMemory);
    };
    match command.try_get_matches_from(words) {
        Ok(matches) => Ok(Options {
            store: matches.get_str("store"),
            max_input: matches.get_str("max-input"),
            rehearse: matches.get_str("rehearse"),
        }),
        Err(error) => Err(fault_of(error.kind())),
    }
}

// The command, with its three options.
fn command<'a>(alloc: Global) -> Result<Command<'a>, AllocError>
    ensures { IfOk result (λ made. app_of made ≡ command) }
{
    let command = Command::new(alloc, "view_program").arg(option(alloc, "store"))?;
    let command = command.arg(option(alloc, "max-input"))?;
    command.arg(option(alloc, "rehearse"))
}

fn option<'a>(alloc: Global, name: &'a str) -> Arg<'a>
    ensures rule { rule_of result ≡ option name.entry.now }
    ensures local { result.global ≡ false }
{
    Arg::new(alloc, name).long(name)
}

fn fault_of(kind: ErrorKind) -> ArgumentsFault
    ensures { (result ≡ ArgumentsFault.NoMemory) ↔ (kind ≡ OutOfMemory) }
{
    match kind {
        ErrorKind::OutOfMemory => ArgumentsFault::NoMemory,
        _ => ArgumentsFault::Refused,
    }
}
