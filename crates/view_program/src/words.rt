//! The words of the command line.
ghost use Rattle.std.specs.Prelude.{◌≡◌, ◌↔◌, IfOk, OnErr, Err};
ghost use Rattle.std.specs.Vec.Iter.{into_iter_items};
ghost use Rattle.std.specs.declared.io.ErrorKind.TheVariants.{OutOfMemory};
ghost use Rattle.view_program.specs.Words.{word_status};

use std::alloc::Global;
use std::env::Args;
use std::rt::Env;
use std::{env, io};

/// Why the arguments cannot be read.
#[derive(Clone, Copy, PartialEq, Eq)]
pub enum ArgumentsReadFault {
    /// Memory ran out.
    NoMemory,
    /// An argument is not text.
    Unreadable,
}

/// The words, the program's name among them as the first.
pub fn collected(rt: &(impl Env + AllocGlobal)) -> Result<Vec<String>, ArgumentsReadFault> {
    let args = match env::args(rt) {
        Ok(args) => args,
        Err(error) => return Err(fault_of(error.kind())),
    };
    gathered(rt.alloc(), args)
}

// The words in a list. Only want of memory can fail here.
fn gathered(alloc: Global, args: Args) -> Result<Vec<String>, ArgumentsReadFault>
    ensures all { IfOk result (λ words. words.items ≡ into_iter_items args) }
    ensures memory { OnErr result (result ≡ Err ArgumentsReadFault.NoMemory) }
{
    let mut words = Vec::new(alloc);
    for word in args {
        if words.push(word).is_err() {
            return Err(ArgumentsReadFault::NoMemory);
        }
    }
    Ok(words)
}

// Why the words cannot be read, by the kind of the system's error.
fn fault_of(kind: io::ErrorKind) -> ArgumentsReadFault
    ensures { (result ≡ ArgumentsReadFault.NoMemory) ↔ (kind ≡ OutOfMemory) }
{
    match kind {
        io::ErrorKind::OutOfMemory => ArgumentsReadFault::NoMemory,
        _ => ArgumentsReadFault::Unreadable,
    }
}

/// The status of the program if its words cannot be read.
pub fn status_of(fault: ArgumentsReadFault) -> u8
    ensures { result ≡ word_status fault }
{
    match fault {
        ArgumentsReadFault::NoMemory => 3,
        ArgumentsReadFault::Unreadable => 2,
    }
}
