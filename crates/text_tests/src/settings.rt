//! The command line.
use arguments::{ArgumentsFault, read_settings};
use std::alloc::Global;
use std::process::Abort;

// Command lines, each with the storage or `none`, the bytes of input, and the number of trial requests
// or 0.
const COMMAND_LINES: &str = "\
view_program => none 4294967296 0
view_program -- => none 4294967296 0
view_program --store x => x 4294967296 0
view_program --store=x --max-input 5 => x 5 0
view_program --store - => - 4294967296 0
view_program --max-input=003 => none 3 0
view_program --max-input 1099511627776 => none 1099511627776 0
view_program --max-input 1 --rehearse 100000 => none 1 100000
view_program --rehearse 0000000000001 => none 4294967296 1
view_program x => rejected
view_program -- x => rejected
view_program --help => rejected
view_program -h => rejected
view_program help => rejected
view_program --version => rejected
view_program -V => rejected
view_program --store => rejected
view_program --store= => rejected
view_program --sto x => rejected
view_program --store x --store y => rejected
view_program --store a b => rejected
view_program --store -x => rejected
view_program --store x --rehearse 3 => rejected
view_program --max-input 0 => rejected
view_program --max-input 1099511627777 => rejected
view_program --max-input +5 => rejected
view_program --max-input -5 => rejected
view_program --max-input=-5 => rejected
view_program --max-input= => rejected
view_program --max-input 5x => rejected
view_program --max-input 00000000000001 => rejected
view_program --max-input 99999999999999999999 => rejected
view_program --rehearse 0 => rejected
view_program --rehearse 100001 => rejected
view_program --rehearse 1 --rehearse 1 => rejected
view_program --rehearse => rejected";

#[test]
fn arguments_are_read(rt: HostRuntime) {
    for case in COMMAND_LINES.lines() {
        let (line, settings) = case.split_once(" => ").expect(&rt, case);
        let arguments = arguments_of(&rt, rt.alloc(), line);
        let found = settings_of(&rt, rt.alloc(), &arguments);
        assert!(rt; found.as_str() == settings, "{case}");
    }
}

// The arguments on the line, with the name of the program.
fn arguments_of(rt: &impl Abort, alloc: Global, line: &str) -> Vec<String> {
    let mut all = Vec::new(alloc);
    for argument in line.split_whitespace() {
        let argument = argument.to_string(alloc).expect(rt, line);
        all.push(argument).expect(rt, line);
    }
    all
}

// The settings that the arguments give, or `rejected`.
fn settings_of(rt: &impl Abort, alloc: Global, arguments: &[String]) -> String {
    let text = match read_settings(alloc, arguments) {
        Ok(read) => {
            let storage = read.store.unwrap_or("none");
            let number = read.rehearse.unwrap_or(0);
            format!(in alloc; "{storage} {} {number}", read.max_input)
        }
        Err(ArgumentsFault::Refused) => "rejected".to_string(alloc),
        Err(ArgumentsFault::NoMemory) => panic!(rt; "no memory"),
    };
    text.expect(rt, "memory")
}
