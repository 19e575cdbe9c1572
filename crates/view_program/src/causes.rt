//! Why the program ended, in words.
ghost use Rattle.std.specs.Prelude.{◌≡◌, ◌≤◌, ◌↔◌, IsSome, MatchOption, None, Some};
ghost use Rattle.view_program.specs.Causes.{cause_line};

/// Why the program ended with this status, for whoever started it. `None` if it did all its work,
/// or gave its usage line.
pub fn cause_of(status: u8) -> Option<&'static str>
    ensures told { IsSome result ↔ ((3 ≤ status) × (status ≤ 8)) }
    ensures line { MatchOption result (cause_line status ≡ None)
        (λ line. cause_line status ≡ Some line.now) }
{
    match status {
        3 => Some("view_program: memory ran out"),
        4 => Some("view_program: the input cannot be read"),
        5 => Some("view_program: the output cannot be written"),
        6 => Some(
            "view_program: the store cannot be opened: no such folder, not a store, or in use by another program",
        ),
        7 => Some("view_program: the store is damaged, as the line on standard output reports"),
        8 => Some("view_program: the input is longer than --max-input allows"),
        _ => None,
    }
}
