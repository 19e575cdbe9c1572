//! The settings of a run.
ghost use Rattle.std.specs.Prelude.{◌≤◌, ◌^◌};
ghost use Rattle.std.specs.Option.{ForSome};

/// The settings of a run.
#[derive(Drop)]
pub struct Settings<'a> {
    /// The place where the tables are kept, if one is given.
    pub store: Option<&'a str>,
    /// How many bytes of the input are served.
    pub max_input: u64,
    /// The number of the rehearsal, if there is to be one.
    pub rehearse: Option<u64>,
    ghost input_least: { 1 ≤ max_input },
    ghost input_most: { max_input ≤ 2 ^ 40 },
    ghost rehearsal_most: { ForSome rehearse (λ n. n ≤ 100000) },
}

/// Why arguments give no settings.
#[derive(Clone, Copy, PartialEq, Eq)]
pub enum ArgumentsFault {
    /// The arguments are rejected.
    Refused,
    /// Memory ran out.
    NoMemory,
}
