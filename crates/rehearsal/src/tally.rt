//! What is counted in a rehearsal.
ghost use Rattle.std.specs.Prelude.{◌≡◌, ◌+◌, ◌<◌, ◌^◌, if◌then◌else◌};

/// How many lines the server accepted, and how many it rejected.
#[derive(Clone, Copy)]
pub(crate) struct Tally {
    pub accepted: u64,
    pub refused: u64,
}

/// How many rows the reads showed.
#[derive(Clone, Copy)]
pub(crate) struct Shown {
    pub albums: usize,
    pub tracks: usize,
    pub stock: usize,
}

impl Tally {
    /// Nothing is counted yet.
    pub(crate) fn new() -> Tally
        ensures { result ≡ record { accepted = 0; refused = 0 } }
    {
        Tally {
            accepted: 0,
            refused: 0,
        }
    }

    /// Counts a line as accepted, or else as rejected.
    pub(crate) fn count(&mut self, accepts: bool)
        requires accepted_fits { self.old.accepted + 1 < 2 ^ 64 }
        requires refused_fits { self.old.refused + 1 < 2 ^ 64 }
        ensures { self.new ≡ (if accepts then record self.old { accepted = self.old.accepted + 1 }
            else record self.old { refused = self.old.refused + 1 }) }
    {
        if accepts {
            self.accepted += 1;
        } else {
            self.refused += 1;
        }
    }
}
