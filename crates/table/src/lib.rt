// Table files, document 01, "Bytes": what their reader (crate `table_reader`) and their writer (crate `table_writer`) speak of. The crate
// is the home of the definitions and laws of such files.
#![tactic(auto)]

ghost use Rattle.std.specs.Prelude.{◌≡◌};
ghost use Rattle.std.proofs.Math.Option.{none};
ghost use Rattle.method.specs.Entries.{said};
ghost use Rattle.method.specs.Meant.{meant};
ghost use Rattle.table.specs.Reader.{phase_of};

use method::Entry;

// What the header of a file says: the own number, n and LMAX.
#[derive(Clone, Copy, Debug, PartialEq, Eq, Hash)]
pub struct Header {
    pub own: u32,
    pub n: u32,
    pub lmax: u32,
}

// How the records of a file end: without the end mark, or with it.
#[derive(Clone, Copy, Debug, PartialEq, Eq, Hash)]
pub enum Ending {
    Unfinished,
    Marked,
}

impl Ending {
    ghost use Rattle.table.specs.Told.{is_marked};

    // The entry for a target that has no record: "unknown until the node stops and unreachable from then on".
    pub fn absent(self) -> Entry
        ensures { meant result ≡ said (phase_of (is_marked self)) none }
    {
        match self {
            Ending::Unfinished => Entry::Unknown,
            Ending::Marked => Entry::Unreachable,
        }
    }
}
