// The entries of every node after a run, handed over row by row.
#![tactic(auto)]

ghost use Rattle.std.specs.Prelude.{◌≡◌, [], ◌∷◌, ℕ, ◌+◌, ◌*◌, ◌≤◌, ◌<◌, length};
ghost use Rattle.std.proofs.lemmas.List.Edits.{sets};
ghost use Rattle.method.specs.Network.{IsNode};
ghost use Rattle.method.specs.Entries.{entry_of};
ghost use Rattle.method.specs.Marks.{distance_of, hop_of, entry_numbers, row_numbers};
ghost use Rattle.method.specs.Meant.{meant};
ghost use Rattle.run_cells.specs.Part.{cells, state_of};
ghost use Rattle.run_cells.specs.Caches.{Readable};

use method::Entry;
use run_cells::State;
use run_entries::entry;

// Hands over one entry: its distance, and its hop right after it.
fn hand_entry(entries: &mut [u16], place: usize, entry: Entry)
    requires { place + 1 < length entries.old }
    ensures { entries.new
        ≡ sets entries.old place (distance_of (meant entry) ∷ hop_of (meant entry) ∷ []) }
{
    entries[place] = entry.distance().0;
    entries[place + 1] = entry.hop();
}

// Hands over a node's entries for the targets 1 to `nodes`, from place `at` on. `Readable` is asked for as by
// `entry` of run_entries, with its reason.
fn hand_row(state: &State, entries: &mut [u16], at: usize, nodes: usize, node: usize)
    requires { (nodes ≤ 16) × IsNode nodes node × Readable (cells state.now node) × (at ≤ 512)
        × (at + 2 * nodes ≤ length entries.old) }
    ensures { entries.new
        ≡ sets entries.old at (entry_numbers (entry_of (state_of (cells state.now) node).node) nodes) }
{
    for k in 0..nodes {
        hand_entry(entries, at + 2 * k, entry(state, node, k + 1));
    }
}

// Hands over the entries of the nodes 1 to `nodes`, row by row.
pub fn hand_rows(state: &State, entries: &mut [u16], nodes: usize)
    requires { (nodes ≤ 16) × ((j : ℕ) → IsNode nodes j → Readable (cells state.now j))
        × (2 * (nodes * nodes) ≤ length entries.old) }
    ensures { entries.new
        ≡ sets entries.old 0 (row_numbers (λ i. entry_of (state_of (cells state.now) i).node) nodes nodes) }
{
    for i in 0..nodes {
        hand_row(state, entries, 2 * (i * nodes), nodes, i + 1);
    }
}
