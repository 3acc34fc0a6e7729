// What a finished run says: who has stopped, and a node's entry for a target.
#![tactic(auto)]

ghost use Rattle.std.specs.Prelude.{◌≡◌, ◌≤◌, ◌<◌};
ghost use Rattle.method.specs.Entries.{is_stopped, stopped_to, entry_of};
ghost use Rattle.method.specs.Meant.{meant};
ghost use Rattle.run_cells.specs.Part.{cells, state_of, table_size};
ghost use Rattle.run_cells.specs.Caches.{Readable};

use method::Entry;
use run_cells::{Phase, State};

// A node has stopped. Its number is a plain one: a type for it would be built with the same fact at each caller, no plainer.
pub fn has_stopped(state: &State, node: usize) -> bool
    requires { (1 ≤ node) × (node < table_size) }
    ensures { result ≡ is_stopped (state_of (cells state.now) node) }
{
    matches!(state.parts[node - 1].phase, Phase::Stopped)
}

// How many of the nodes 1 to `nodes` have stopped.
pub fn count_stopped(state: &State, nodes: usize) -> usize
    requires { nodes < table_size }
    ensures { result ≡ stopped_to (state_of (cells state.now)) nodes }
{
    state.parts[..nodes]
        .iter()
        .filter(|part| matches!(part.phase, Phase::Stopped))
        .count()
}

// A node's entry for a target. The numbers are plain ones, as above. `Readable` is what a run leaves in a part: it does not hold between
// the stores that fill one entry, so that a type which says it would be no plainer.
pub fn entry(state: &State, node: usize, target: usize) -> Entry
    requires { (1 ≤ node) × (node < table_size) × (target < table_size) × Readable (cells state.now node) }
    ensures { meant result ≡ entry_of (state_of (cells state.now) node).node target }
{
    let part = &state.parts[node - 1];
    let mark = part.marks[target];
    if mark != 0 {
        return Entry::from(part.entries[usize::from(mark - 1)]);
    }
    match part.phase {
        Phase::Stopped => Entry::Unreachable,
        Phase::Unstarted | Phase::Started => Entry::Unknown,
    }
}
