// One node's table file, written after a run.
#![tactic(auto)]

ghost use Rattle.std.specs.Prelude.{◌≡◌, ◌-◌, ◌≤◌, length, take, drop};
ghost use Rattle.method.specs.Network.{IsNode};
ghost use Rattle.run_cells.specs.Part.{cells, entry_count, state_of};
ghost use Rattle.call.specs.Calls.{is_unstarted};
ghost use Rattle.call.specs.Files.{outcome, room_after};
ghost use Rattle.call.specs.Kept.{written, Writes};
ghost use Rattle.table.specs.Told.{told_in};
ghost use Rattle.call_write.specs.Filing.{held_file};

use method::Filled;
use network::Network;
use refusal::{Reason, Refusal};
use run_cells::{Part, Phase, State};
use table::Header;

// A node has not started.
fn is_unstarted(state: &State, node: usize) -> bool
    requires { (1 ≤ node) × (node ≤ 16) }
    ensures { result ≡ is_unstarted (state_of (cells state.now) node).node.phase }
{
    let first = Phase::Unstarted;
    state.parts[node - 1].phase == first
}

// The entries that a node filled after the first.
fn records_of(part: &Part) -> &[Filled]
    requires some { 1 ≤ part.now.filled }
    requires few { part.now.filled ≤ 16 }
    ensures lent { result.now ≡ take (part.now.filled - 1) (drop 1 part.now.entries) }
    ensures all { length part.now.entries ≡ 16 }
{
    &part.entries[1..usize::from(part.filled)]
}

// Writes the file of a node that has started. The first entry that it filled is its own; the others are its records.
fn put_file(net: &Network, state: &State, node: usize, room: &mut [u8]) -> Result<usize, Refusal>
    requires node { IsNode net.now.layout.nodes node }
    requires own { 1 ≤ cells state.now node entry_count }
    requires few { cells state.now node entry_count ≤ 16 }
    ensures told { told_in result ≡ outcome (held_file net.now.layout node (cells state.now node)) room.old }
    ensures left { room.new ≡ room_after (held_file net.now.layout node (cells state.now node)) room.old }
{
    let header = Header {
        own: node as u32,
        n: u32::from(net.layout.nodes),
        lmax: u32::from(net.layout.lmax),
    };
    let records = records_of(&state.parts[node - 1]);
    let stopped = run_entries::has_stopped(state, node);
    table_writer::write_file(header, records, stopped, room)
}

// Writes one node's file after the steps, from the room's start on; how many bytes it has. What the check refused comes first, then 11,
// then the run, then 12 and 13; nothing is written before the last of them is tested.
pub fn write(
    found: Result<Network, Reason>,
    steps: &[u8],
    node: u32,
    room: &mut [u8],
) -> Result<u16, Reason>
    ensures { Writes found steps.now node room.old (written result) room.new }
{
    let net = found?;
    if network::outside(u32::from(net.layout.nodes), node) {
        return Err(Reason::NoSuchNode);
    }
    let i = node as usize;
    let mut state = State::new();
    run::run(&net, &mut state, steps);
    if is_unstarted(&state, i) {
        return Err(Reason::NotStarted);
    }
    let size = put_file(&net, &state, i, room)?;
    Ok(size as u16)
}
