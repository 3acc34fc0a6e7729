// The way from a node to a target along first hops, over the state that a run has left.
#![tactic(auto)]

ghost use Rattle.std.specs.Prelude.{◌≡◌, ◌+◌, ◌≤◌, length};
ghost use Rattle.std.proofs.lemmas.List.Edits.{sets};
ghost use Rattle.method.specs.Route.{route, way};
ghost use Rattle.method.specs.Room.{begins};
ghost use Rattle.run_cells.specs.Part.{cells, state_of};
ghost use Rattle.run_route.specs.Asked.{Asked, OnWay};

use method::Entry;
use run_cells::State;
use run_entries::entry;

// From a node on, the nodes on the way to the target are written from place `at` on; the next free place. The distance falls at each call:
// a recursion along first hops, as document 01 has it.
pub fn follow(state: &State, room: &mut [u8], at: usize, node: usize, target: usize) -> usize
    requires { OnWay (cells state.now) node target
        × (at + length (route (state_of (cells state.now)) target node) ≤ length room.old) }
    ensures { (result ≡ at + length (route (state_of (cells state.now)) target node))
        × (room.new ≡ sets room.old at (route (state_of (cells state.now)) target node)) }
{
    if node == target {
        return at;
    }
    let hop = entry(state, node, target).hop();
    let next = usize::from(hop);
    // A node's number, so that nothing is lost: `try_from` would be no plainer.
    room[at] = hop as u8;
    follow(state, room, at + 1, next, target)
}

// The nodes that first hops pass from a node to the target, the target last, into the room's first places: how many, none where the entry
// is not filled.
pub fn lay_way(state: &State, room: &mut [u8], node: usize, target: usize) -> usize
    requires { Asked (cells state.now) node target × (length (way (state_of (cells state.now)) target node) ≤ length room.old) }
    ensures { (result ≡ length (way (state_of (cells state.now)) target node))
        × (room.new ≡ begins (way (state_of (cells state.now)) target node) room.old) }
{
    match entry(state, node, target) {
        Entry::Unknown | Entry::Unreachable => 0,
        Entry::Known { .. } => follow(state, room, 0, node, target),
    }
}
