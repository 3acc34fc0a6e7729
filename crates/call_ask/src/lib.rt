// One node's entry for a target after the steps, and the nodes on the way there.
#![tactic(auto)]

ghost use Rattle.std.specs.Prelude.{◌≡◌, ◌++◌};
ghost use Rattle.refusal.specs.Rows.{refused, ask_rows};
ghost use Rattle.refusal.specs.Told.{number_in};
ghost use Rattle.call.specs.Kept.{passed, IsShort, Enters, Routes};

use call::Way;
use method::Entry;
use network::Network;
use refusal::Reason;
use run_cells::State;

// What is refused of a question to a network of n nodes: a node or a target outside it.
fn judge(n: u8, node: u32, target: u32) -> Result<(), Reason>
    ensures { number_in result ≡ refused (ask_rows n node ++ ask_rows n target) }
{
    if network::outside(u32::from(n), node) {
        return Err(Reason::NoSuchNode);
    }
    if network::outside(u32::from(n), target) {
        return Err(Reason::NoSuchNode);
    }
    Ok(())
}

// Node `node`'s entry for the target after the steps.
pub fn entry(
    found: Result<Network, Reason>,
    steps: &[u8],
    node: u32,
    target: u32,
) -> Result<Entry, Reason>
    ensures entry { Enters found steps.now node target result }
    ensures short { IsShort result }
{
    let net = found?;
    judge(net.layout.nodes, node, target)?;
    let mut state = State::new();
    run::run(&net, &mut state, steps);
    Ok(run_entries::entry(&state, node as usize, target as usize))
}

// The nodes that first hops pass from the node to the target, the target last, into the room's first places: how many they are, and the
// distance or the mark in its place. They are counted in a room of our own first: the lent one may be short.
pub fn route(
    found: Result<Network, Reason>,
    steps: &[u8],
    node: u32,
    target: u32,
    room: &mut [u8],
) -> Result<Way, Reason>
    ensures { Routes found steps.now node target room.old (passed result) room.new }
{
    let net = found?;
    judge(net.layout.nodes, node, target)?;
    let mut state = State::new();
    run::run(&net, &mut state, steps);
    let i = node as usize;
    let y = target as usize;
    let mut nodes = [0u8; 16];
    let k = run_route::lay_way(&state, &mut nodes, i, y);
    if room.len() < k {
        return Err(Reason::RoomTooShort);
    }
    run_route::lay_way(&state, room, i, y);
    Ok(Way {
        nodes: k as u8,
        distance: run_entries::entry(&state, i, y).distance(),
    })
}
