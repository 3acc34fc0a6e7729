// The whole outcome of a run in one call: the counts, and the entries of every node.
#![tactic(auto)]

ghost use Rattle.refusal.specs.Told.{number_in};
ghost use Rattle.call.specs.Kept.{Runs};

use network::Network;
use refusal::Reason;
use run_cells::State;

// The refusal of the network that was found, or that of a room that is short; else both rooms are written, and not before.
pub fn run(
    found: Result<Network, Reason>,
    steps: &[u8],
    counts: &mut [u64; 4],
    entries: &mut [u16],
) -> Result<(), Reason>
    ensures { Runs found steps.now counts.old entries.old (number_in result) counts.new
        entries.new }
{
    let net = found?;
    let nodes = usize::from(net.layout.nodes);
    if entries.len() < 2 * (nodes * nodes) {
        return Err(Reason::RoomTooShort);
    }
    let mut state = State::new();
    let ran = run::run(&net, &mut state, steps);
    let stopped = run_entries::count_stopped(&state, nodes);
    run_rows::hand_rows(&state, entries, nodes);
    *counts = [
        ran.taken as u64,
        ran.idle as u64,
        ran.unknown as u64,
        stopped as u64,
    ];
    Ok(())
}
