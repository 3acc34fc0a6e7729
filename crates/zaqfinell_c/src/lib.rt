// The calls that C links, as the header declares them: each hands its network, as bytes or as an arc list, to the call of crate
// `zaqfinell`, and promises what that promises.
#![tactic(auto)]

ghost use Rattle.network.specs.Checked.{from_bytes};
ghost use Rattle.network_list.specs.Given.{from_arcs};
ghost use Rattle.call.specs.Files.{ReadPromise, TablePromise};
ghost use Rattle.call.specs.Promises.{CheckPromise, WritePromise, RunPromise, MostPromise, EntryPromise, RoutePromise, PackPromise};

use network::Arc;
use zaqfinell::ArcList;

// The refusal of a network's bytes, or 0.
#[unsafe(no_mangle)]
pub extern "C" fn zaq_check_network(net: &[u8]) -> u32
    ensures { CheckPromise (from_bytes net.now) result }
{
    zaqfinell::check_network(net)
}

// Runs the steps over a network and writes one node's file into the room; how many bytes it has.
#[unsafe(no_mangle)]
pub extern "C" fn zaq_write_table(net: &[u8], steps: &[u8], node: u32, room: &mut [u8]) -> u32
    ensures { WritePromise (from_bytes net.now) steps.now node room.old result room.new }
{
    zaqfinell::write_table(net, steps, node, room)
}

// One entry of a table file, whole or cut.
#[unsafe(no_mangle)]
pub extern "C" fn zaq_read_entry(file: &[u8], target: u32) -> u32
    ensures { ReadPromise file.now target result }
{
    zaqfinell::read_entry(file, target)
}

// All entries of a table file, whole or cut.
#[unsafe(no_mangle)]
pub extern "C" fn zaq_read_table(file: &[u8], room: &mut [u16]) -> u32
    ensures { TablePromise file.now room.old result room.new }
{
    zaqfinell::read_table(file, room)
}

// The whole outcome of a run: the refusal, or 0 with the counts and every entry.
#[unsafe(no_mangle)]
pub extern "C" fn zaq_run(
    net: &[u8],
    steps: &[u8],
    counts: &mut [u64; 4],
    entries: &mut [u16],
) -> u32
    ensures { RunPromise (from_bytes net.now) steps.now counts.old entries.old result
        counts.new entries.new }
{
    zaqfinell::run(net, steps, counts, entries)
}

// The most steps that a run can take.
#[unsafe(no_mangle)]
pub extern "C" fn zaq_most_taken(net: &[u8]) -> u32
    ensures { MostPromise (from_bytes net.now) result }
{
    zaqfinell::most_taken(net)
}

// One entry of one node after a run.
#[unsafe(no_mangle)]
pub extern "C" fn zaq_entry(net: &[u8], steps: &[u8], node: u32, target: u32) -> u32
    ensures { EntryPromise (from_bytes net.now) steps.now node target result }
{
    zaqfinell::entry(net, steps, node, target)
}

// The nodes on the way from a node to a target after a run.
#[unsafe(no_mangle)]
pub extern "C" fn zaq_route(
    net: &[u8],
    steps: &[u8],
    node: u32,
    target: u32,
    room: &mut [u8],
) -> u32
    ensures { RoutePromise (from_bytes net.now) steps.now node target room.old result
        room.new }
{
    zaqfinell::route(net, steps, node, target, room)
}

// The refusal of an arc list, or 0.
#[unsafe(no_mangle)]
pub extern "C" fn zaq_check_arcs(n: u8, lmax: u8, arcs: &[Arc]) -> u32
    ensures { CheckPromise (from_arcs n lmax arcs.now) result }
{
    zaqfinell::check_network(ArcList { n, lmax, arcs })
}

// `zaq_write_table` of an arc list.
#[unsafe(no_mangle)]
pub extern "C" fn zaq_write_table_arcs(
    n: u8,
    lmax: u8,
    arcs: &[Arc],
    steps: &[u8],
    node: u32,
    room: &mut [u8],
) -> u32
    ensures { WritePromise (from_arcs n lmax arcs.now) steps.now node room.old result
        room.new }
{
    zaqfinell::write_table(ArcList { n, lmax, arcs }, steps, node, room)
}

// `zaq_run` of an arc list.
#[unsafe(no_mangle)]
pub extern "C" fn zaq_run_arcs(
    n: u8,
    lmax: u8,
    arcs: &[Arc],
    steps: &[u8],
    counts: &mut [u64; 4],
    entries: &mut [u16],
) -> u32
    ensures { RunPromise (from_arcs n lmax arcs.now) steps.now counts.old entries.old result
        counts.new entries.new }
{
    zaqfinell::run(ArcList { n, lmax, arcs }, steps, counts, entries)
}

// `zaq_most_taken` of an arc list.
#[unsafe(no_mangle)]
pub extern "C" fn zaq_most_taken_arcs(n: u8, lmax: u8, arcs: &[Arc]) -> u32
    ensures { MostPromise (from_arcs n lmax arcs.now) result }
{
    zaqfinell::most_taken(ArcList { n, lmax, arcs })
}

// `zaq_entry` of an arc list.
#[unsafe(no_mangle)]
pub extern "C" fn zaq_entry_arcs(
    n: u8,
    lmax: u8,
    arcs: &[Arc],
    steps: &[u8],
    node: u32,
    target: u32,
) -> u32
    ensures { EntryPromise (from_arcs n lmax arcs.now) steps.now node target result }
{
    zaqfinell::entry(ArcList { n, lmax, arcs }, steps, node, target)
}

// `zaq_route` of an arc list.
#[unsafe(no_mangle)]
pub extern "C" fn zaq_route_arcs(
    n: u8,
    lmax: u8,
    arcs: &[Arc],
    steps: &[u8],
    node: u32,
    target: u32,
    room: &mut [u8],
) -> u32
    ensures { RoutePromise (from_arcs n lmax arcs.now) steps.now node target room.old result
        room.new }
{
    zaqfinell::route(ArcList { n, lmax, arcs }, steps, node, target, room)
}

// The bytes of an arc list's network, which the calls without `_arcs` take.
#[unsafe(no_mangle)]
pub extern "C" fn zaq_pack_network(n: u8, lmax: u8, arcs: &[Arc], room: &mut [u8]) -> u32
    ensures { PackPromise (from_arcs n lmax arcs.now) room.old result room.new }
{
    zaqfinell::pack_network(ArcList { n, lmax, arcs }, room)
}
