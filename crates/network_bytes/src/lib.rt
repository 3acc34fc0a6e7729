// A network's bytes: checked, and laid out for the run.
#![tactic(auto)]

ghost use Rattle.std.specs.Prelude.{◌≡◌, ◌+◌, ◌*◌, ◌≤◌, ◌<◌, length, OnOk};
ghost use Rattle.refusal.specs.Rows.{refused};
ghost use Rattle.refusal.specs.Told.{number_in};
ghost use Rattle.network.specs.Bytes.{node_count, lmax, count, size, arc, arcs, header_byte_rows};
ghost use Rattle.network.specs.Checked.{from_bytes};
ghost use Rattle.network.specs.Given.{given};
ghost use Rattle.network.specs.LaidOut.{headed, with_arcs};
ghost use Rattle.network.specs.Marks.{marks_rows};
ghost use Rattle.network.specs.Found.{Finds};

use network::{Arc, Layout, Network};
use refusal::Reason;

// What is refused before the arcs.
#[tactic(auto, unfolding(network::specs::Bytes::header_byte_rows))]
fn before_arcs(net: &[u8]) -> Result<(), Reason>
    ensures refused { number_in result ≡ refused (header_byte_rows net.now) }
    ensures few_arcs { OnOk result (count net.now ≤ 240) }
    ensures sized { OnOk result (length net.now ≡ size (count net.now)) }
{
    if net.len() < 3 {
        return Err(Reason::WrongNetworkLength);
    }
    let m = bits::read(net, 16, 8) as usize;
    if bits::nibble(net, 0) != 1 || bits::nibble(net, 3) != 0 {
        return Err(Reason::WrongNetworkVersion);
    }
    if bits::nibble(net, 2) == 0 {
        return Err(Reason::WrongLmax);
    }
    if network::MOST < m {
        return Err(Reason::TooManyArcs);
    }
    if net.len() != 3 + (12 * m + 7) / 8 {
        return Err(Reason::WrongNetworkLength);
    }
    Ok(())
}

// Arc k.
fn arc(net: &[u8], k: usize) -> Arc
    requires { 36 + 12 * k ≤ 8 * length net.now }
    ensures { given result ≡ arc net.now k }
{
    let p = 6 + 3 * k;
    Arc {
        tail: bits::nibble(net, p) as u8 + 1,
        head: bits::nibble(net, p + 1) as u8 + 1,
        len: bits::nibble(net, p + 2) as u8,
    }
}

// The layout before the arcs.
fn begin(net: &[u8]) -> Layout
    requires { 3 ≤ length net.now }
    ensures headed { result ≡ headed (node_count net.now) (lmax net.now) (count net.now) }
    ensures few_nodes { result.nodes ≤ 16 }
{
    let n = bits::nibble(net, 1) as u8 + 1;
    let lmax = bits::nibble(net, 2) as u8;
    let count = bits::read(net, 16, 8) as u8;
    Layout::new(n, lmax, count)
}

// Lays the arcs of the bytes out, up to one that is refused. A pass beside that over a list (`network_list`): one over any iterator of arcs
// would have to name in its contract the list that it yields, which a range and a slice do by themselves; no plainer.
fn scan(net: &[u8], layout: &mut Layout) -> Result<(), Reason>
    requires few_nodes { layout.old.nodes ≤ 16 }
    requires few_arcs { layout.old.count ≤ 240 }
    requires all_stand { 24 + 12 * layout.old.count ≤ 8 * length net.now }
    ensures refused { number_in result
        ≡ refused (marks_rows layout.old.nodes layout.old.lmax 0 layout.old (arcs net.now 0 layout.old.count)) }
    ensures laid { OnOk result (layout.new ≡ with_arcs layout.old 0 (arcs net.now 0 layout.old.count)) }
{
    for k in 0..usize::from(layout.count) {
        layout.place(k, arc(net, k))?;
    }
    Ok(())
}

// What the check finds of a network's bytes. It stays a function of its own: put into the calls that run steps, it takes of their stack.
#[inline(never)]
pub fn check(net: &[u8]) -> Result<Network, Reason>
    ensures { Finds (from_bytes net.now) result }
{
    before_arcs(net)?;
    let mut layout = begin(net);
    let m = usize::from(layout.count);
    scan(net, &mut layout)?;
    // An odd count of arcs leaves half a byte.
    if bits::read(net, 24 + 12 * m, 4 * (m % 2)) != 0 {
        return Err(Reason::WrongNetworkPadding);
    }
    Ok(Network { layout })
}
