// A network as n, LMAX and a list of arcs: checked, and laid out for the run.
#![tactic(auto)]

ghost use Rattle.std.specs.Prelude.{◌≡◌, ◌≤◌, map, length, OnOk};
ghost use Rattle.refusal.specs.Rows.{refused};
ghost use Rattle.refusal.specs.Told.{number_in};
ghost use Rattle.network.specs.ArcList.{header_list_rows};
ghost use Rattle.network.specs.Given.{given};
ghost use Rattle.network.specs.LaidOut.{with_arcs};
ghost use Rattle.network.specs.Marks.{marks_rows};
ghost use Rattle.network.specs.Found.{Finds};
ghost use Rattle.network_list.specs.Given.{from_arcs};

use network::{Arc, Layout, Network};
use refusal::Reason;

// What is refused of an arc list before its m arcs.
#[tactic(auto, unfolding(network::specs::ArcList::header_list_rows))]
fn before_arcs(n: u8, lmax: u8, m: usize) -> Result<(), Reason>
    ensures refused { number_in result ≡ refused (header_list_rows n lmax m) }
    ensures few_nodes { OnOk result (n ≤ 16) }
    ensures few_arcs { OnOk result (m ≤ 240) }
{
    if network::outside(16, u32::from(n)) {
        return Err(Reason::WrongNodeCount);
    }
    if network::outside(15, u32::from(lmax)) {
        return Err(Reason::WrongLmax);
    }
    if network::MOST < m {
        return Err(Reason::TooManyArcs);
    }
    Ok(())
}

// Lays the arcs out, up to one that is refused.
fn lay(arcs: &[Arc], layout: &mut Layout) -> Result<(), Reason>
    requires few_nodes { layout.old.nodes ≤ 16 }
    requires few_arcs { length arcs.now ≤ 240 }
    ensures refused { number_in result
        ≡ refused (marks_rows layout.old.nodes layout.old.lmax 0 layout.old (map given arcs.now)) }
    ensures laid { OnOk result (layout.new ≡ with_arcs layout.old 0 (map given arcs.now)) }
{
    for (k, &arc) in arcs.iter().enumerate() {
        layout.place(k, arc)?;
    }
    Ok(())
}

// What the check finds of an arc list. It stays a function of its own: where LLVM put it into the calls that run steps, two of them took
// more than their 8 KiB of stack.
#[inline(never)]
pub fn check(n: u8, lmax: u8, arcs: &[Arc]) -> Result<Network, Reason>
    ensures { Finds (from_arcs n lmax arcs.now) result }
{
    before_arcs(n, lmax, arcs.len())?;
    let mut layout = Layout::new(n, lmax, arcs.len() as u8);
    lay(arcs, &mut layout)?;
    Ok(Network { layout })
}
