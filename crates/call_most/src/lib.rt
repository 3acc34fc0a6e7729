// How many steps of a run can be taken, in any order: the number by which a bench crew sizes its step recorder.
#![tactic(auto)]

ghost use Rattle.std.specs.Prelude.{◌≡◌};
ghost use Rattle.method.specs.Bounds;
ghost use Rattle.network.specs.Layout.{net_of};
ghost use Rattle.call.specs.Kept.{written, Bounds};

use network::Network;
use refusal::Reason;

// n starts and, over every arc, n × LMAX + n + 1 messages: at most 61,696.
fn starts_and_messages(net: &Network) -> u16
    ensures { result ≡ Bounds.most_taken (net_of net.now.layout) }
{
    let nodes = u16::from(net.layout.nodes);
    nodes + u16::from(net.layout.count) * (nodes * u16::from(net.layout.lmax) + nodes + 1)
}

// The most steps that can be taken; or the refusal of the network that was found.
pub fn most_taken(found: Result<Network, Reason>) -> Result<u16, Reason>
    ensures { Bounds found (written result) }
{
    let net = found?;
    Ok(starts_and_messages(&net))
}
