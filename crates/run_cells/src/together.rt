// What needs the parts of more than one node.
#![tactic(auto)]

ghost use Rattle.std.specs.Prelude.{◌≡◌, ℕ, ◌+◌, ◌/◌, ◌%◌, ◌≤◌, ◌<◌, ltb, eqb};
ghost use Rattle.run_cells.specs.Part.{sent_most, table_size, waits_at, delivered_at, taken_at, sent_count, cells};
ghost use Rattle.run_cells.specs.Stores.{Stored, raised, arrived, took, cleared};

use crate::{NODES_MOST, Part, Phase, SENT_MOST, State, TABLE, places};
use method::Filled;
use network::Network;

impl State {
    // Nothing yet: `clear` lays a network's arcs.
    pub fn new() -> State
        ensures { (i o : ℕ) → cells result i o ≡ 0 }
    {
        State {
            parts: [Part {
                phase: Phase::Unstarted,
                sent: 0,
                filled: 0,
                lp: 0,
                last: 0,
                waits: 0,
                delivered: [0; TABLE],
                taken: [0; TABLE],
                sums: [0; TABLE],
                marks: [0; TABLE],
                entries: [Filled {
                    target: 0,
                    distance: 0,
                    hop: 0,
                }; NODES_MOST],
                messages: [0; SENT_MOST],
            }; NODES_MOST],
        }
    }

    // All parts as they are before the first step.
    pub fn clear(&mut self, net: &Network)
        ensures { cells self.new ≡ cleared net.now.layout (cells self.old) 16 }
    {
        for i in 0..NODES_MOST {
            self.parts[i].clear(net, i + 1);
        }
    }

    // The head of the arc at a site has sent more than was delivered on it. Most steps of a long list end here or soon after.
    pub fn has_more(&self, site: u8) -> bool
        ensures { result ≡ ltb (cells self.now (site / 16 + 1) (delivered_at + (site % 16 + 1)))
            (cells self.now (site % 16 + 1) sent_count) }
    {
        let (tail, head) = places(site);
        self.parts[tail].delivered[head + 1] < self.parts[head].sent
    }

    // One more is delivered on the arc at a site.
    pub fn hand_over(&mut self, site: u8)
        requires { cells self.old (site / 16 + 1) (delivered_at + (site % 16 + 1)) < 255 }
        ensures { Stored (cells self.old) (site / 16 + 1)
            (raised (cells self.old (site / 16 + 1)) (delivered_at + (site % 16 + 1))) (cells self.new) }
    {
        let (tail, head) = places(site);
        self.parts[tail].deliver(head + 1);
    }

    // The tail of the arc at a site waits for its head.
    pub fn waits_for(&self, site: u8) -> bool
        ensures { result ≡ eqb (cells self.now (site / 16 + 1) waits_at) (site % 16 + 1) }
    {
        let (tail, head) = places(site);
        usize::from(self.parts[tail].waits) == head + 1
    }

    // The oldest message that the arc from a node to a head has delivered and the node has not taken: it is taken. Types for
    // the two numbers would be built with the same facts at each caller: no plainer.
    pub fn take(&mut self, node: usize, head: usize) -> Option<u8>
        requires { (1 ≤ node) × (node < table_size) × (1 ≤ head) × (head < table_size)
            × (cells self.old node (taken_at + head) < cells self.old node (delivered_at + head)
            → cells self.old node (taken_at + head) < sent_most) }
        ensures { (result ≡ arrived (cells self.old) node head)
            × Stored (cells self.old) node (took (cells self.old node) head) (cells self.new) }
    {
        let place = self.parts[node - 1].take(head)?;
        Some(self.parts[head - 1].messages[usize::from(place)])
    }
}
