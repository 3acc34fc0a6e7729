// The run over a step list, equal to the method's: starts, deliveries, steps, counts.
#![tactic(auto)]

ghost use Rattle.std.specs.Prelude.{◌≡◌, ◌+◌, ◌-◌, ◌/◌, ◌%◌, ◌<◌};
ghost use Rattle.method.specs.Network.{IsNode};
ghost use Rattle.method.specs.Steps.{byte_step, starting, delivering, step, counted};
ghost use Rattle.network.specs.Layout.{net_of};
ghost use Rattle.run_cells.specs.Part.{delivered_at, sent_count, cells, state_of};
ghost use Rattle.run.specs.Resting.{Resting, Acted, Done};
ghost use Rattle.run.specs.Ran.{kind_of, tallied, Ran};

use network::Network;
use run_cells::{Phase, State, places};
use run_node::{Chosen, work, work_from};

// What a step counts as.
#[derive(Clone, Copy, Debug, PartialEq, Eq, Hash)]
pub enum Kind {
    Taken,
    Idle,
    Unknown,
}

// A node is to start. `Resting` holds of a state and its network together, here and below: no type of the state alone can say it. The two
// are parameters of their own: one is lent to read and one to change, and a struct of the references would be taken apart at each use.
pub fn start(net: &Network, state: &mut State, node: u8) -> Kind
    requires { Resting net.now.layout (cells state.old) × IsNode net.now.layout.nodes node }
    ensures { Acted net.now.layout (cells state.old) node (cells state.new) (kind_of result)
        (starting (state_of (cells state.old) node).node.phase (net_of net.now.layout) (state_of (cells state.old)) node) }
{
    let number = usize::from(node);
    match state.parts[number - 1].phase {
        Phase::Started | Phase::Stopped => Kind::Idle,
        Phase::Unstarted => {
            state.parts[number - 1].begin(node);
            work(net, state, number);
            Kind::Taken
        }
    }
}

// The arc at a site hands over its head's oldest undelivered message. The tail chooses again the arc that it waits for: another, and it
// waits still; or this one, and it works on from there.
pub fn deliver(net: &Network, state: &mut State, site: u8) -> Kind
    requires { Resting net.now.layout (cells state.old) × IsNode net.now.layout.nodes (site / 16 + 1)
        × IsNode net.now.layout.nodes (site % 16 + 1)
        × (cells state.old (site / 16 + 1) (delivered_at + (site % 16 + 1)) < cells state.old (site % 16 + 1) sent_count) }
    ensures { Acted net.now.layout (cells state.old) (site / 16 + 1) (cells state.new) (kind_of result)
        (delivering (net_of net.now.layout) (state_of (cells state.old)) (site / 16 + 1) (site % 16 + 1)) }
{
    state.hand_over(site);
    if !state.waits_for(site) {
        return Kind::Taken;
    }
    let (tail, head) = places(site);
    match state.parts[tail].phase {
        Phase::Unstarted | Phase::Stopped => Kind::Taken,
        Phase::Started => {
            let chosen = Chosen {
                sum: usize::from(state.parts[tail].sums[head + 1]),
                head: head + 1,
            };
            work_from(net, state, tail + 1, chosen);
            Kind::Taken
        }
    }
}

// A step byte: a start or a delivery; then unknown, idle or taken. Decided by ranges of the byte, as document 01 has it.
pub fn step(net: &Network, state: &mut State, byte: u8) -> Kind
    requires { Resting net.now.layout (cells state.old) }
    ensures { Done net.now.layout (cells state.new) (kind_of result)
        (step (net_of net.now.layout) (state_of (cells state.old)) (byte_step byte)) }
{
    match byte {
        0..=15 => {
            if byte < net.layout.nodes {
                return start(net, state, byte + 1);
            }
            Kind::Unknown
        }
        16..=255 => {
            let arc = byte - 16;
            if arc < net.layout.count {
                let site = net.layout.sites[usize::from(arc)];
                if state.has_more(site) {
                    return deliver(net, state, site);
                }
                return Kind::Idle;
            }
            Kind::Unknown
        }
    }
}

// How many steps were taken, idle, unknown.
#[derive(Clone, Copy, Debug, PartialEq, Eq, Hash)]
pub struct Counts {
    pub taken: usize,
    pub idle: usize,
    pub unknown: usize,
}

impl Counts {
    // One step more of its kind: so the three add up to the number of steps.
    pub fn count(&mut self, kind: Kind)
        requires { (self.old.taken < 9223372036854775808) × (self.old.idle < 9223372036854775808)
            × (self.old.unknown < 9223372036854775808) }
        ensures { tallied self.new.taken self.new.idle self.new.unknown
            ≡ counted (kind_of kind) (tallied self.old.taken self.old.idle self.old.unknown) }
    {
        match kind {
            Kind::Taken => self.taken += 1,
            Kind::Idle => self.idle += 1,
            Kind::Unknown => self.unknown += 1,
        }
    }
}

// The run over the whole step list, from the beginning.
pub fn run(net: &Network, state: &mut State, steps: &[u8]) -> Counts
    ensures { Ran net.now.layout steps.now (cells state.new) (tallied result.taken result.idle result.unknown) }
{
    state.clear(net);
    let mut counts = Counts {
        taken: 0,
        idle: 0,
        unknown: 0,
    };
    for byte in steps {
        counts.count(step(net, state, *byte));
    }
    counts
}
