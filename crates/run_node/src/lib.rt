// A node's work: rules 1 to 4, until it waits or stops.
#![tactic(auto)]

ghost use Rattle.std.specs.Prelude.{◌≡◌, ◌+◌, ◌-◌, ◌≤◌, ◌<◌, ltb, if◌then◌else◌};
ghost use Rattle.run_cells.specs.Part.{numbers, cells, table_size, label_most, no_sum};
ghost use Rattle.run_cells.specs.Stores.{Stored, Rises};
ghost use Rattle.run_node.specs.Rules.{IsChoice, hears, takes, heard_of, took_of, Able, Room};
ghost use Rattle.run_node.specs.Working.{Working, Worked};

use method::Filled;
use network::Network;
use run_cells::*;

// Codes up to this are the end and labels, which are numbers of nodes: `LABELS`, as wide as a code is here.
const LABEL_MOST: usize = LABELS as usize;

// A chosen arc: its sum, and its head. No sum is the number 255, as in `least` of specs/Rules, and not a `None`: a choice is one comparison
// of two sums. Both are plain numbers, as there; a part keeps them as bytes, to be small.
#[derive(Clone, Copy, Debug, PartialEq, Eq, Hash)]
pub struct Chosen {
    pub sum: usize,
    pub head: usize,
}

impl Chosen {
    // The lesser sum of two; of equals this one, which has the lower head: `min` of an `Ord` would compare the heads too, for nothing.
    pub fn lesser(self, other: Chosen) -> Chosen
        ensures { result ≡ (if ltb other.sum self.sum then other else self) }
    {
        if other.sum < self.sum { other } else { self }
    }
}

// Rule 1: of a node's arcs the one with the least sum; of equals, the lowest head. Heads 1 to 8 and 9 to 16 side by side, since neither
// half has to wait for the other. Both numbers fit a byte, which the type of a choice does not say.
pub fn choose(part: &Part) -> Chosen
    ensures { IsChoice (numbers part.now) result.sum result.head × (result.sum ≤ no_sum) × (result.head < table_size) }
{
    let none = Chosen {
        sum: usize::from(NO_SUM),
        head: 0,
    };
    let mut low = none;
    let mut high = none;
    for head in 1..=8 {
        low = low.lesser(Chosen {
            sum: usize::from(part.sums[head]),
            head,
        });
        high = high.lesser(Chosen {
            sum: usize::from(part.sums[8 + head]),
            head: 8 + head,
        });
    }
    low.lesser(high)
}

// What came of the chosen arc: nothing further, a label, or a length or the end.
#[derive(Clone, Copy, Debug, PartialEq, Eq, Hash)]
pub enum Heard {
    Nothing,
    Label,
    Length,
}

// Rule 4: a message on the chosen arc is heard. A length comes as its rise, which the sum rises by: the new sum fits a byte, which the code
// need not.
pub fn hear(part: &mut Part, chosen: Chosen, message: usize) -> Heard
    requires { (chosen.head < table_size) × (chosen.sum + (message - label_most) ≤ no_sum) × Rises (numbers part.old) chosen.sum
        × Room (numbers part.old) message }
    ensures { (numbers part.new ≡ hears (numbers part.old) chosen.head chosen.sum message)
        × (result ≡ heard_of message) }
{
    match message {
        0 => {
            part.sums[chosen.head] = NO_SUM;
            Heard::Length
        }
        1..=LABEL_MOST => {
            if part.marks[message] != 0 {
                return Heard::Label;
            }
            part.fill(Filled {
                target: message as u8,
                distance: chosen.sum as u8,
                hop: chosen.head as u8,
            });
            Heard::Label
        }
        _ => {
            part.sums[chosen.head] = (chosen.sum + (message - LABEL_MOST)) as u8;
            Heard::Length
        }
    }
}

// Rules 3 and 4: the next message of the chosen arc is taken; or there is none, and the node waits for it.
pub fn take(state: &mut State, node: usize, chosen: Chosen) -> Heard
    requires { Able (cells state.old) node chosen.head chosen.sum }
    ensures { Stored (cells state.old) node (takes (cells state.old) node chosen.head chosen.sum) (cells state.new)
        × (result ≡ took_of (cells state.old) node chosen.head) }
{
    match state.take(node, chosen.head) {
        None => {
            state.parts[node - 1].wait(chosen.sum as u8, chosen.head as u8);
            Heard::Nothing
        }
        Some(message) => hear(&mut state.parts[node - 1], chosen, usize::from(message)),
    }
}

// The work of a node from the arc that is first chosen: choosing and taking, until it must wait or has stopped. Two loops left by label, as
// document 01 has it. The network is lent to read and the state to change: a struct of the two references would be taken apart at each
// use, no plainer.
pub fn work_from(net: &Network, state: &mut State, node: usize, first: Chosen)
    requires { Working net.now.layout (cells state.old) node × IsChoice (cells state.old node) first.sum first.head }
    ensures { Worked net.now.layout (cells state.old) node (cells state.new) }
{
    let mut chosen = first;
    'choose: loop {
        if usize::from(state.parts[node - 1].lp + net.layout.lmax) < chosen.sum {
            state.parts[node - 1].stop();
            break 'choose;
        }
        'take: loop {
            let heard = take(state, node, chosen);
            match heard {
                Heard::Nothing => break 'choose,
                Heard::Label => {}
                Heard::Length => break 'take,
            }
        }
        chosen = choose(&state.parts[node - 1]);
    }
}

// The work of a node, from the choice of an arc.
pub fn work(net: &Network, state: &mut State, node: usize)
    requires { Working net.now.layout (cells state.old) node }
    ensures { Worked net.now.layout (cells state.old) node (cells state.new) }
{
    let first = choose(&state.parts[node - 1]);
    work_from(net, state, node, first);
}
