// A run's state, a part for each node, and the stores that the rules ask for. A store touches one node's part alone.
#![tactic(auto)]

ghost use Rattle.std.specs.Prelude.{◌≡◌, ◌+◌, ◌/◌, ◌%◌, ◌≤◌, ◌<◌};
ghost use Rattle.run_cells.specs.Part.{sent_most, entry_most, table_size, delivered_at, targets_at, numbers};
ghost use Rattle.run_cells.specs.Stores.{Rises, raised, pushed, length_sent, waited, noted, filled, stopped_part};
ghost use Rattle.run_cells.specs.Stores.{begun_part, waiting, took, zeroed, with_sums};

mod together;

use method::Filled;
use network::Network;

// 01's most nodes; places of a table by head or target, 0 to 16; messages sent at most (law l, with 01's most LMAX).
pub const NODES_MOST: usize = 16;

const TABLE: usize = NODES_MOST + 1;

const SENT_MOST: usize = (NODES_MOST - 1) * 15 + NODES_MOST + 2;

// Codes of messages: 0 the end, up to this a label, above it a length by its rise. An enum of the three would take two bytes of memory a
// message, and the state must lie within a stack of 8 KiB; so too an `Option` for each mark.
pub const LABELS: u8 = 16;

// No sum, or one that no node goes on with.
pub const NO_SUM: u8 = 255;

// A node's phases, in their order.
#[repr(u8)]
#[derive(Clone, Copy, Debug, PartialEq, Eq, Hash)]
pub enum Phase {
    Unstarted,
    Started,
    Stopped,
}

// One node's part of a run.
#[derive(Clone, Copy)]
pub struct Part {
    pub phase: Phase,
    // How many messages are sent, and how many entries filled: there is no heap, so their arrays are as long as they may grow.
    pub sent: u8,
    pub filled: u8,
    pub lp: u8,
    // The last length sent, and the head of the arc that the node waits for.
    pub last: u8,
    pub waits: u8,
    // By head: messages delivered and taken, and the sum of the arc's length and its current item. A choice goes over the sums alone: an
    // array of structs would mix them with the others, and is no plainer.
    pub delivered: [u8; TABLE],
    pub taken: [u8; TABLE],
    pub sums: [u8; TABLE],
    // By target: which entry it has, counted from 1; 0 for none.
    pub marks: [u8; TABLE],
    // In the order of filling, and of sending.
    pub entries: [Filled; NODES_MOST],
    pub messages: [u8; SENT_MOST],
}

// All parts: that of node 1 stands first. A node's number is a plain number: a type of its own would ask for its range wherever one is
// built, and few functions are left that ask for it.
#[derive(Drop)]
pub struct State {
    pub parts: [Part; NODES_MOST],
}

// Where the parts of the tail and of the head of the arc at a site stand.
pub fn places(site: u8) -> (usize, usize)
    ensures { (result.0 ≡ site / 16) × (result.1 ≡ site % 16) }
{
    (usize::from(site / 16), usize::from(site % 16))
}

// Room for a message or an entry is asked of the caller: each store uses some up, so that no fact of the type could say it.
impl Part {
    // A message is sent.
    pub fn push(&mut self, message: u8)
        requires { self.old.sent < sent_most }
        ensures { numbers self.new ≡ pushed (numbers self.old) message }
    {
        self.messages[usize::from(self.sent)] = message;
        self.sent += 1;
    }

    // A length is sent as its rise over the last, unless it was the last.
    pub fn send_length(&mut self, length: u8)
        requires { Rises (numbers self.old) length × (self.old.sent < sent_most) }
        ensures { numbers self.new ≡ length_sent (numbers self.old) length }
    {
        if self.last != length {
            self.push(LABELS + (length - self.last));
            self.last = length;
        }
    }

    // Rule 3: a length is sent, and the node waits for its arc to a head.
    pub fn wait(&mut self, length: u8, head: u8)
        requires { Rises (numbers self.old) length × (self.old.sent < sent_most) }
        ensures { numbers self.new ≡ waited (numbers self.old) length head }
    {
        self.send_length(length);
        self.waits = head;
    }

    // An entry is filled, and LP is its distance.
    pub fn note(&mut self, entry: Filled)
        requires { (entry.target < table_size) × (self.old.filled < entry_most) }
        ensures { numbers self.new ≡ noted (numbers self.old) entry.target entry.distance entry.hop }
    {
        self.entries[usize::from(self.filled)] = entry;
        self.filled += 1;
        self.marks[usize::from(entry.target)] = self.filled;
        self.lp = entry.distance;
    }

    // Rule 4, a label with no entry yet.
    pub fn fill(&mut self, entry: Filled)
        requires { Rises (numbers self.old) entry.distance × (entry.target < table_size) × (self.old.sent + 1 < sent_most)
            × (self.old.filled < entry_most) }
        ensures { numbers self.new ≡ filled (numbers self.old) entry.hop entry.distance entry.target }
    {
        self.send_length(entry.distance);
        self.push(entry.target);
        self.note(entry);
    }

    // Rule 2: the end is sent, and the node stops.
    pub fn stop(&mut self)
        requires { self.old.sent < sent_most }
        ensures { numbers self.new ≡ stopped_part (numbers self.old) }
    {
        self.push(0);
        self.phase = Phase::Stopped;
    }

    // One more message is delivered on the arc to a head.
    fn deliver(&mut self, head: usize)
        requires { (head < table_size) × (numbers self.old (delivered_at + head) < 255) }
        ensures { numbers self.new ≡ raised (numbers self.old) (delivered_at + head) }
    {
        self.delivered[head] += 1;
    }

    // One more message is taken on the arc to a head, if one is there: its number in the order of sending.
    fn take(&mut self, head: usize) -> Option<u8>
        requires { (head < table_size) }
        ensures { (numbers self.new ≡ took (numbers self.old) head) × (result ≡ waiting (numbers self.old) head) }
    {
        let taken = self.taken[head];
        if self.delivered[head] <= taken {
            return None;
        }
        self.taken[head] = taken + 1;
        Some(taken)
    }

    // As it is before the first step: no phase, no messages, no entries, nothing delivered or taken. Each arc's sum is its length until a
    // message comes, 255 where there is no arc, as to number 0, which is no node: a node then chooses without looking at the network.
    // A type for the node's number would be built with the same fact at each caller: no plainer.
    pub fn clear(&mut self, net: &Network, node: usize)
        requires { (1 ≤ node) × (node < table_size) }
        ensures { numbers self.new ≡ with_sums net.now.layout node (zeroed (numbers self.old) targets_at) table_size }
    {
        self.phase = Phase::Unstarted;
        self.sent = 0;
        self.filled = 0;
        self.lp = 0;
        self.last = 0;
        self.waits = 0;
        self.delivered = [0; TABLE];
        self.taken = [0; TABLE];
        self.marks = [0; TABLE];
        // One by one: `copy_from_slice` would have the library need `memmove`, and the build for ARM takes no comparison of addresses.
        let mut sums = [NO_SUM; TABLE];
        for head in 0..NODES_MOST {
            sums[head + 1] = net.layout.lengths[16 * (node - 1) + head];
        }
        self.sums = sums;
    }

    // A node's start, but for its work.
    pub fn begin(&mut self, node: u8)
        requires { (node < table_size) × (self.old.sent < sent_most) × (self.old.filled < entry_most) }
        ensures { numbers self.new ≡ begun_part (numbers self.old) node }
    {
        self.push(node);
        self.note(Filled {
            target: node,
            distance: 0,
            hop: 0,
        });
        self.phase = Phase::Started;
    }
}
