// The lines that the bench program "House table" writes, put into a room that the caller lends.
#![tactic(auto)]

ghost use Rattle.std.specs.Prelude.{◌≡◌, [], ◌∷◌, ◌++◌, ◌+◌, ◌*◌, ◌≤◌, ◌<◌, length};
ghost use Rattle.method.specs.Network.{IsNode};
ghost use Rattle.method.specs.Marks;
ghost use Rattle.method.specs.Meant.{meant};
ghost use Rattle.house_words.specs.Decimal.{decimal};
ghost use Rattle.house_words.specs.Room.{Front};
ghost use Rattle.house_words.specs.Texts.{Fits, Appends};
ghost use Rattle.house_text.specs.Lines.{counts_line, distance_hop, entry_line, rising, node_lines, house_text, refused_line};
ghost use Rattle.house_text.specs.Handed.{entry_by, handed_entry};
ghost use Rattle.house_text.specs.Room.{longest, longest_refused};

use house_words::Text;
use method::{Distance, Entry};

// How many steps were taken, idle and unknown, and how many nodes have stopped.
#[derive(Clone, Copy, Debug, PartialEq, Eq, Hash)]
pub struct Counts {
    pub taken: u64,
    pub idle: u64,
    pub unknown: u64,
    pub stopped: u64,
}

// The entries of n nodes as a call hands them over, two numbers for each.
#[derive(Clone, Copy, Debug)]
struct Entries<'a> {
    n: usize,
    numbers: &'a [u16],
    ghost stand: { (n ≤ 16) × (2 * (n * n) ≤ length numbers.now) },
}

impl Entries<'_> {
    // Where a node's entry for a target stands: it has room for both of its numbers.
    fn place(&self, node: usize, target: usize) -> usize
        requires { IsNode self.now.n node × IsNode self.now.n target }
        ensures { (result ≡ Marks.place self.now.n node target) × (result + 1 < length self.now.numbers.now) }
    {
        2 * (self.n * (node - 1) + (target - 1))
    }

    // A node's entry for a target.
    fn entry(&self, node: usize, target: usize) -> Entry
        requires { IsNode self.now.n node × IsNode self.now.n target }
        ensures { meant result ≡ handed_entry self.now.n self.now.numbers.now node target }
    {
        let p = self.place(node, target);
        entry_by(self.numbers[p], self.numbers[p + 1])
    }
}

// The entry that a distance, or a mark in its place, and a first hop are.
fn entry_by(distance: u16, hop: u16) -> Entry
    ensures { meant result ≡ entry_by distance hop }
{
    if Distance(distance).is_unknown() {
        return Entry::Unknown;
    }
    if Distance(distance).is_unreachable() {
        return Entry::Unreachable;
    }
    Entry::Known { distance, hop }
}

// The line of counts.
fn counts_line(text: &mut Text<'_>, counts: Counts)
    requires { Fits text.old (counts_line counts.taken counts.idle counts.unknown counts.stopped) }
    ensures { Appends text.old (counts_line counts.taken counts.idle counts.unknown counts.stopped) text.new }
{
    text.numbered(b"taken ", counts.taken);
    text.numbered(b" idle ", counts.idle);
    text.numbered(b" unknown ", counts.unknown);
    text.numbered(b" stopped ", counts.stopped);
    text.put(b'\n');
}

// An entry's distance and first hop, or what stands for unknown and unreachable.
fn distance_hop(text: &mut Text<'_>, entry: Entry)
    requires { Fits text.old (distance_hop (meant entry)) }
    ensures { Appends text.old (distance_hop (meant entry)) text.new }
{
    match entry {
        Entry::Unknown => text.word(b"? ?"),
        Entry::Unreachable => text.word(b"- -"),
        Entry::Known { distance, hop } => {
            text.number(u64::from(distance));
            text.numbered(b" ", u64::from(hop));
        }
    }
}

// The line of an entry. `as`, since u64 has no From<usize>.
fn entry_line(text: &mut Text<'_>, node: usize, target: usize, entry: Entry)
    requires { Fits text.old (entry_line node target (meant entry)) }
    ensures { Appends text.old (entry_line node target (meant entry)) text.new }
{
    text.number(node as u64);
    text.numbered(b" ", target as u64);
    text.put(b' ');
    distance_hop(text, entry);
    text.put(b'\n');
}

// One node's lines for the targets 1 to n.
fn node_lines(text: &mut Text<'_>, entries: &Entries<'_>, node: usize)
    requires is_node { IsNode entries.now.n node }
    requires has_room { Fits text.old (node_lines (handed_entry entries.now.n entries.now.numbers.now) entries.now.n node) }
    ensures { Appends text.old (node_lines (handed_entry entries.now.n entries.now.numbers.now) entries.now.n node) text.new }
{
    for target in 1..=entries.n {
        entry_line(text, node, target, entries.entry(node, target));
    }
}

// The lines of the nodes 1 to n.
fn all_lines(text: &mut Text<'_>, entries: &Entries<'_>)
    requires { Fits text.old (rising (node_lines (handed_entry entries.now.n entries.now.numbers.now) entries.now.n) entries.now.n) }
    ensures { Appends text.old (rising (node_lines (handed_entry entries.now.n entries.now.numbers.now) entries.now.n) entries.now.n)
        text.new }
{
    for node in 1..=entries.n {
        node_lines(text, entries, node);
    }
}

// Writes a house's text at the beginning of the room and gives its length. Bytes of the room beyond the text stay.
pub fn house(room: &mut [u8], counts: Counts, n: usize, numbers: &[u16]) -> usize
    requires { (longest ≤ length room.old) × (n ≤ 16) × (2 * (n * n) ≤ length numbers.now) }
    ensures { Front room.old (house_text counts.taken counts.idle counts.unknown counts.stopped n (handed_entry n numbers.now))
        room.new result }
{
    let mut text = Text::new(room);
    counts_line(&mut text, counts);
    all_lines(&mut text, &Entries { n, numbers });
    text.finish()
}

// Writes a refusal's line at the beginning of the room and gives its length. Bytes of the room beyond the line stay.
pub fn refused(room: &mut [u8], number: u64) -> usize
    requires { longest_refused ≤ length room.old }
    ensures { Front room.old (refused_line number) room.new result }
{
    let mut line = Text::new(room);
    line.numbered(b"refused ", number);
    line.put(b'\n');
    line.finish()
}
