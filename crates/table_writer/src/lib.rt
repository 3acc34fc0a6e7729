// Writing a table file: the bits go into the room by whole bytes, and those of the byte begun are held.
#![tactic(auto)]

ghost use Rattle.std.specs.Prelude.{◌≡◌, ◌+◌, ◌-◌, ◌*◌, ◌/◌, ◌%◌, ◌^◌, ◌≤◌, ◌<◌, ◌++◌, length, take};
ghost use Rattle.bits.specs.Bits.{as_bits};
ghost use Rattle.call.specs.Files.{outcome, room_after};
ghost use Rattle.table.specs.File.{one, end_bits};
ghost use Rattle.table.specs.Size.{bytes_for};
ghost use Rattle.table.specs.Told.{told_in};
ghost use Rattle.table_writer.specs.Lent.{newest_first, lent_file};
ghost use Rattle.table_writer.specs.Code.{three_fields, flushed, records_bits};

use method::Filled;
use refusal::{Reason, Refusal};
use table::Header;

// How many bytes a file of so many records has, in numbers that cannot get too large: 13 bits are a byte and 5 bits.
fn size_of(records: &[Filled], stopped: bool) -> usize
    ensures { result ≡ bytes_for stopped (16 + 13 * length records.now) }
{
    let count = records.len();
    let further = 5 * count;
    if stopped {
        return 3 + count + further / 8;
    }
    2 + count + (further + 7) / 8
}

// A 1 and three fields of 4 bits.
fn join(a: u32, b: u32, c: u32) -> u32
    ensures { (result ≡ three_fields a b c) × (result < 8192) }
{
    ((16 + a % 16) * 16 + b % 16) * 16 + c % 16
}

// Stores the whole bytes of the n bits x from byte k on.
fn flush(room: &mut [u8], k: usize, n: usize, x: u32)
    requires { (8 ≤ n) × (n < 24) × (k + n / 8 ≤ length room.old) }
    ensures { room.new ≡ flushed room.old k n x }
{
    room[k] = ((x >> (n - 8)) % 256) as u8;
    if 16 <= n {
        room[k + 1] = ((x >> (n - 16)) % 256) as u8;
    }
}

// The byte begun: its place in the room, how many bits of it are held, and a number of which these are the last.
#[derive(Clone, Copy, Debug, PartialEq, Eq, Hash)]
struct Begun {
    at: usize,
    count: usize,
    held: u32,
    ghost small: { (count < 8) × (held < 256) },
}

impl Begun {
    ghost use Rattle.table_writer.specs.Adds.{place, Adds};

    // Adds a value of so many bits, and stores the bytes that are whole then.
    fn push(&mut self, room: &mut [u8], width: usize, value: u32)
        requires { (8 ≤ self.old.count + width) × (width ≤ 16) × (value < 2 ^ width) × (place self.old + width ≤ 8 * length room.old) }
        ensures bits { Adds room.old self.old room.new self.new (as_bits width value) }
        ensures moved { place self.new ≡ place self.old + width }
    {
        let count = self.count + width;
        let held = self.held * bits::power(width) + value;
        flush(room, self.at, count, held);
        *self = Begun {
            at: self.at + count / 8,
            count: count % 8,
            held: held % 256,
        };
    }

    // Adds records in the order of filling. What is too small to be less 1, or less the distance before, counts as 0.
    fn push_records(&mut self, room: &mut [u8], records: &[Filled])
        requires { place self.old + 13 * length records.now ≤ 8 * length room.old }
        ensures bits { Adds room.old self.old room.new self.new (records_bits one (newest_first records.now)) }
        ensures moved { place self.new ≡ place self.old + 13 * length records.now }
    {
        let mut before = 0;
        for record in records {
            let target = record.target.saturating_sub(1);
            let hop = record.hop.saturating_sub(1);
            let difference = record.distance.saturating_sub(before);
            self.push(
                room,
                13,
                join(u32::from(target), u32::from(hop), u32::from(difference)),
            );
            before = record.distance;
        }
    }

    // Ends the file: zeros from the end mark on, or ones, to the byte's end.
    fn push_end(&mut self, room: &mut [u8], stopped: bool)
        requires { bytes_for stopped (place self.old) ≤ length room.old }
        ensures bits { Adds room.old self.old room.new self.new (end_bits stopped (place self.old)) }
        ensures moved { place self.new ≡ 8 * bytes_for stopped (place self.old) }
    {
        let width = 8 - self.count;
        if stopped {
            self.push(room, width, 0);
        } else if width < 8 {
            self.push(room, width, bits::power(width) - 1);
        }
    }
}

// Writes the file of a node: its records in the order of filling, and the end mark if it has stopped. Refusal 13.
pub fn write_file(
    header: Header,
    records: &[Filled],
    stopped: bool,
    room: &mut [u8],
) -> Result<usize, Refusal>
    ensures { (told_in result ≡ outcome (lent_file header records.now stopped) room.old)
        × (room.new ≡ room_after (lent_file header records.now stopped) room.old) }
{
    let size = size_of(records, stopped);
    if room.len() < size {
        return Err(Reason::RoomTooShort.into());
    }
    let mut begun = Begun {
        at: 0,
        count: 0,
        held: 0,
    };
    let numbers = join(
        header.own.saturating_sub(1),
        header.n.saturating_sub(1),
        header.lmax,
    );
    begun.push(room, 16, numbers);
    begun.push_records(room, records);
    begun.push_end(room, stopped);
    Ok(size)
}
