// Reading a table file: any bytes are refused with a reason and a place, or are entries.
#![tactic(auto)]

ghost use Rattle.std.specs.Prelude.{◌≡◌, ◌*◌, ◌≤◌, length};
ghost use Rattle.bits.specs.Bits.{bits_of};
ghost use Rattle.method.specs.Entries;
ghost use Rattle.method.specs.Marks.{distance_of, hop_of};
ghost use Rattle.method.specs.Meant.{meant};
ghost use Rattle.table.specs.File.{one};
ghost use Rattle.table.specs.Reader.{records_in, reading, entry_read};
ghost use Rattle.table.specs.Told.{told_in, read_of, is_marked};
ghost use Rattle.call.specs.Files.{entries_outcome, table_room};
ghost use Rattle.table_records.specs.Walk.{beginning};
ghost use Rattle.table_reader.specs.Code.{found_of, answered};
ghost use Rattle.table_reader.specs.Listing.{with_entry, with_absent, with_records, all_outcome, all_room};

use method::{Entry, Filled};
use refusal::{Reason, Refusal};
use table::{Ending, Header};
use table_records::Records;

// The entry for a target in a file with this header whose records end so, where found is the target's record, if there is one.
// Refusal 11.
fn entry_by(
    header: Header,
    ending: Ending,
    target: u32,
    found: Option<Filled>,
) -> Result<Entry, Refusal>
    ensures { read_of result ≡ answered header (is_marked ending) target (found_of found) }
{
    if target == 0 || header.n < target {
        return Err(Reason::NoSuchNode.into());
    }
    if target == header.own {
        return Ok(Entry::Known {
            distance: 0,
            hop: 0,
        });
    }
    match found {
        Some(record) => Ok(Entry::from(record)),
        None => Ok(ending.absent()),
    }
}

// The entry for a target in a table file. Refusals 14 to 18, then 11.
pub fn read_entry(file: &[u8], target: u32) -> Result<Entry, Refusal>
    ensures { read_of result ≡ entry_read one file.now target }
{
    let mut records = Records::of(file)?;
    let mut found = None;
    while let Some(record) = records.next()? {
        if u32::from(record.target) == target {
            found = Some(record);
        }
    }
    // An arm for each ending, so that the code for either has its mark as a constant: with one for both, a file without records took a
    // fifth more time.
    match records.end()? {
        Ending::Unfinished => entry_by(records.header, Ending::Unfinished, target, found),
        Ending::Marked => entry_by(records.header, Ending::Marked, target, found),
    }
}

// Stores the entry for y: its distance, or its mark, as number 2 * (y - 1), and its first hop after it. `run_rows` stores at a place of a
// row: each says where in the words of its own room, and the two stores are all that they share; no plainer.
fn put_entry(room: &mut [u16], y: u32, entry: Entry)
    requires { (1 ≤ y) × (2 * y ≤ length room.old) }
    ensures { room.new ≡ with_entry room.old y (distance_of (meant entry)) (hop_of (meant entry)) }
{
    let k = 2 * (y as usize - 1);
    room[k] = entry.distance().0;
    room[k + 1] = entry.hop();
}

// Stores what a missing record says for 1 to n.
fn put_absent(room: &mut [u16], n: u32, absent: Entry)
    requires { 2 * n ≤ length room.old }
    ensures { room.new ≡ with_absent (meant absent) n room.old }
{
    for y in 1..=n {
        put_entry(room, y, absent);
    }
}

// Stores the records of a file, as far as they pass.
fn put_records(room: &mut [u16], mut records: Records<'_>)
    requires { (records.cursor ≡ beginning) × (2 * records.header.n ≤ length room.old) }
    ensures { room.new ≡ with_records (records_in one records.entry.header (bits_of records.entry.file.now)) room.old }
{
    while let Ok(Some(record)) = records.next() {
        put_entry(room, u32::from(record.target), Entry::from(record));
    }
}

// Stores all entries of a file whose records passed, where absent is what a missing record says. Refusal 13.
fn put_all(records: Records<'_>, absent: Entry, room: &mut [u16]) -> Result<usize, Refusal>
    requires { records.cursor ≡ beginning }
    ensures { (told_in result ≡ all_outcome records.entry.header.n room.old)
        × (room.new ≡ all_room records.entry.header.own records.entry.header.n (meant absent)
        (records_in one records.entry.header (bits_of records.entry.file.now))
        room.old) }
{
    let header = records.header;
    let size = 2 * header.n as usize;
    if room.len() < size {
        return Err(Reason::RoomTooShort.into());
    }
    put_absent(room, header.n, absent);
    put_records(room, records);
    put_entry(
        room,
        header.own,
        Entry::Known {
            distance: 0,
            hop: 0,
        },
    );
    Ok(size)
}

// All entries of a table file of n nodes, as 2 * n numbers from the room's start on: for each target from 1 to n its distance, or its
// mark, and its first hop. The rest of the room stays. Refusals 14 to 18, then 13.
pub fn read_entries(file: &[u8], room: &mut [u16]) -> Result<usize, Refusal>
    ensures { (told_in result ≡ entries_outcome (reading one file.now) room.old)
        × (room.new ≡ table_room (reading one file.now) room.old) }
{
    let records = Records::of(file)?;
    let ending = records.ending()?;
    put_all(records, ending.absent(), room)
}
