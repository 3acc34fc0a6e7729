// Table files read, for the firmware and for service desks: one entry, and all of them.
#![tactic(auto)]

ghost use Rattle.call.specs.Files.{ReadPromise, TablePromise};

// The entry for a target in a table file. Refusals 14 to 18, then 11.
pub fn read_entry(file: &[u8], target: u32) -> u32
    ensures { ReadPromise file.now target result }
{
    match table_reader::read_entry(file, target) {
        Ok(entry) => call::entered(Ok(entry)),
        Err(refusal) => u32::from(refusal.reason),
    }
}

// All entries of a table file of n nodes, as 2 * n numbers from the room's start on. Refusals 14 to 18, then 13.
pub fn read_table(file: &[u8], room: &mut [u16]) -> u32
    ensures { TablePromise file.now room.old result room.new }
{
    match table_reader::read_entries(file, room) {
        Ok(count) => call::written(Ok(count as u16)),
        Err(refusal) => u32::from(refusal.reason),
    }
}
