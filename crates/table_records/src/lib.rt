// The walk over a table file: a cursor that goes from record to record, and what stands where the records end.
#![tactic(auto)]

ghost use Rattle.std.specs.Prelude.{◌≡◌, ◌+◌, ◌-◌, ◌*◌, ◌%◌, ◌≤◌, ◌<◌, ◌&&◌, ◌||◌, length, ltb, eqb, IfOk, IfErr};
ghost use Rattle.std.proofs.Props.{props};
ghost use Rattle.bits.specs.Bits.{bits_of, field};
ghost use Rattle.refusal.specs.Rows;
ghost use Rattle.refusal.specs.Told.{told};
ghost use Rattle.table.specs.File.{one};
ghost use Rattle.table.specs.Reader.{first_one, zero_bit, header_at, header_rows, end_rows, body_rows, end_of};
ghost use Rattle.table_header.specs.HasHeader.{HasHeader};
ghost use Rattle.table_records.specs.Parts.{bits_standing, field_place, FirstWrong, Concludes};
ghost use Rattle.table_records.specs.Walk.{is_in, beginning, before, At, Steps};

use method::Filled;
use refusal::{Reason, Refusal};
use table::{Ending, Header};

// Where a walk over the records is: the bit after those taken, their targets (target t has the bit of weight 2 ^ (t - 1)) and the last
// one's distance.
#[derive(Clone, Copy, Debug, PartialEq, Eq, Hash)]
pub struct Cursor {
    pub at: usize,
    pub seen: u32,
    pub distance: u32,
}

// The fields of a record.
#[derive(Clone, Copy, Debug, PartialEq, Eq, Hash)]
enum Field {
    Target,
    Hop,
    Difference,
}

impl Field {
    // Where the field begins in the record at bit p.
    fn place(self, p: usize) -> usize
        requires { p ≤ 224 }
        ensures { result ≡ field_place one p self }
    {
        match self {
            Field::Target => p + 1,
            Field::Hop => p + 5,
            Field::Difference => p + 9,
        }
    }
}

// The records of a table file with a sound header, from the cursor on.
#[derive(Clone, Copy)]
pub struct Records<'a> {
    pub file: &'a [u8],
    pub header: Header,
    pub cursor: Cursor,
    pub ghost sound: { HasHeader file.now header },
    pub ghost walked: { At one header (bits_of file.now) cursor (before header (bits_of file.now) cursor.at) } by { Prim.hlevel props },
}

// The 13 bits from bit p on, or 0 where fewer stand: below 4096 is no record.
// No Option: the first bit has to be tested in any case, so that one would be a second test of the same thing, no plainer.
fn record_at(file: &[u8], p: usize) -> u32
    requires { p ≤ 1024 }
    ensures { (result ≡ bits_standing (bits_of file.now) p) × (result < 8192) }
{
    let k = p / 8;
    // most records have three bytes; the last may lie in two
    if k + 2 < file.len() {
        return (bits::three(file, k) >> (11 - p % 8)) % 8192;
    }
    if file.len() < k + 2 || 3 < p % 8 {
        return 0;
    }
    (bits::two(file, k) >> (3 - p % 8)) % 8192
}

// The bits from bit p to its byte's end, with one index where bits::read looks at three bytes.
fn rest_of_byte(file: &[u8], p: usize) -> u32
    requires { p < 8 * length file.now }
    ensures { result ≡ field (bits_of file.now) p (8 - p % 8) }
{
    u32::from(file[p / 8]) % bits::power(8 - p % 8)
}

// The first bit from p on that is not 0, among w.
fn first_one(file: &[u8], p: usize, w: usize) -> usize
    requires { (p + w ≤ 8 * length file.now) × (p ≤ 1025) × (w ≤ 8) }
    ensures { result ≡ first_one (bits_of file.now) w p }
{
    for q in p..p + w {
        if bits::read(file, q, 1) != 0 {
            return q;
        }
    }
    p + w
}

// How the records end where none stands from bit p on. Refusal 18.
fn ending_at(file: &[u8], p: usize) -> Result<Ending, Refusal>
    requires { p ≤ 1024 }
    ensures { Concludes (Rows.first (end_rows (bits_of file.now) p)) (zero_bit (bits_of file.now) p) result }
{
    if file.len() <= p / 8 {
        return Ok(Ending::Unfinished);
    }
    let rest = rest_of_byte(file, p);
    if bits::power(7 - p % 8) <= rest {
        return Ok(Ending::Unfinished);
    }
    if rest != 0 {
        return Err(Refusal {
            reason: Reason::WrongFileEnd,
            place: first_one(file, p + 1, 7 - p % 8),
        });
    }
    if p / 8 + 1 < file.len() {
        return Err(Refusal {
            reason: Reason::WrongFileEnd,
            place: p + (8 - p % 8),
        });
    }
    Ok(Ending::Marked)
}

// Whether target t is in a set.
fn is_in(set: u32, t: u32) -> bool
    requires { (1 ≤ t) × (t ≤ 16) }
    ensures { result ≡ is_in set t }
{
    (set >> (t - 1)) % 2 == 1
}

// Refusal 17 of a record after the targets seen: its first wrong field. A distance is 0 if and only if the record is the first and its
// difference 0. The numbers come one by one: a struct of them would be made for this call alone and taken apart here, no plainer.
fn wrong_field(
    header: Header,
    seen: u32,
    target: u32,
    hop: u32,
    difference: u32,
    distance: u32,
) -> Option<Field>
    requires { (1 ≤ target) × (target ≤ 16) }
    ensures { FirstWrong one header (is_in seen target) target hop difference (eqb distance 0) result }
{
    if header.n < target || target == header.own || is_in(seen, target) {
        return Some(Field::Target);
    }
    if header.n < hop || hop == header.own {
        return Some(Field::Hop);
    }
    if header.lmax < difference || distance == 0 {
        return Some(Field::Difference);
    }
    None
}

impl<'a> Records<'a> {
    // All of them. Refusals 14 to 16.
    pub fn of(file: &'a [u8]) -> Result<Records<'a>, Refusal>
        ensures ok { IfOk result (λ records. (records.file.now ≡ file.now) × (records.cursor ≡ beginning)) }
        ensures err { IfErr result (λ r. told r ≡ Rows.first (header_rows one (header_at one (bits_of file.now)) file.now)) }
    {
        let header = table_header::parse(file)?;
        let cursor = Cursor {
            at: 16,
            seen: 0,
            distance: 0,
        };
        Ok(Records {
            file,
            header,
            cursor,
        })
    }

    // The next record, if one stands. Refusal 17. Not the method of an Iterator: whoever has taken all records asks these how they end.
    // It is set into each loop, since a call for each record takes more time.
    #[inline(always)]
    pub fn next(&mut self) -> Result<Option<Filled>, Refusal>
        ensures same { (self.new.file.now ≡ self.old.file.now) × (self.new.header ≡ self.old.header) }
        ensures steps { Steps self.old.header (bits_of self.old.file.now) self.old.cursor self.new.cursor result }
    {
        let Cursor { at, seen, distance } = self.cursor;
        let record = record_at(self.file, at);
        if record < 4096 {
            return Ok(None);
        }
        let target = record / 256 % 16 + 1;
        let hop = record / 16 % 16 + 1;
        let difference = record % 16;
        let distance = distance + difference;
        if let Some(field) = wrong_field(self.header, seen, target, hop, difference, distance) {
            return Err(Refusal {
                reason: Reason::WrongRecord,
                place: field.place(at),
            });
        }
        self.cursor = Cursor {
            at: at + 13,
            seen: seen + bits::power(target as usize - 1),
            distance,
        };
        Ok(Some(Filled {
            target: target as u8,
            distance: distance as u8,
            hop: hop as u8,
        }))
    }

    // How they end where none stands at the cursor. Refusal 18.
    pub fn end(&self) -> Result<Ending, Refusal>
        ensures { Concludes (Rows.first (end_rows (bits_of self.now.file.now) self.now.cursor.at))
            (zero_bit (bits_of self.now.file.now) self.now.cursor.at)
            result }
    {
        ending_at(self.file, self.cursor.at)
    }

    // How they end after all that stand. Refusals 17 and 18.
    pub fn ending(self) -> Result<Ending, Refusal>
        ensures { Concludes (Rows.first (body_rows one self.entry.header (bits_of self.entry.file.now)))
            (zero_bit (bits_of self.entry.file.now) (end_of one self.entry.header (bits_of self.entry.file.now)))
            result }
    {
        let mut records = self;
        while let Some(_) = records.next()? {}
        records.end()
    }
}
