// The header of a table file.
#![tactic(auto)]

ghost use Rattle.table_header.specs.HasHeader.{Parses};

use refusal::{Reason, Refusal};
use table::Header;

// What the header says. Refusals 14 to 16.
pub fn parse(file: &[u8]) -> Result<Header, Refusal>
    ensures { Parses file.now result }
{
    if file.len() < 2 {
        return Err(Refusal {
            reason: Reason::FileTooShort,
            place: 8 * file.len(),
        });
    }
    if bits::nibble(file, 0) != 1 {
        return Err(Reason::WrongFileVersion.into());
    }
    let header = Header {
        own: bits::nibble(file, 1) + 1,
        n: bits::nibble(file, 2) + 1,
        lmax: bits::nibble(file, 3),
    };
    if header.n < header.own {
        return Err(Refusal {
            reason: Reason::WrongFileHeader,
            place: 4,
        });
    }
    if header.lmax == 0 {
        return Err(Refusal {
            reason: Reason::WrongFileHeader,
            place: 12,
        });
    }
    Ok(header)
}
