// What the bench program "House table" writes for an input: a network's bytes, then step bytes.
#![tactic(auto)]

ghost use Rattle.std.specs.Prelude.{◌≡◌, ◌≤◌, min, length, IfOk};
ghost use Rattle.refusal.specs.Told.{number_in};
ghost use Rattle.network.specs.Checked.{from_bytes};
ghost use Rattle.house_words.specs.Room.{Front};
ghost use Rattle.house_text.specs.Lines.{house_text};
ghost use Rattle.house_text.specs.Handed.{handed_entry};
ghost use Rattle.house.specs.House.{asked, input_refusal, text_for, text};

use house_text::Counts;
use refusal::Reason;

// As many numbers as the entries of 16 nodes are, so that no run is refused with 13.
const ENTRY_NUMBERS: usize = 512;

// How long the text is that was written, and why the input was refused, if it was.
#[derive(Clone, Copy, Debug, PartialEq, Eq, Hash)]
pub struct Written {
    pub length: usize,
    pub outcome: Result<(), Reason>,
}

// Where the network's bytes end and the step bytes begin. An input that ends before its arc count is all network.
fn network_end(input: &[u8]) -> usize
    ensures { result ≡ min (asked input.now) (length input.now) }
{
    let count = usize::from(input.get(2).copied().unwrap_or(0));
    let asked = 3 + (12 * count).div_ceil(8);
    asked.min(input.len())
}

// Runs the network that bytes mean: the number of its nodes, and the counts; the entries are handed over.
fn run(
    network: &[u8],
    steps: &[u8],
    entries: &mut [u16; ENTRY_NUMBERS],
) -> Result<(usize, Counts), Reason>
    ensures refused { number_in result ≡ (from_bytes network.now).refused }
    ensures table { IfOk result (λ r. (r.0 ≤ 16)
        × (house_text r.1.taken r.1.idle r.1.unknown r.1.stopped r.0 (handed_entry r.0 entries.new)
        ≡ text_for (from_bytes network.now) steps.now)) }
{
    let network = network_bytes::check(network)?;
    let n = usize::from(network.layout.nodes);
    let mut counts = [0u64; 4];
    call_run::run(Ok(network), steps, &mut counts, entries)?;
    let [taken, idle, unknown, stopped] = counts;
    let counts = Counts {
        taken,
        idle,
        unknown,
        stopped,
    };
    Ok((n, counts))
}

// Writes an input's text at the beginning of the room. Bytes of the room beyond the text stay.
pub fn house_table(input: &[u8], room: &mut [u8; 8192]) -> Written
    ensures text { Front room.old (text input.now) room.new result.length }
    ensures outcome { number_in result.outcome ≡ input_refusal input.now }
{
    let (network, steps) = input.split_at(network_end(input));
    let mut entries = [0u16; ENTRY_NUMBERS];
    match run(network, steps, &mut entries) {
        Ok((n, counts)) => Written {
            length: house_text::house(room, counts, n, &entries),
            outcome: Ok(()),
        },
        Err(reason) => Written {
            length: house_text::refused(room, u64::from(u32::from(reason))),
            outcome: Err(reason),
        },
    }
}
