// A text of words and numbers, written into a room that the caller lends, from its start on.
#![tactic(auto)]

ghost use Rattle.std.specs.Prelude.{◌≡◌, [], ◌∷◌, ◌++◌};
ghost use Rattle.house_words.specs.Decimal.{decimal};
ghost use Rattle.house_words.specs.Texts.{IsEmptyIn, Fits, Appends};
ghost use Rattle.house_words.specs.Writing.{HasRoom, Written};

// A lent room, and how much of its front is written.
#[derive(Drop)]
pub struct Text<'a> {
    pub room: &'a mut [u8],
    pub end: usize,
}

// One byte at a place of the room; the place after it.
fn put_byte(room: &mut [u8], at: usize, byte: u8) -> usize
    requires { HasRoom room.old at (byte ∷ []) }
    ensures { Written room.old at (byte ∷ []) room.new result }
{
    room[at] = byte;
    at + 1
}

// The digits of a number from a place of the room on: those of its tenth, if it has more than one, and then the last; the place after
// them. The place is handed on by value, and the methods of a text are set into their callers: in a text that is lent, the place would be
// loaded and stored again for each byte, which took twice the time. `as`, since the digits are proved to fit a byte, where `try_from`
// would want an unwrap.
fn put_digits(room: &mut [u8], at: usize, x: u64) -> usize
    requires { HasRoom room.old at (decimal x) }
    ensures { Written room.old at (decimal x) room.new result }
{
    if x < 10 {
        return put_byte(room, at, b'0' + x as u8);
    }
    let last = put_digits(room, at, x / 10);
    put_byte(room, last, b'0' + (x % 10) as u8)
}

impl<'a> Text<'a> {
    // Nothing is written yet.
    pub fn new(room: &'a mut [u8]) -> Text<'a>
        ensures { IsEmptyIn room.entry result }
    {
        Text { room, end: 0 }
    }

    // One byte.
    #[inline(always)]
    pub fn put(&mut self, byte: u8)
        requires { Fits self.old (byte ∷ []) }
        ensures { Appends self.old (byte ∷ []) self.new }
    {
        self.end = put_byte(self.room, self.end, byte);
    }

    // The bytes of a word.
    #[inline(always)]
    pub fn word(&mut self, word: &[u8])
        requires { Fits self.old word.now }
        ensures { Appends self.old word.now self.new }
    {
        for &byte in word {
            self.put(byte);
        }
    }

    // A number's decimal digits. By hand: `write!` promises its bytes only where it gives `Ok`, while `house_text::house` cannot fail, and
    // the crate itoa would be one more to trust.
    #[inline(always)]
    pub fn number(&mut self, x: u64)
        requires { Fits self.old (decimal x) }
        ensures { Appends self.old (decimal x) self.new }
    {
        self.end = put_digits(self.room, self.end, x);
    }

    // A word with a number after it.
    #[inline(always)]
    pub fn numbered(&mut self, word: &[u8], x: u64)
        requires { Fits self.old (word.now ++ decimal x) }
        ensures { Appends self.old (word.now ++ decimal x) self.new }
    {
        self.word(word);
        self.number(x);
    }

    // How long the text is. The room goes back to its lender.
    pub fn finish(self) -> usize
        ensures { (result ≡ self.entry.end) × (self.exit.0.now ≡ self.entry.room.now) }
    {
        let Text { room: _, end } = self;
        end
    }
}
