// Bytes, texts, numbers and gains, written into a lent buffer behind what it has. What there is no room for is left out.
ghost use Rattle.std.specs.Prelude.{[], ◌∷◌, ◌≡◌};
ghost use Rattle.text.specs.Buffer.{Appends};
ghost use Rattle.text.specs.Decimal.{decimal, gain_text, signed_decimal};
ghost use Rattle.text.specs.Lines.{part};

use crate::lines::part;
use std::fmt;
use values::Gain;

// A text in a lent buffer: its first `count` bytes. No heap in this project, so the count stands beside the buffer. That the buffer is
// still the same one is a clause of its own where `Appends`, which says it too, doesn't stand.
#[derive(Drop)]
pub struct Text<'a> {
    pub buffer: &'a mut [u8],
    pub count: usize,
}

// These methods can't fail, and say each byte, also where there is no room for all. `write!` says what it wrote under `OnOk` alone, since a
// `Display` may answer an error whatever the writer does: with `write!(self, "{n}")` as the body of `number`, its `Appends` stays open.
// `Appends` says too that the buffer is the same one, and that stays open.
impl<'a> Text<'a> {
    // No text yet.
    pub fn new(buffer: &'a mut [u8]) -> Text<'a>
        ensures same_buffer { result.buffer.ghost_name ≡ buffer.entry.ghost_name }
        ensures same_bytes { result.buffer.now ≡ buffer.old }
        ensures empty { result.count ≡ 0 }
    {
        Text { buffer, count: 0 }
    }

    // No text again: the buffer and its bytes stay.
    pub fn clear(&mut self)
        ensures same_buffer { self.new.buffer.ghost_name ≡ self.old.buffer.ghost_name }
        ensures same_bytes { self.new.buffer.now ≡ self.old.buffer.now }
        ensures empty { self.new.count ≡ 0 }
    {
        self.count = 0;
    }

    // The bytes of the text.
    pub fn as_bytes(&self) -> &[u8]
        ensures { result.now ≡ part self.now.buffer.now 0 self.now.count }
    {
        part(self.buffer, 0, self.count)
    }

    #[tactic(auto, unfolding(crate::specs::Buffer::put_text, crate::specs::Buffer::put_byte))]
    pub fn byte(&mut self, byte: u8)
        ensures { Appends self.old (byte ∷ []) self.new }
    {
        if self.count < self.buffer.len() {
            self.buffer[self.count] = byte;
            self.count += 1;
        }
    }

    #[tactic(auto, using(crate::proofs::BufferLaws::appends_none))]
    pub fn text(&mut self, text: &[u8])
        ensures { Appends self.old text.now self.new }
    {
        for byte in text {
            self.byte(*byte);
        }
    }

    // A number in decimal.
    #[tactic(auto, using(crate::proofs::DecimalLaws::decimal_digits))]
    pub fn number(&mut self, n: u64)
        ensures { Appends self.old (decimal n) self.new }
    {
        let mut digits = [0u8; 20];
        let k = io::decimal(n, &mut digits);
        self.text(&digits[..k]);
    }

    // A number with its sign.
    pub fn signed(&mut self, z: i16)
        ensures { Appends self.old (signed_decimal z) self.new }
    {
        if z < 0 {
            self.text(b"-");
        }
        self.number(u64::from(z.unsigned_abs()));
    }

    // `silence`, or the number of tenths.
    #[tactic(auto, unfolding(crate::specs::Decimal::gain_text))]
    pub fn gain(&mut self, gain: Gain)
        ensures { Appends self.old (gain_text gain) self.new }
    {
        match gain {
            Gain::Silent => self.text(b"silence"),
            Gain::Tenths(z) => self.signed(z),
        }
    }
}

// `write!`, for programs whose printing has no contract.
impl fmt::Write for Text<'_> {
    ghost write_str_gives = { Appends };

    fn write_str(&mut self, text: &str) -> fmt::Result {
        self.text(text.as_bytes());
        Ok(())
    }
}
