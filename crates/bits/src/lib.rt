// Bits in bytes, most significant bit first: a position that is passed on by value, reading, writing and the padding of a body.
#![tactic(auto)]

ghost use Rattle.std.specs.Prelude.{◌≡◌, ◌+◌, ◌^◌, ◌<◌};
ghost use Rattle.rules.specs.Document.Layout.{bit_at, pad_clear};
ghost use Rattle.bits.specs.Bits.{bit_of, with_bit, set_bit};

// How many bits lie before. That no sum overflows is asked for, here and above: the definitions count on without end.
#[derive(Clone, Copy)]
pub struct BitPosition {
    pub at: usize,
}

// No Option beside a position: past the end the bit is 0, and the position moves on in every case.
#[derive(Clone, Copy)]
pub struct BitRead {
    pub bit: bool,
    pub next: BitPosition,
}

// Bit i of a byte.
fn bit_of(byte: u8, i: usize) -> bool
    requires { i < 8 }
    ensures { result ≡ bit_of byte i }
{
    (byte >> (7 - i)) & 1 == 1
}

// The byte with bit i set if the bit is 1. No branch: the bits of a body are hard to foresee.
fn with_bit(byte: u8, i: usize, bit: bool) -> u8
    requires { i < 8 }
    ensures { result ≡ with_bit byte i bit }
{
    byte | (u8::from(bit) << (7 - i))
}

impl BitPosition {
    // The bit here, 0 past the end, and the next position.
    pub fn read(self, body: &[u8]) -> BitRead
        requires { self.at < 2 ^ 62 }
        ensures { (result.bit ≡ bit_at body.now self.at) × (result.next.at ≡ self.at + 1) }
    {
        let at = self.at;
        let place = at / 8;
        let next = BitPosition { at: at + 1 };
        let bit = place < body.len() && bit_of(body[place], at % 8);
        BitRead { bit, next }
    }

    // Sets the bit here, which is 0, if the bit is 1; past the end nothing happens. Answers the next position.
    pub fn write(self, out: &mut [u8], bit: bool) -> BitPosition
        requires { self.at < 2 ^ 62 }
        ensures { (result.at ≡ self.at + 1) × (out.new ≡ set_bit out.old self.at bit) }
    {
        let at = self.at;
        let place = at / 8;
        if place < out.len() {
            out[place] = with_bit(out[place], at % 8, bit);
        }
        BitPosition { at: at + 1 }
    }
}

// Whether the bits of the last byte behind the body's own are all 0.
pub fn padding_clear(body: &[u8], bits: usize) -> bool
    requires { bits < 2 ^ 61 }
    ensures { result ≡ pad_clear body.now bits }
{
    let end = bits.next_multiple_of(8);
    (bits..end).all(|at| !BitPosition { at }.read(body).bit)
}
