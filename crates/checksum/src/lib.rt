// Adler-32 (RFC 1950), by which the programs of the gate tell that a file is read whole.
#![tactic(auto)]

ghost use Rattle.std.specs.Prelude.{◌≡◌};
ghost use Rattle.checksum.specs.Adler.{begun, with_byte, with_bytes};

#[derive(Clone, Copy, Debug, PartialEq, Eq)]
pub struct Checksum {
    pub a: usize,
    pub b: usize,
}

impl Checksum {
    // Of no bytes.
    pub fn start() -> Checksum
        ensures { result ≡ begun }
    {
        Checksum { a: 1, b: 0 }
    }

    // One byte more.
    pub fn with_byte(self, byte: u8) -> Checksum
        ensures { result ≡ with_byte self byte }
    {
        let a = (self.a % 65521 + usize::from(byte)) % 65521;
        let b = (self.b % 65521 + a) % 65521;
        Checksum { a, b }
    }

    // All bytes of a slice more.
    pub fn with_bytes(self, bytes: &[u8]) -> Checksum
        ensures { result ≡ with_bytes self bytes.now }
    {
        let mut sum = self;
        for &byte in bytes {
            sum = sum.with_byte(byte);
        }
        sum
    }
}
