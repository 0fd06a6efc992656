// The ten header bytes (E4 6) and what they say.
ghost use Rattle.std.specs.Prelude.{◌≡◌, ◌≤◌};
ghost use Rattle.header.specs.Header.{header_bytes, header_of, numbered_of, top_bit};

use wire::{halves, pair, quad, quarters};

#[derive(Clone, Copy)]
pub struct Header {
    // R-bit (E4 6.2): set in a message to the host.
    pub r: bool,
    // Device ID (E4 6.3), 15 bits.
    pub device: u16,
    // W-bit (E4 6.4): the sender of a primary expects a reply.
    pub w: bool,
    // Upper and lower message ID (E4 6.5), which are stream, 7 bits, and function.
    pub stream: u8,
    pub function: u8,
    // E-bit (E4 6.6): set in the last block of a message.
    pub e: bool,
    // Block number (E4 6.7), 15 bits.
    pub number: u16,
    // The four system bytes (E4 6.8) as one number, the first of them its highest.
    pub system: u32,
}

// A bit as the upper one of a byte.
fn top_bit(on: bool) -> u8
    ensures { (result ≡ top_bit on) × (result ≤ 128) }
{
    if on { 128 } else { 0 }
}

impl Header {
    // The ten bytes. A device ID and a block number have 15 bits there, a stream 7: what a field has above them
    // does not go out.
    #[tactic(auto, unfolding(crate::specs::Header::header_bytes))]
    pub fn bytes(self) -> [u8; 10]
        ensures { result ≡ header_bytes self }
    {
        let device = halves(self.device);
        let number = halves(self.number);
        let system = quarters(self.system);
        [
            top_bit(self.r) + device[0] % 128,
            device[1],
            top_bit(self.w) + self.stream % 128,
            self.function,
            top_bit(self.e) + number[0] % 128,
            number[1],
            system[0],
            system[1],
            system[2],
            system[3],
        ]
    }

    // What ten bytes say. Any ten do.
    #[tactic(auto, unfolding(crate::specs::Header::header_of))]
    pub fn from_bytes(b: [u8; 10]) -> Header
        ensures { result ≡ header_of b }
    {
        Header {
            r: 128 <= b[0],
            device: pair(b[0] % 128, b[1]),
            w: 128 <= b[2],
            stream: b[2] % 128,
            function: b[3],
            e: 128 <= b[4],
            number: pair(b[4] % 128, b[5]),
            system: quad(b[6], b[7], b[8], b[9]),
        }
    }

    // The same header at another block of its message: its number, and E where it is the last.
    pub fn numbered(self, number: u16, last: bool) -> Header
        ensures { result ≡ numbered_of self number last }
    {
        Header {
            e: last,
            number,
            ..self
        }
    }
}
