//! The fields of a slot (RFC 9669, section 3.1), taken out of its bytes and put into them.
ghost use Rattle.std.specs.Prelude.{◌≡◌, ◌≤◌, ◌<◌, length};
ghost use Rattle.pb_decode.specs.Fields.{slot_of_bytes, slot_bytes};

use byteorder::{ByteOrder, LittleEndian};

/// A slot. Offset and immediate are words, whose sign is read later, since the halves of a 64-bit immediate have none.
#[derive(Clone, Copy)]
pub struct SlotFields {
    pub opcode: u8,
    pub dst: u8,
    pub src: u8,
    pub offset: u16,
    pub imm: u32,
}

impl SlotFields {
    /// The slot in the first eight bytes. It can't fail, since any eight bytes are some slot.
    pub fn at(bytes: &[u8]) -> SlotFields
        requires { 8 ≤ length bytes.now }
        ensures { result ≡ slot_of_bytes bytes.now }
    {
        SlotFields {
            opcode: bytes[0],
            dst: bytes[1] % 16,
            src: bytes[1] / 16,
            offset: LittleEndian::read_u16(&bytes[2..]),
            imm: LittleEndian::read_u32(&bytes[4..]),
        }
    }

    /// Its eight bytes. The registers share one, so that each has to be below 16.
    pub fn bytes(self) -> [u8; 8]
        requires dst { self.dst < 16 }
        requires src { self.src < 16 }
        ensures { result ≡ slot_bytes self }
    {
        let mut bytes = [0; 8];
        bytes[0] = self.opcode;
        bytes[1] = self.dst + 16 * self.src;
        LittleEndian::write_u16(&mut bytes[2..], self.offset);
        LittleEndian::write_u32(&mut bytes[4..], self.imm);
        bytes
    }
}
