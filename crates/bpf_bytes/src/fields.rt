ghost use Rattle.std.specs.Prelude.{◌≡◌, ◌<◌, length};
ghost use Rattle.bpf_bytes.specs.Fields.{fields_of_bytes, bytes_of};

use byteorder::{ByteOrder, LittleEndian};

/// The contents of a slot's eight bytes (RFC 9669 section 3.1); each register field has four bits.
#[derive(Clone, Copy, Debug, PartialEq, Eq)]
pub struct Fields {
    pub opcode: u8,
    pub dst: u8,
    pub src: u8,
    pub offset: i16,
    pub immediate: i32,
}

impl Fields {
    /// The fields of eight bytes.
    pub fn from_bytes(bytes: &[u8]) -> Fields
        requires { length bytes.now ≡ 8 }
        ensures value { result ≡ fields_of_bytes bytes.now }
        ensures dst { result.dst < 16 }
        ensures src { result.src < 16 }
    {
        Fields {
            opcode: bytes[0],
            dst: bytes[1] & 0x0f,
            src: bytes[1] >> 4,
            offset: LittleEndian::read_i16(&bytes[2..4]),
            immediate: LittleEndian::read_i32(&bytes[4..8]),
        }
    }

    /// The eight bytes of the fields.
    pub fn to_bytes(self) -> [u8; 8]
        requires dst { self.dst < 16 }
        requires src { self.src < 16 }
        ensures { result ≡ bytes_of self }
    {
        let mut bytes = [0; 8];
        bytes[0] = self.opcode;
        bytes[1] = self.src << 4 | self.dst;
        LittleEndian::write_i16(&mut bytes[2..4], self.offset);
        LittleEndian::write_i32(&mut bytes[4..8], self.immediate);
        bytes
    }
}
