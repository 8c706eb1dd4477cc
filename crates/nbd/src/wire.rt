//! The bytes of requests and replies. Numbers are big endian.
ghost use Rattle.std.specs.Prelude.{◌≡◌, ◌≤◌, length};
ghost use Rattle.nbd.specs.Wire.{command_of, has_fua_flag, request_header, reply_bytes};

use byteorder::{BigEndian, ByteOrder};

/// The length of a request's header in bytes. A write's data follows it.
pub const REQUEST_BYTES: usize = 28;

// The length of a reply's header in bytes. A read's data follows it.
pub(crate) const REPLY_BYTES: usize = 16;

// The number with which a request begins.
const REQUEST_MAGIC: u32 = 0x2560_9513;

// The number with which a simple reply begins.
const REPLY_MAGIC: u32 = 0x6744_6698;

/// What a request asks for.
#[derive(Clone, Copy, Debug, PartialEq, Eq)]
pub enum RequestKind {
    Read,
    Write,
    Disconnect,
    Flush,
    /// Makes the bytes zeroes; the recorder's discard.
    Trim,
    /// A command that this server doesn't offer.
    Other,
}

/// The header of a request.
#[derive(Clone, Copy, Debug, PartialEq, Eq)]
pub struct RequestHeader {
    /// The command flags; bit 0 is FUA.
    pub flags: u16,
    /// The number of the command.
    pub kind: u16,
    /// The client's own number, which the reply repeats.
    pub cookie: u64,
    /// The first byte.
    pub offset: u64,
    /// The number of bytes.
    pub length: u32,
}

impl RequestHeader {
    /// Returns what the request asks for.
    pub fn command(&self) -> RequestKind
        ensures { result ≡ command_of self.now.kind }
    {
        match self.kind {
            0 => RequestKind::Read,
            1 => RequestKind::Write,
            2 => RequestKind::Disconnect,
            3 => RequestKind::Flush,
            4 => RequestKind::Trim,
            _ => RequestKind::Other,
        }
    }

    /// Returns whether the request has FUA.
    pub fn has_fua(&self) -> bool
        ensures { result ≡ has_fua_flag self.now }
    {
        self.flags % 2 == 1
    }
}

// Parses a request's header of `REQUEST_BYTES` bytes. Returns None if it doesn't begin with the
// number of requests.
#[tactic(auto, unfolding(crate::specs::Wire::request_header))]
pub(crate) fn read_header(bytes: &[u8]) -> Option<RequestHeader>
    requires { 28 ≤ length bytes.now }
    ensures { result ≡ request_header bytes.now }
{
    if BigEndian::read_u32(bytes) != REQUEST_MAGIC {
        return None;
    }
    Some(RequestHeader {
        flags: BigEndian::read_u16(&bytes[4..]),
        kind: BigEndian::read_u16(&bytes[6..]),
        cookie: BigEndian::read_u64(&bytes[8..]),
        offset: BigEndian::read_u64(&bytes[16..]),
        length: BigEndian::read_u32(&bytes[24..]),
    })
}

// Returns the header of a simple reply with an error's number, or 0 if there is none.
#[tactic(auto, unfolding(crate::specs::Wire::reply_bytes))]
pub(crate) fn reply_header(error: u32, cookie: u64) -> [u8; REPLY_BYTES]
    ensures { result ≡ reply_bytes error cookie }
{
    let mut bytes = [0; REPLY_BYTES];
    BigEndian::write_u32(&mut bytes, REPLY_MAGIC);
    BigEndian::write_u32(&mut bytes[4..], error);
    BigEndian::write_u64(&mut bytes[8..], cookie);
    bytes
}
