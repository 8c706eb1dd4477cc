//! The handshake: the fixed newstyle of the protocol, in which client and server agree on options
//! before the first request.
ghost use Rattle.std.specs.Prelude.{◌≡◌, ◌⊎◌, ◌++◌, ◌<◌, ◌≤◌, IfOk, IfSome, List, Ok, OnOk, Some};
ghost use Rattle.std.specs.Prelude.{drop, length, ℕ};
ghost use Rattle.byteorder.specs.Endian.{big_number};
ghost use Rattle.std.specs.Io.KnownBytes.{Appends, Consumes};
ghost use Rattle.nbd.specs.Negotiation.{AgreesOnOptions, HandshakeBegins, IsOption, Sent, export_info, is_info};
ghost use Rattle.nbd.specs.Negotiation.{option_end, option_number, option_reply, padding, replies};
ghost use Rattle.nbd.specs.Negotiation.{replies_to, reply_head, sent_bytes, sizes_info};

use crate::pipes::{send, take, take_all};
use crate::session::SessionEnd;
use bio::SectorSize;
use byteorder::{BigEndian, ByteOrder};
use std::alloc::{AllocError, Global};
use std::io::{Read, Write};

/// What the server offers: a device of so many bytes, whose requests are whole blocks.
#[derive(Clone, Copy, Debug, PartialEq, Eq)]
pub struct Export {
    /// The device's length in bytes.
    pub bytes: u64,
    /// The size of a block.
    pub block: SectorSize,
}

/// How a handshake ended.
#[derive(Clone, Copy, Debug, PartialEq, Eq)]
pub enum Negotiated {
    /// The requests begin.
    Begun,
    /// The client left.
    Left,
}

// The greeting: `NBDMAGIC`, `IHAVEOPT`, and the flags for the fixed newstyle (1) and for a reply to
// `EXPORT_NAME` without zeroes (2).
const GREETING: &[u8] = b"NBDMAGICIHAVEOPT\x00\x03";

// The number with which an option begins: `IHAVEOPT`.
const OPTION_MAGIC: u64 = 0x4948_4156_454F_5054;

// The length of an option's header in bytes.
const OPTION_BYTES: usize = 16;

// An option's data has at most this many bytes. A name has at most 4,096.
const MAX_OPTION_BYTES: u32 = 65_536;

// The number with which an option's reply begins.
const REPLY_MAGIC: u64 = 0x0003_e889_0455_65a9;

// The transmission flags: has flags (1), takes flushes (4), FUA (8) and trims (32).
const FLAGS: u16 = 45;

// The options that the server knows.
const EXPORT_NAME: u32 = 1;

const ABORT: u32 = 2;

const LIST: u32 = 3;

const INFO: u32 = 6;

const GO: u32 = 7;

// The types of an option's reply.
const ACK: u32 = 1;

const SERVER: u32 = 2;

const INFORMATION: u32 = 3;

const UNSUPPORTED: u32 = 0x8000_0001;

const INVALID: u32 = 0x8000_0003;

// An option that a client asks for: its number and its data.
#[derive(Drop)]
struct ClientOption {
    number: u32,
    body: Vec<u8>,
}

// The header of an option: its number, and the length of its data in bytes.
#[derive(Clone, Copy)]
struct OptionHead {
    number: u32,
    length: u32,
}

/// Makes the handshake: greets the client, and answers its options until it asks for the export,
/// leaves, or the input ends. Any export's name is the server's one export.
pub fn negotiate<I: Read, O: Write>(
    alloc: Global,
    export: Export,
    input: &mut I,
    output: &mut O,
) -> Result<Negotiated, SessionEnd>
    ensures begins { result ≡ Ok Negotiated.Begun → (taken out : List ℕ)
        × Consumes (I.remaining input.old) (I.remaining input.new) taken
        × Appends (O.contents output.old) (O.contents output.new) out
        × HandshakeBegins export taken out }
{
    send(output, GREETING)?;
    let mut flags = [0; 4];
    take(input, &mut flags)?;
    let flags = BigEndian::read_u32(&flags);
    if flags > 3 {
        return Err(SessionEnd::BadRequest);
    }
    answer_options(alloc, export, flags, input, output)
}

// Answers options until one ends the handshake.
fn answer_options<I: Read, O: Write>(
    alloc: Global,
    export: Export,
    flags: u32,
    input: &mut I,
    output: &mut O,
) -> Result<Negotiated, SessionEnd>
    requires { flags < 4 }
    ensures begins { result ≡ Ok Negotiated.Begun → (taken out : List ℕ)
        × Consumes (I.remaining input.old) (I.remaining input.new) taken
        × Appends (O.contents output.old) (O.contents output.new) out
        × AgreesOnOptions export flags taken out }
{
    for _ in 0..u64::MAX {
        if let Some(end) = answer_option(alloc, export, flags, input, output)? {
            return Ok(end);
        }
    }
    Err(SessionEnd::TooLong)
}

// Reads the next option, and answers it. Returns how it ends the handshake, or None if it doesn't.
fn answer_option<I: Read, O: Write>(
    alloc: Global,
    export: Export,
    flags: u32,
    input: &mut I,
    output: &mut O,
) -> Result<Option<Negotiated>, SessionEnd>
    requires { flags < 4 }
    ensures { IfOk result (λ end. (sent : Sent) × IsOption sent
        × (end ≡ option_end (option_number sent) sent.body)
        × Consumes (I.remaining input.old) (I.remaining input.new) (sent_bytes sent)
        × ((end ≡ Some Negotiated.Left)
        ⊎ Appends (O.contents output.old) (O.contents output.new) (replies_to export flags sent))) }
{
    let asked = read_option(alloc, input)?;
    let Ok(bytes) = replies(alloc, export, flags, asked.number, asked.body.as_slice()) else {
        return Err(SessionEnd::NoMemory);
    };
    let sent = send(output, bytes.as_slice());
    let end = end_of(asked.number, asked.body.as_slice());
    // A client that left may be gone already, which is no fault.
    if let Some(Negotiated::Left) = end {
        return Ok(end);
    }
    sent?;
    Ok(end)
}

// Reads the next option.
fn read_option<I: Read>(alloc: Global, input: &mut I) -> Result<ClientOption, SessionEnd>
    ensures { IfOk result (λ asked. (sent : Sent) × IsOption sent
        × (asked.number ≡ option_number sent) × (asked.body.items ≡ sent.body)
        × Consumes (I.remaining input.old) (I.remaining input.new) (sent_bytes sent)) }
{
    let mut bytes = [0; OPTION_BYTES];
    take(input, &mut bytes)?;
    let Some(head) = read_option_head(&bytes) else {
        return Err(SessionEnd::BadRequest);
    };
    let Ok(mut body) = vec![in alloc; 0; head.length as usize] else {
        return Err(SessionEnd::NoMemory);
    };
    take_all(input, &mut body)?;
    Ok(ClientOption {
        number: head.number,
        body,
    })
}

// Parses an option's header of `OPTION_BYTES` bytes. Returns None if it doesn't begin with the
// number of options, or if the option's data is too long.
fn read_option_head(bytes: &[u8]) -> Option<OptionHead>
    requires { length bytes.now ≡ 16 }
    ensures { IfSome result (λ head. (length bytes.now ≡ 16)
        × (big_number 8 bytes.now ≡ 5280542401877725268)
        × (head.number ≡ big_number 4 (drop 8 bytes.now))
        × (head.length ≡ big_number 4 (drop 12 bytes.now)) × (head.length ≤ 65536)) }
{
    let length = BigEndian::read_u32(&bytes[12..]);
    if BigEndian::read_u64(bytes) != OPTION_MAGIC || length > MAX_OPTION_BYTES {
        return None;
    }
    Some(OptionHead {
        number: BigEndian::read_u32(&bytes[8..]),
        length,
    })
}

// Returns how an option ends the handshake, or None if it doesn't.
fn end_of(option: u32, body: &[u8]) -> Option<Negotiated>
    ensures { result ≡ option_end option body.now }
{
    match option {
        EXPORT_NAME => Some(Negotiated::Begun),
        ABORT => Some(Negotiated::Left),
        GO if is_info(body) => Some(Negotiated::Begun),
        _ => None,
    }
}

// Returns the replies to an option with this body. `flags` are the client's.
fn replies(
    alloc: Global,
    export: Export,
    flags: u32,
    option: u32,
    body: &[u8],
) -> Result<Vec<u8>, AllocError>
    requires { flags < 4 }
    ensures { IfOk result (λ bytes. bytes.items ≡ replies export flags option body.now) }
{
    let mut bytes = Vec::new(alloc);
    match option {
        EXPORT_NAME => push_export(&mut bytes, &export_info(export), flags)?,
        ABORT => push_reply(&mut bytes, option, ACK, &[])?,
        LIST if body.is_empty() => {
            // One export, whose name is empty.
            push_reply(&mut bytes, option, SERVER, &[0; 4])?;
            push_reply(&mut bytes, option, ACK, &[])?;
        }
        INFO | GO if is_info(body) => {
            push_reply(&mut bytes, option, INFORMATION, &export_info(export))?;
            push_reply(&mut bytes, option, INFORMATION, &sizes_info(export))?;
            push_reply(&mut bytes, option, ACK, &[])?;
        }
        LIST | INFO | GO => push_reply(&mut bytes, option, INVALID, &[])?,
        _ => push_reply(&mut bytes, option, UNSUPPORTED, &[])?,
    }
    Ok(bytes)
}

// Returns whether the body of `INFO` or `GO` has its form: a name's length and the name, then the
// number of the information requests and the requests, two bytes each.
#[tactic(auto, unfolding(crate::specs::Negotiation::is_info))]
fn is_info(body: &[u8]) -> bool
    ensures { result ≡ is_info body.now }
{
    if body.len() < 4 {
        return false;
    }
    let name = u64::from(BigEndian::read_u32(body));
    let length = body.len() as u64;
    if length < name + 6 {
        return false;
    }
    let requests = BigEndian::read_u16(&body[name as usize + 4..]);
    length == name + 6 + 2 * u64::from(requests)
}

// Appends the reply to `EXPORT_NAME`, which is the information on the export without its kind. It
// ends with zeroes, unless the client's flags say that it takes none.
#[tactic(auto, using(std::proofs::Common::append_assoc))]
fn push_export(bytes: &mut Vec<u8>, info: &[u8], flags: u32) -> Result<(), AllocError>
    requires { length info.now ≡ 12 }
    ensures { OnOk result (bytes.new.items ≡ bytes.old.items ++ (drop 2 info.now ++ padding flags)) }
{
    bytes.extend_from_slice(&info[2..])?;
    push_padding(bytes, flags)
}

// Appends the zeroes at the end of the reply to `EXPORT_NAME`, if the client's flags take them.
fn push_padding(bytes: &mut Vec<u8>, flags: u32) -> Result<(), AllocError>
    ensures { OnOk result (bytes.new.items ≡ bytes.old.items ++ padding flags) }
{
    if flags < 2 {
        return bytes.extend_from_slice(&[0; 124]);
    }
    Ok(())
}

// Appends an option's reply.
#[tactic(auto, using(std::proofs::Common::append_assoc))]
fn push_reply(bytes: &mut Vec<u8>, option: u32, kind: u32, body: &[u8]) -> Result<(), AllocError>
    requires { length body.now < 256 }
    ensures { OnOk result (bytes.new.items ≡ bytes.old.items ++ option_reply option kind body.now) }
{
    bytes.extend_from_slice(&reply_header(option, kind, body.len() as u32))?;
    bytes.extend_from_slice(body)
}

#[tactic(auto, unfolding(crate::specs::Negotiation::reply_head))]
fn reply_header(option: u32, kind: u32, length: u32) -> [u8; 20]
    ensures { result ≡ reply_head option kind length }
{
    let mut bytes = [0; 20];
    BigEndian::write_u64(&mut bytes, REPLY_MAGIC);
    BigEndian::write_u32(&mut bytes[8..], option);
    BigEndian::write_u32(&mut bytes[12..], kind);
    BigEndian::write_u32(&mut bytes[16..], length);
    bytes
}

// Returns the information on an export: its length and the transmission flags.
#[tactic(auto, unfolding(crate::specs::Negotiation::export_info))]
fn export_info(export: Export) -> [u8; 12]
    ensures { result ≡ export_info export }
{
    let mut bytes = [0; 12];
    BigEndian::write_u64(&mut bytes[2..], export.bytes);
    BigEndian::write_u16(&mut bytes[10..], FLAGS);
    bytes
}

// Returns the information on block sizes: the least, the preferred and the largest request.
#[tactic(auto, unfolding(crate::specs::Negotiation::sizes_info))]
fn sizes_info(export: Export) -> [u8; 14]
    ensures { result ≡ sizes_info export }
{
    let mut bytes = [0; 14];
    BigEndian::write_u16(&mut bytes, 3);
    BigEndian::write_u32(&mut bytes[2..], export.block.bytes());
    BigEndian::write_u32(&mut bytes[6..], 4096);
    BigEndian::write_u32(&mut bytes[10..], 1_048_576);
    bytes
}
