//! Sessions of the NBD protocol in memory, whose bytes are those of doc/proto.md of the
//! NetworkBlockDevice project. What is tested is what no contract says: the numbers on the wire, and
//! that the input is understood.
use bio::{End, Ms, SectorSize};
use blockdev::BlockDev;
use log_reader::LogReader;
use nbd::{
    Export, Host, Negotiated, RequestHeader, Served, Server, SessionEnd, negotiate, serve, transmit,
};
use script_runner::new_recorder;
use sector_disk::SectorDisk;
use std::alloc::Global;
use std::process::Abort;
use std::test::*;
use test_devices::{Failing, Watched};

// A request's flags and command: a write with FUA, and so on.
const WRITE_FUA: &[u8] = b"\x00\x01\x00\x01";

const WRITE: &[u8] = b"\x00\x00\x00\x01";

const READ: &[u8] = b"\x00\x00\x00\x00";

const DISCONNECT: &[u8] = b"\x00\x00\x00\x02";

const FLUSH: &[u8] = b"\x00\x00\x00\x03";

const TRIM: &[u8] = b"\x00\x00\x00\x04";

// A command that the server doesn't offer: write zeroes.
const WRITE_ZEROES: &[u8] = b"\x00\x00\x00\x06";

// Surroundings in which marks are set one after another: as many as are left, each before the next
// request comes.
#[derive(Drop)]
struct MarksBetween {
    alloc: Global,
    left: u64,
    waits: bool,
}

impl Host for MarksBetween {
    fn now(&mut self) -> Ms {
        Ms::new(0)
    }

    // Every other look finds a mark.
    fn next_mark(&mut self) -> Option<Vec<u8>> {
        self.waits = !self.waits;
        if self.waits || self.left == 0 {
            return None;
        }
        self.left -= 1;
        let mut text = Vec::new(self.alloc);
        text.extend_from_slice(b"here").ok()?;
        Some(text)
    }

    fn request_came(&mut self, _header: &RequestHeader) {}

    fn logging_ended(&mut self, _cause: End) {}
}

// Surroundings that note what they hear. The time is the number of the requests so far. Two marks,
// `one` and `two`, are set while the second request is waited for.
#[derive(Drop)]
struct Noting {
    alloc: Global,
    looks: u64,
    came: u64,
    ended: u64,
}

impl Noting {
    fn new(alloc: Global) -> Noting {
        Noting {
            alloc,
            looks: 0,
            came: 0,
            ended: 0,
        }
    }
}

impl Host for Noting {
    fn now(&mut self) -> Ms {
        Ms::new(self.came)
    }

    fn next_mark(&mut self) -> Option<Vec<u8>> {
        self.looks = self.looks.saturating_add(1);
        let mut text = Vec::new(self.alloc);
        match self.looks {
            2 => text.extend_from_slice(b"one").ok()?,
            3 => text.extend_from_slice(b"two").ok()?,
            _ => return None,
        }
        Some(text)
    }

    fn request_came(&mut self, _header: &RequestHeader) {
        self.came = self.came.saturating_add(1);
    }

    fn logging_ended(&mut self, _cause: End) {
        self.ended = self.ended.saturating_add(1);
    }
}

// What a client sends.
#[derive(Drop)]
struct Client {
    bytes: Vec<u8>,
}

impl Client {
    fn new(alloc: Global) -> Client {
        Client {
            bytes: Vec::new(alloc),
        }
    }

    // Sends these bytes.
    fn says(&mut self, rt: &impl Abort, bytes: &[u8]) {
        self.bytes.extend_from_slice(bytes).expect(rt, "memory");
    }

    // Sends a request over sectors, without its data.
    fn asks(&mut self, rt: &impl Abort, command: &[u8], first: u8, count: u8) {
        self.says(rt, b"\x25\x60\x95\x13");
        self.says(rt, command);
        self.says(rt, b"abcdefgh\x00\x00\x00\x00\x00\x00");
        self.bytes.push(first.wrapping_mul(2)).expect(rt, "memory");
        self.says(rt, b"\x00\x00\x00");
        self.bytes.push(count.wrapping_mul(2)).expect(rt, "memory");
        self.says(rt, b"\x00");
    }

    // Sends a request over the first 2,056 sectors, without its data.
    fn asks_long(&mut self, rt: &impl Abort, command: &[u8]) {
        self.says(rt, b"\x25\x60\x95\x13");
        self.says(rt, command);
        self.says(rt, b"abcdefgh\x00\x00\x00\x00\x00\x00\x00\x00");
        self.says(rt, b"\x00\x10\x10\x00");
    }

    // Sends a request's data: one sector.
    fn sends_sector(&mut self, rt: &impl Abort, byte: u8) {
        self.bytes
            .resize(self.bytes.len().saturating_add(512), byte)
            .expect(rt, "memory");
    }
}

fn new_server(rt: &impl Abort, alloc: Global) -> Server<SectorDisk, SectorDisk> {
    let disk = SectorDisk::new(alloc, 16).expect(rt, "memory");
    let log = SectorDisk::new(alloc, 64).expect(rt, "memory");
    let recorder = new_recorder(alloc, log, SectorSize::B512).expect(rt, "a recorder");
    Server::new(alloc, recorder, disk, SectorSize::B512)
}

// Does the client's requests, and returns how the session ended and what was sent back.
fn session(
    alloc: Global,
    server: &mut Server<SectorDisk, SectorDisk>,
    client: Client,
    marks: u64,
) -> (Result<(), SessionEnd>, Vec<u8>) {
    let mut input = client.bytes.as_slice();
    let mut out = Vec::new(alloc);
    let mut host = MarksBetween {
        alloc,
        left: marks,
        waits: false,
    };
    let end = transmit(server, &mut input, &mut out, &mut host);
    (end, out)
}

fn handshake(alloc: Global, bytes: &[u8]) -> (Result<Negotiated, SessionEnd>, Vec<u8>) {
    let export = Export {
        bytes: 8192,
        block: SectorSize::B512,
    };
    let mut input = bytes;
    let mut out = Vec::new(alloc);
    let end = negotiate(alloc, export, &mut input, &mut out);
    (end, out)
}

#[test]
fn handshakes_begin(rt: HostRuntime) {
    let go = b"\x00\x00\x00\x03IHAVEOPT\x00\x00\x00\x07\x00\x00\x00\x06\x00\x00\x00\x00\x00\x00";
    let (end, out) = handshake(rt.alloc(), go);
    assert!(&rt; end == Ok(Negotiated::Begun));
    // The greeting, both kinds of information, and ACK.
    assert!(&rt; out.len() == 18 + 32 + 34 + 20);
    assert!(&rt; &out.as_slice()[..18] == b"NBDMAGICIHAVEOPT\x00\x03".as_slice());
    let name = b"\x00\x00\x00\x03IHAVEOPT\x00\x00\x00\x01\x00\x00\x00\x00";
    let (end, out) = handshake(rt.alloc(), name);
    assert!(&rt; end == Ok(Negotiated::Begun));
    assert!(&rt; out.len() == 28);
    assert!(&rt; &out.as_slice()[18..] == b"\x00\x00\x00\x00\x00\x00\x20\x00\x00\x2d".as_slice());
    let (end, _) = handshake(
        rt.alloc(),
        b"\x00\x00\x00\x03IHAVEOPT\x00\x00\x00\x02\x00\x00\x00\x00",
    );
    assert!(&rt; end == Ok(Negotiated::Left));
    let (end, _) = handshake(rt.alloc(), b"\x00\x00\x00\x03IHAVE");
    assert!(&rt; end == Err(SessionEnd::InputEnded));
}

#[test]
fn requests_are_recorded_and_answered(rt: HostRuntime) {
    let mut server = new_server(&rt, rt.alloc());
    let mut client = Client::new(rt.alloc());
    client.asks(&rt, WRITE_FUA, 1, 1);
    client.sends_sector(&rt, 7);
    client.asks(&rt, READ, 1, 1);
    client.asks(&rt, FLUSH, 0, 0);
    client.asks(&rt, TRIM, 1, 1);
    client.asks(&rt, READ, 1, 1);
    client.asks(&rt, DISCONNECT, 0, 0);
    let (end, out) = session(rt.alloc(), &mut server, client, 0);
    assert!(&rt; end == Ok(()));
    assert!(&rt; out.len() == 16 + 16 + 512 + 16 + 16 + 16 + 512);
    assert!(&rt; &out.as_slice()[..16] == b"\x67\x44\x66\x98\x00\x00\x00\x00abcdefgh".as_slice());
    assert!(&rt; out[32] == 7 && out[543] == 7);
    assert!(&rt; out[592] == 0 && out[1103] == 0);
    // The write and the flush. The trim waits for the next flush.
    assert!(&rt; server.recorder().status().entries == 2);
    assert!(&rt; server.close(Ms::new(0)).is_ok());
}

#[test]
fn bad_requests_are_refused(rt: HostRuntime) {
    let mut server = new_server(&rt, rt.alloc());
    let mut client = Client::new(rt.alloc());
    // A command that isn't offered, a read past the end, a read of no sector.
    client.asks(&rt, WRITE_ZEROES, 0, 1);
    client.asks(&rt, READ, 16, 1);
    client.asks(&rt, READ, 0, 0);
    // A write that isn't aligned, with its data.
    client.says(
        &rt,
        b"\x25\x60\x95\x13\x00\x00\x00\x01abcdefgh\x00\x00\x00\x00\x00\x00\x00\x01",
    );
    client.says(&rt, b"\x00\x00\x02\x00");
    client.sends_sector(&rt, 7);
    client.says(&rt, b"nonsense that has twenty-eight");
    let (end, out) = session(rt.alloc(), &mut server, client, 0);
    assert!(&rt; end == Err(SessionEnd::BadRequest));
    assert!(&rt; out.len() == 64);
    assert!(&rt; out[7] == 22 && out[23] == 28 && out[39] == 22 && out[55] == 22);
    assert!(&rt; server.recorder().status().entries == 0);
}

#[test]
fn half_a_request_ends_a_session(rt: HostRuntime) {
    let mut server = new_server(&rt, rt.alloc());
    let mut client = Client::new(rt.alloc());
    client.asks(&rt, WRITE, 0, 1);
    client.says(&rt, b"half a sector");
    let (end, out) = session(rt.alloc(), &mut server, client, 0);
    assert!(&rt; end == Err(SessionEnd::InputEnded));
    assert!(&rt; out.is_empty());
    assert!(&rt; server.recorder().status().entries == 0);
    assert!(&rt; server.close(Ms::new(0)).is_ok());
}

#[test]
fn a_mark_stands_before_its_request(rt: HostRuntime) {
    let mut server = new_server(&rt, rt.alloc());
    let mut client = Client::new(rt.alloc());
    client.asks(&rt, WRITE_FUA, 0, 1);
    client.sends_sector(&rt, 1);
    client.asks(&rt, WRITE_FUA, 1, 1);
    client.sends_sector(&rt, 2);
    client.asks(&rt, DISCONNECT, 0, 0);
    let (end, _) = session(rt.alloc(), &mut server, client, 1);
    assert!(&rt; end == Ok(()));
    // Two writes and a mark.
    assert!(&rt; server.recorder().status().entries == 3);
}

#[test]
fn a_session_is_served(rt: HostRuntime) {
    let mut server = new_server(&rt, rt.alloc());
    let mut client = Client::new(rt.alloc());
    client.says(
        &rt,
        b"\x00\x00\x00\x03IHAVEOPT\x00\x00\x00\x01\x00\x00\x00\x00",
    );
    client.asks(&rt, WRITE_FUA, 0, 1);
    client.sends_sector(&rt, 7);
    client.asks(&rt, DISCONNECT, 0, 0);
    let mut input = client.bytes.as_slice();
    let mut out = Vec::new(rt.alloc());
    let mut host = MarksBetween {
        alloc: rt.alloc(),
        left: 0,
        waits: false,
    };
    let how = serve(&mut server, &mut input, &mut out, &mut host);
    assert!(&rt; matches!(how, Ok(Served::Disconnected)));
    // The greeting, the export's length and flags, and the write's reply.
    assert!(&rt; out.len() == 18 + 10 + 16);
    // The write, and the mark with which a closed log ends.
    assert!(&rt; server.recorder().status().entries == 2);
}

#[test]
fn marks_are_recorded_where_they_were_set(rt: HostRuntime) {
    let mut server = new_server(&rt, rt.alloc());
    let mut client = Client::new(rt.alloc());
    client.asks(&rt, WRITE_FUA, 0, 1);
    client.sends_sector(&rt, 1);
    client.asks(&rt, WRITE_FUA, 1, 1);
    client.sends_sector(&rt, 2);
    client.asks(&rt, DISCONNECT, 0, 0);
    let mut input = client.bytes.as_slice();
    let mut out = Vec::new(rt.alloc());
    let mut host = Noting::new(rt.alloc());
    let end = transmit(&mut server, &mut input, &mut out, &mut host);
    assert!(&rt; end == Ok(()));
    assert!(&rt; host.came == 2 && host.ended == 0);
    // A write, both marks, and a write.
    let (recorder, _) = server.into_parts();
    let mut log = LogReader::open(rt.alloc(), recorder.into_device())
        .ok()
        .expect(&rt, "a log");
    assert!(&rt; log.head().count == 4);
    assert!(&rt; log.find_mark(b"one") == Ok(Some(1)));
    assert!(&rt; log.find_mark(b"two") == Ok(Some(2)));
}

#[test]
fn requests_have_the_time_at_which_they_came(rt: HostRuntime) {
    let lower = SectorDisk::new(rt.alloc(), 16).expect(&rt, "memory");
    let disk = Watched::new(rt.alloc(), lower);
    let log = SectorDisk::new(rt.alloc(), 64).expect(&rt, "memory");
    let recorder = new_recorder(rt.alloc(), log, SectorSize::B512).expect(&rt, "a recorder");
    let mut server = Server::new(rt.alloc(), recorder, disk, SectorSize::B512);
    let mut client = Client::new(rt.alloc());
    client.asks(&rt, WRITE_FUA, 0, 1);
    client.sends_sector(&rt, 1);
    client.asks(&rt, READ, 0, 1);
    client.asks(&rt, FLUSH, 0, 0);
    client.asks(&rt, TRIM, 0, 1);
    client.asks(&rt, DISCONNECT, 0, 0);
    let mut input = client.bytes.as_slice();
    let mut out = Vec::new(rt.alloc());
    let mut host = Noting::new(rt.alloc());
    assert!(&rt; transmit(&mut server, &mut input, &mut out, &mut host) == Ok(()));
    let (_, disk) = server.into_parts();
    assert!(&rt; disk.seen.as_str() == "F0+1@1 r0+1@2 f0+0@3 d0+1@4 ");
}

#[test]
fn long_requests_are_done_in_parts(rt: HostRuntime) {
    let lower = SectorDisk::new(rt.alloc(), 4096).expect(&rt, "memory");
    let disk = Watched::new(rt.alloc(), lower);
    let log = SectorDisk::new(rt.alloc(), 4096).expect(&rt, "memory");
    let recorder = new_recorder(rt.alloc(), log, SectorSize::B512).expect(&rt, "a recorder");
    let mut server = Server::new(rt.alloc(), recorder, disk, SectorSize::B512);
    let mut client = Client::new(rt.alloc());
    client.asks_long(&rt, WRITE_FUA);
    let length = client.bytes.len().saturating_add(1_052_672);
    client.bytes.resize(length, 7).expect(&rt, "memory");
    client.asks_long(&rt, READ);
    client.asks_long(&rt, TRIM);
    client.asks(&rt, DISCONNECT, 0, 0);
    let mut input = client.bytes.as_slice();
    let mut out = Vec::new(rt.alloc());
    let mut host = Noting::new(rt.alloc());
    assert!(&rt; transmit(&mut server, &mut input, &mut out, &mut host) == Ok(()));
    assert!(&rt; out.len() == 16 + 16 + 1_052_672 + 16);
    assert!(&rt; out[7] == 0 && out[23] == 0 && out[32] == 7 && out[1_052_703] == 7);
    assert!(&rt; out[1_052_711] == 0);
    let (_, disk) = server.into_parts();
    // A long read is made twice, so that a failure is told before its data.
    assert!(&rt;
        disk.seen.as_str()
            == "F0+2048@1 F2048+8@1 r0+2048@2 r2048+8@2 r0+2048@2 r2048+8@2 d0+2048@3 d2048+8@3 "
    );
}

#[test]
fn a_long_read_that_fails_is_answered(rt: HostRuntime) {
    let lower = SectorDisk::new(rt.alloc(), 4096).expect(&rt, "memory");
    let disk = Failing::in_reads(lower, 1);
    let log = SectorDisk::new(rt.alloc(), 64).expect(&rt, "memory");
    let recorder = new_recorder(rt.alloc(), log, SectorSize::B512).expect(&rt, "a recorder");
    let mut server = Server::new(rt.alloc(), recorder, disk, SectorSize::B512);
    let mut client = Client::new(rt.alloc());
    client.asks_long(&rt, READ);
    client.asks(&rt, FLUSH, 0, 0);
    client.asks(&rt, DISCONNECT, 0, 0);
    let mut input = client.bytes.as_slice();
    let mut out = Vec::new(rt.alloc());
    let mut host = Noting::new(rt.alloc());
    assert!(&rt; transmit(&mut server, &mut input, &mut out, &mut host) == Ok(()));
    // The device's fault, and the flush.
    assert!(&rt; out.len() == 32 && out[7] == 5 && out[23] == 0);
}

#[test]
fn many_requests_are_answered(rt: HostRuntime) {
    let mut server = new_server(&rt, rt.alloc());
    let mut client = Client::new(rt.alloc());
    for _ in 0..300 {
        client.asks(&rt, READ, 0, 1);
    }
    client.asks(&rt, DISCONNECT, 0, 0);
    let (end, out) = session(rt.alloc(), &mut server, client, 0);
    assert!(&rt; end == Ok(()));
    assert!(&rt; out.len() == 300 * 528);
}

#[test]
fn the_end_of_logging_is_told_once(rt: HostRuntime) {
    let disk = SectorDisk::new(rt.alloc(), 16).expect(&rt, "memory");
    let log = SectorDisk::new(rt.alloc(), 6).expect(&rt, "memory");
    let recorder = new_recorder(rt.alloc(), log, SectorSize::B512).expect(&rt, "a recorder");
    let mut server = Server::new(rt.alloc(), recorder, disk, SectorSize::B512);
    let mut client = Client::new(rt.alloc());
    for first in 0..8_u8 {
        client.asks(&rt, WRITE_FUA, first, 1);
        client.sends_sector(&rt, first);
    }
    client.asks(&rt, DISCONNECT, 0, 0);
    let mut input = client.bytes.as_slice();
    let mut out = Vec::new(rt.alloc());
    let mut host = Noting::new(rt.alloc());
    assert!(&rt; transmit(&mut server, &mut input, &mut out, &mut host) == Ok(()));
    // What isn't recorded any more is answered well.
    assert!(&rt; out.len() == 128 && out[7] == 0 && out[119] == 0);
    assert!(&rt; host.came == 8 && host.ended == 1);
}

#[test]
fn each_end_of_a_session_is_told(rt: HostRuntime) {
    let mut server = new_server(&rt, rt.alloc());
    let mut input = b"\x00\x00\x00\x03IHAVEOPT\x00\x00\x00\x01\x00\x00\x00\x00".as_slice();
    let mut out = Vec::new(rt.alloc());
    let mut host = Noting::new(rt.alloc());
    let how = serve(&mut server, &mut input, &mut out, &mut host);
    assert!(&rt; matches!(how, Ok(Served::BrokeOff(SessionEnd::InputEnded))));
    let mut server = new_server(&rt, rt.alloc());
    let mut input = b"\x00\x00\x00\x03IHAVEOPT\x00\x00\x00\x02\x00\x00\x00\x00".as_slice();
    let mut out = Vec::new(rt.alloc());
    let mut host = Noting::new(rt.alloc());
    let how = serve(&mut server, &mut input, &mut out, &mut host);
    assert!(&rt; matches!(how, Ok(Served::Left)));
    // The greeting, and the answer to the option by which the client leaves.
    assert!(&rt; out.len() == 18 + 20 && out[37] == 0 && out[33] == 1);
    assert!(&rt; server.recorder().status().entries == 1);
}

#[test]
fn each_flag_and_long_name_is_taken(rt: HostRuntime) {
    for flags in 0..4_u8 {
        let mut client = Client::new(rt.alloc());
        client.says(&rt, b"\x00\x00\x00");
        client.bytes.push(flags).expect(&rt, "memory");
        // `GO` for a name of 4,096 bytes.
        client.says(
            &rt,
            b"IHAVEOPT\x00\x00\x00\x07\x00\x00\x10\x06\x00\x00\x10\x00",
        );
        let length = client.bytes.len().saturating_add(4096);
        client.bytes.resize(length, 97).expect(&rt, "memory");
        client.says(&rt, b"\x00\x00");
        let (end, out) = handshake(rt.alloc(), client.bytes.as_slice());
        assert!(&rt; end == Ok(Negotiated::Begun));
        assert!(&rt; out.len() == 18 + 32 + 34 + 20);
    }
}
