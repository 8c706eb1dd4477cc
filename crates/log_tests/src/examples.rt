//! The examples of doc comments. `bench/headline.py` writes the body of a test of this file into
//! the doc comment that names the test.
use bio::{Bio, Event, Id};
use log_reader::LogReader;
use log_store::LogStore;
use recorder::Recorder;
use replay::{Upto, replay};
use sector_disk::SectorDisk;

#[test]
fn a_flush_is_recorded(rt: HostRuntime) {
    let alloc = rt.alloc();
    let disk = SectorDisk::new(alloc, 32).expect(&rt, "memory");
    let store = LogStore::create(disk)
        .ok()
        .expect(&rt, "a disk never fails");
    let mut recorder = Recorder::new(alloc, store).ok().expect(&rt, "memory");
    let flush = Bio::Flush;
    assert!(rt; recorder.check(&flush).is_ok());
    let _tracked = recorder.event(Event::Submit(flush));
    let _completed = recorder.event(Event::Complete {
        id: Id::new(0),
        ok: true,
    });
    let _closed = recorder.event(Event::Close);
    assert!(rt; recorder.drain().is_ok());
    assert!(rt; recorder.status().entries == 2);
}

#[test]
fn a_new_log_is_read(rt: HostRuntime) {
    let alloc = rt.alloc();
    let disk = SectorDisk::new(alloc, 32).expect(&rt, "memory");
    let store = LogStore::create(disk)
        .ok()
        .expect(&rt, "a disk never fails");
    let mut log = LogReader::open(alloc, store.into_device())
        .ok()
        .expect(&rt, "a log");
    assert!(rt; log.head().count == 0);
    assert!(rt; matches!(log.next(), Ok(None)));
}

#[test]
fn an_end_mark_is_replayed(rt: HostRuntime) {
    let alloc = rt.alloc();
    let disk = SectorDisk::new(alloc, 32).expect(&rt, "memory");
    let store = LogStore::create(disk)
        .ok()
        .expect(&rt, "a disk never fails");
    let mut recorder = Recorder::new(alloc, store).ok().expect(&rt, "memory");
    let _closed = recorder.event(Event::Close);
    assert!(rt; recorder.drain().is_ok());
    let mut log = LogReader::open(alloc, recorder.into_device())
        .ok()
        .expect(&rt, "a log");
    let mut target = SectorDisk::new(alloc, 8).expect(&rt, "memory");
    let end = Upto::Mark(b"dm-log-writes-end");
    assert!(rt; replay(&mut log, &mut target, &end).ok() == Some(1));
}
