//! The examples of doc comments. `bench/headline.py` writes the body of a test of this file into
//! the doc comment that names the test.
use bio::{Bio, CoreEvent, Id, Ms};
use blockdev::BlockDev;
use judge::{First, Verdict, could_hold, is_lawful};
use layer_table::{Stack, parse_line};
use sector_disk::SectorDisk;

#[test]
fn a_crash_loses_a_write(rt: HostRuntime) {
    let mut disk = SectorDisk::new(rt.alloc(), 8).expect(&rt, "memory");
    disk.write(Ms::new(0), 3, &[7; 512], false)
        .expect(&rt, "memory");
    disk.crash(&[]);
    let bytes = disk.into_bytes().expect(&rt, "memory");
    assert!(rt; bytes.iter().all(|byte| *byte == 0));
}

#[test]
fn a_layer_fails_a_flush(rt: HostRuntime) {
    let disk = SectorDisk::new(rt.alloc(), 8).expect(&rt, "memory");
    let error = parse_line(b"0 8 error")
        .ok()
        .expect(&rt, "a line of a table");
    let mut stack = Stack::new(disk)
        .over(rt.alloc(), error, Ms::new(0))
        .ok()
        .expect(&rt, "room for a layer");
    assert!(rt; stack.flush(Ms::new(0)).is_err());
    assert!(rt; stack.faults() == 1);
}

#[test]
fn an_image_that_nothing_wrote(rt: HostRuntime) {
    let flush = CoreEvent::Submit(Bio::Flush);
    let end = CoreEvent::Complete {
        id: Id::new(0),
        ok: true,
    };
    let events = [flush, end];
    let image = vec![in rt.alloc(); 7; 512].expect(&rt, "memory");
    assert!(rt; image.len() % 512 == 0 && is_lawful(&events, (image.len() / 512) as u64));
    let verdict = could_hold(rt.alloc(), &events, 2, First::Zeroes, &image).expect(&rt, "memory");
    assert!(rt;
        verdict
            == Verdict::No {
                sector: 0,
                by: None
            }
    );
}
