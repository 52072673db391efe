// Much is noted: as many bytes as a flush may wait for, and one record more.
ghost use Rattle.std.specs.Prelude.{◌≡◌, OnOk};
ghost use Rattle.wat_log.specs.Log.{IsOpenLog, gate_of, log_frames};

use crate::entries::Entry;
use crate::steps::{Refused, Step, disk_of, read_back, take};
use std::alloc::Global;
use std::test::Fail;
use wat_disk::Disk;
use wat_log::Log;

// What is noted after each of three kinds of steps, and the frames at the end.
fn fill<D: Disk>(alloc: Global, disk: &mut D, last: &[Step]) -> Result<(usize, u64), Refused> {
    let mut log = Log::open(alloc, disk)?;
    for _i in 0..15 {
        take(
            alloc,
            disk,
            &mut log,
            Step::Note(Entry::Text { size: 65_535 }),
        )?;
    }
    for step in last {
        take(alloc, disk, &mut log, *step)?;
    }
    Ok((log.buffered(), log.frames()))
}

// Fifteen records have 983,220 bytes.
#[test]
fn a_record_more_is_noted_at_the_limit(rt: HostRuntime) -> Result<(), Fail> {
    let all = Step::Note(Entry::Text { size: 65_343 });
    let less = Step::Note(Entry::Text { size: 65_342 });
    let more = Step::Note(Entry::Text { size: 65_344 });
    let row = Step::Note(Entry::Rollback { conn: 2 });
    let cases: [(&[Step], Result<(usize, u64), Refused>); 7] = [
        (&[], Ok((983_220, 0))),
        (&[less], Ok((1_048_575, 0))),
        (&[all], Ok((1_048_576, 0))),
        (&[all, row], Ok((1_048_579, 0))),
        (&[more], Ok((1_048_577, 0))),
        (&[more, row], Err(Refused::Other)),
        (&[more, Step::Flush, row], Ok((3, 1))),
    ];
    for (last, want) in cases {
        let mut disk = disk_of(rt.alloc(), &[0], 1_100_000, &[])?;
        let got = fill(rt.alloc(), &mut disk, last);
        assert_eq!(rt; got, want, "{last:?}");
    }
    Ok(())
}

#[test]
fn a_full_buffer_is_one_frame_with_its_commit(rt: HostRuntime) -> Result<(), Fail> {
    let all = Step::Note(Entry::Text { size: 65_343 });
    let more = Step::Note(Entry::Text { size: 65_535 });
    let steps = [all, more, Step::Commit { conn: 9 }];
    let mut disk = disk_of(rt.alloc(), &[0], 1_200_000, &[])?;
    let got = fill(rt.alloc(), &mut disk, &steps);
    assert_eq!(rt; got, Ok((0, 1)));
    let read = read_back(rt.alloc(), &mut disk).ok().ok_or("read")?;
    assert_eq!(rt; read.len(), 18);
    assert_eq!(rt; read.last().copied(), Some(('k', 9)));
    Ok(())
}
