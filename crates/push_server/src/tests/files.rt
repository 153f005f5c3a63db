//! A file of the system as a disk.
use crate::file_disk::FileDisk;
use mx_outside::Disk;
use std::fs;

#[test]
fn a_file_keeps_what_it_is_given(rt: HostRuntime) {
    assert!(rt;
        fails_each_call(&mut FileDisk::open(&rt, "no folder/journal")),
        "no folder"
    );
    assert!(rt;
        fails_each_call(&mut FileDisk::open_to_read(&rt, "journal")),
        "no file"
    );
    assert!(rt;
        fs::metadata(&rt, "journal").is_err(),
        "none is made to be read"
    );
    assert!(rt;
        is_written(&rt, &mut FileDisk::open(&rt, "journal")),
        "made"
    );
    assert!(rt;
        gives(&mut FileDisk::open_to_read(&rt, "journal"), b"one 2"),
        "read"
    );
    assert!(rt;
        gives(&mut FileDisk::open(&rt, "journal"), b"one 2"),
        "opened again"
    );
    let _ = fs::remove_file(&rt, "journal");
}

/// Whether a file fails whatever it is asked.
fn fails_each_call(disk: &mut FileDisk<fs::File>) -> bool {
    let mut bytes = [0u8; 1];
    disk.len().is_err()
        && disk.read(0, &mut bytes).is_err()
        && disk.write_at(0, b"a").is_err()
        && disk.cut(0).is_err()
        && disk.sync().is_err()
}

/// Whether an empty file takes writes over one another, in its middle and at its end, and a cut,
/// and is nobody else's meanwhile.
fn is_written(rt: &HostRuntime, disk: &mut FileDisk<fs::File>) -> bool {
    gives(disk, b"")
        && disk.write_at(0, b"one two").is_ok()
        && disk.write_at(4, b"2, three").is_ok()
        && gives(disk, b"one 2, three")
        && disk.cut(5).is_ok()
        && disk.sync().is_ok()
        && disk.write_at(u64::MAX >> 1, b"a").is_err()
        && fails_each_call(&mut FileDisk::open(rt, "journal"))
        && gives(disk, b"one 2")
}

/// Whether these are the file's bytes, and none are behind them.
fn gives(disk: &mut FileDisk<fs::File>, bytes: &[u8]) -> bool {
    let mut buffer = [0u8; 16];
    let Ok(length) = disk.len() else {
        return false;
    };
    if length != bytes.len() as u64 || bytes.len() >= buffer.len() {
        return false;
    }
    let found = &mut buffer[..bytes.len()];
    disk.read(0, found).is_ok() && &*found == bytes && disk.read(1, &mut buffer).is_err()
}
