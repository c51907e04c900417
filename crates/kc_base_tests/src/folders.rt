//! Files that are replaced whole, in memory.
use kc_files::fault::FolderFault;
use kc_files::folder::{Folder, Unplaced};
use kc_files::mem_folder::{MemFolder, Refusals};
use kc_io::mem_sink::MemSink;
use kc_io::sink::write_all;
use std::process::Abort;

/// What nothing refuses.
const NOTHING: Refusals = Refusals {
    unbegun: None,
    unplaced: None,
    sticks: false,
};

/// A folder with a file `out` of the text `old`, whose part takes nine bytes.
fn folder_of<R: Abort + AllocGlobal>(rt: &R, refusals: Refusals) -> MemFolder {
    let part = MemSink::new(rt.alloc(), 9, 4, Vec::new(rt.alloc())).expect(rt, "no memory");
    let name = String::from_str(rt.alloc(), "out").expect(rt, "no memory");
    let old = Vec::from_slice(rt.alloc(), b"old").expect(rt, "no memory");
    MemFolder::new(name, Some(old), part, refusals)
}

/// Writes a text to the part of a file, and puts it in place.
fn replace(folder: &mut MemFolder, name: &str, text: &[u8]) -> Result<(), Unplaced> {
    let mut part = match folder.begin(name) {
        Ok(part) => part,
        Err(fault) => {
            return Err(Unplaced {
                fault,
                is_left: false,
            });
        }
    };
    if write_all(&mut part, text).is_err() {
        let is_left = folder.give_up(part);
        return Err(Unplaced {
            fault: FolderFault::Cut,
            is_left,
        });
    }
    folder.put_in_place(name, part)
}

/// Replaces a file, and compares how it ends and what `out` holds.
fn check<R: Abort + AllocGlobal>(
    rt: &R,
    refusals: Refusals,
    name: &str,
    text: &[u8],
    end: Result<(), Unplaced>,
    wanted: &[u8],
) {
    let mut folder = folder_of(rt, refusals);
    let ended = replace(&mut folder, name, text);
    assert_eq!(rt; (ended, folder.bytes()), (end, Some(wanted)));
}

/// The fault of a part that is taken away.
fn refused(fault: FolderFault) -> Result<(), Unplaced> {
    Err(Unplaced {
        fault,
        is_left: false,
    })
}

#[test]
fn a_file_is_replaced_whole(rt: HostRuntime) {
    check(&rt, NOTHING, "out", b"all of it", Ok(()), b"all of it");
    check(&rt, NOTHING, "out", b"", Ok(()), b"");
}

#[test]
fn a_refusal_leaves_the_file(rt: HostRuntime) {
    let unbegun = Refusals {
        unbegun: Some(FolderFault::Begun),
        ..NOTHING
    };
    let unplaced = Refusals {
        unplaced: Some(FolderFault::Forbidden),
        ..NOTHING
    };
    let missing = refused(FolderFault::Missing);
    check(&rt, NOTHING, "another", b"new", missing, b"old");
    check(
        &rt,
        unbegun,
        "out",
        b"new",
        refused(FolderFault::Begun),
        b"old",
    );
    check(
        &rt,
        unplaced,
        "out",
        b"new",
        refused(FolderFault::Forbidden),
        b"old",
    );
}

#[test]
fn a_part_that_is_cut_leaves_the_file(rt: HostRuntime) {
    let sticks = Refusals {
        sticks: true,
        ..NOTHING
    };
    let left = Err(Unplaced {
        fault: FolderFault::Cut,
        is_left: true,
    });
    check(
        &rt,
        NOTHING,
        "out",
        b"all of this",
        refused(FolderFault::Cut),
        b"old",
    );
    check(&rt, sticks, "out", b"all of this", left, b"old");
}
