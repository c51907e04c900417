//! Names in the order of their first coming, and texts of names that are read as texts of numbers.
use kc_dialect::{Dialect, Ids, Separator};
use kc_dialect_read::{DialectEdges, DialectFault, read_edges_in};
use kc_io::NoMemory;
use kc_io::mem_source::MemSource;
use kc_names::Names;
use std::alloc::Global;
use std::process::Abort;

/// What a text in a dialect tells, of which a read gives at most seven bytes.
fn read(alloc: Global, dialect: Dialect, text: &[u8]) -> Result<DialectEdges, DialectFault> {
    let mut source = MemSource::new(Vec::from_slice(alloc, text)?, 7, Vec::new(alloc));
    read_edges_in(alloc, &mut source, dialect)
}

/// All names in the order of their numbers, with a comma behind each.
fn listed(alloc: Global, names: &Names) -> Result<Vec<u8>, NoMemory> {
    let mut told = Vec::new(alloc);
    for number in 0..names.len() {
        told.extend_from_slice(names.get(number))?;
        told.push(b',')?;
    }
    Ok(told)
}

/// Checks the edges of a text, between the numbers of names, and the names with a comma behind each.
fn check_read<R: Abort + AllocGlobal>(
    rt: &R,
    dialect: Dialect,
    text: &[u8],
    edges: &[(u32, u32)],
    wanted: &[u8],
) {
    let found = read(rt.alloc(), dialect, text).expect(rt, "refused");
    let names = found.names.expect(rt, "no names");
    let told = listed(rt.alloc(), &names).expect(rt, "no memory");
    assert_eq!(rt;
        (found.named.edges.as_slice(), told.as_slice()),
        (edges, wanted)
    );
}

/// A name has this number.
fn check_number<R: Abort + AllocGlobal>(rt: &R, names: &mut Names, name: &[u8], wanted: usize) {
    let number = names.number(rt.alloc(), name).expect(rt, "no memory");
    assert_eq!(rt; number, wanted);
}

/// This number has this name.
fn check_name<R: Abort>(rt: &R, names: &Names, number: usize, wanted: &[u8]) {
    assert_eq!(rt; names.get(number), wanted);
}

#[test]
fn a_name_keeps_its_number(rt: HostRuntime) {
    let mut names = Names::new(rt.alloc());
    check_number(&rt, &mut names, b"bob", 0);
    check_number(&rt, &mut names, b"eve", 1);
    check_number(&rt, &mut names, b"bob", 0);
    check_number(&rt, &mut names, b"Bob", 2);
    assert_eq!(rt; names.len(), 3);
    check_name(&rt, &names, 1, b"eve");
    check_name(&rt, &names, 3, b"");
}

#[test]
fn names_are_numbered_as_they_come(rt: HostRuntime) {
    let blank = Dialect {
        ids: Ids::Names,
        ..Dialect::PLAIN
    };
    check_read(&rt, blank, b"", &[], b"");
    // an edge that is told again, a loop, and a name of digits
    check_read(
        &rt,
        blank,
        b"bob eve\n# ann\neve bob\n\nann ann\n0 bob",
        &[(0, 1), (0, 1), (0, 3)],
        b"bob,eve,ann,0,",
    );
    let comma = Dialect {
        separator: Separator::Comma,
        columns: (3, 1),
        skip: 1,
        ..blank
    };
    check_read(
        &rt,
        comma,
        b"to,when,from\nb,1,a\nc,2,b\n",
        &[(0, 1), (1, 2)],
        b"a,b,c,",
    );
}

#[test]
fn numbers_have_no_names(rt: HostRuntime) {
    let found = read(rt.alloc(), Dialect::PLAIN, b"7 9\n").expect(&rt, "refused");
    let told = (found.named.ids.as_slice(), found.names.is_none());
    assert_eq!(rt; told, ([7, 9].as_slice(), true));
}
