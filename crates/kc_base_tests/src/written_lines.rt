//! Lines of numbers and names in both formats, and a sink that fails in between.
use kc_io::Failed;
use kc_io::mem_sink::MemSink;
use kc_lines::field::Field;
use kc_lines::format::Format;
use kc_lines::lines::put_line;
use kc_lines::page::Page;
use kc_lines::value::Value;
use std::process::Abort;

/// Room for the text of each case.
const ROOM: usize = 128;

/// Writes two lines, until a call fails.
fn write_two(page: &mut Page, sink: &mut MemSink, format: Format) -> Result<(), Failed> {
    let sizes = [
        Field::new("core", Value::Number(2)),
        Field::new("shell_vertices", Value::Number(0)),
        Field::new("core_edges", Value::Number(18_446_744_073_709_551_615)),
    ];
    put_line(page, sink, format, &[Field::new("id", Value::Number(7))])?;
    put_line(page, sink, format, &sizes)?;
    page.write(sink)
}

/// A sink in memory with room for so many bytes.
fn sink_of<R: Abort + AllocGlobal>(rt: &R, room: usize) -> MemSink {
    MemSink::new(rt.alloc(), room, 5, Vec::new(rt.alloc())).expect(rt, "no memory")
}

/// Compares what a sink of so many bytes takes of two lines, and how the last call ends.
fn check<R: Abort + AllocGlobal>(
    rt: &R,
    format: Format,
    room: usize,
    wanted: &[u8],
    end: Result<(), Failed>,
) {
    let mut sink = sink_of(rt, room);
    let mut page = Page::new(rt.alloc()).expect(rt, "no memory");
    let ended = write_two(&mut page, &mut sink, format);
    assert_eq!(rt; (sink.taken(), ended), (wanted, end));
}

#[test]
fn a_line_has_tabs_or_is_an_object(rt: HostRuntime) {
    let tabs = b"7\n2\t0\t18446744073709551615\n".as_slice();
    let json =
        b"{\"id\":7}\n{\"core\":2,\"shell_vertices\":0,\"core_edges\":18446744073709551615}\n".as_slice();
    check(&rt, Format::Tabs, ROOM, tabs, Ok(()));
    check(&rt, Format::Json, ROOM, json, Ok(()));
}

#[test]
fn a_sink_that_fails_has_a_prefix(rt: HostRuntime) {
    check(&rt, Format::Tabs, 4, b"7\n2\t", Err(Failed));
    check(&rt, Format::Json, 3, b"{\"i", Err(Failed));
}

/// Writes the line of a name and a number.
fn write_name(
    page: &mut Page,
    sink: &mut MemSink,
    format: Format,
    name: &[u8],
) -> Result<(), Failed> {
    let fields = [
        Field::new("id", Value::Name(name)),
        Field::new("core", Value::Number(2)),
    ];
    put_line(page, sink, format, &fields)?;
    page.write(sink)
}

/// Compares the line of a name.
fn check_name<R: Abort + AllocGlobal>(rt: &R, format: Format, name: &[u8], wanted: &[u8]) {
    let mut sink = sink_of(rt, ROOM);
    let mut page = Page::new(rt.alloc()).expect(rt, "no memory");
    let ended = write_name(&mut page, &mut sink, format, name);
    assert_eq!(rt; (sink.taken(), ended), (wanted, Ok(())));
}

// The strings are those that serde_json and Python's json.dumps, without ensure_ascii, write.
#[test]
fn a_name_is_a_string_of_json(rt: HostRuntime) {
    check_name(&rt, Format::Tabs, b"O\"Neil\\", b"O\"Neil\\\t2\n");
    check_name(
        &rt,
        Format::Json,
        b"O\"Neil\\/",
        b"{\"id\":\"O\\\"Neil\\\\/\",\"core\":2}\n",
    );
    check_name(
        &rt,
        Format::Json,
        b"\x08\t\n\x0c\r",
        b"{\"id\":\"\\b\\t\\n\\f\\r\",\"core\":2}\n",
    );
    check_name(
        &rt,
        Format::Json,
        b"\x00\x1f \x7f\xc3\xa4",
        b"{\"id\":\"\\u0000\\u001f \x7f\xc3\xa4\",\"core\":2}\n",
    );
}
