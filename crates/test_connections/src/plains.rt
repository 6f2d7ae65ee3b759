use crate::talks::talks;
use std::test::Fail;

const ITEM: &[(&str, &str)] = &[
    ("set a 5 0 2\r\nhi", "STORED"),
    ("get a", "VALUE a 5 2\r\nhi\r\nEND"),
    ("gets a", "VALUE a 5 2 1\r\nhi\r\nEND"),
    ("incr a 1", "CLIENT_ERROR not a number"),
    ("delete a", "DELETED"),
    ("get a", "END"),
];

#[test]
fn an_item_is_stored_and_taken_out(rt: HostRuntime) -> Result<(), Fail> {
    talks(&rt, rt.alloc(), &[], ITEM)
}

const COUNTER: &[(&str, &str)] = &[
    ("set n 0 0 20\r\n18446744073709551615", "STORED"),
    ("incr n 2", "1"),
    ("decr n 5", "0"),
    ("add n 0 0 1\r\nx", "NOT_STORED"),
    ("cas n 0 0 1 9\r\ny", "EXISTS"),
    ("set profile:2 0 0 1\r\nz", "CLIENT_ERROR query key"),
    (
        "set q 0 0 1 noreply\r\nk\r\nget n q",
        "VALUE n 0 1\r\n0\r\nVALUE q 0 1\r\nk\r\nEND",
    ),
];

#[test]
fn a_counter_wraps_and_stops(rt: HostRuntime) -> Result<(), Fail> {
    talks(&rt, rt.alloc(), &[], COUNTER)
}

/// Plain commands beside a lease: neither knows of the other's keys.
const BOTH: &[(&str, &str)] = &[
    ("begin read", "SESSION 1"),
    ("set a 0 0 1\r\nx", "STORED"),
    ("iqget npending:2 1 0", "LEASE 1"),
    ("get npending:2", "CLIENT_ERROR query key"),
    ("  get   a  ", "VALUE a 0 1\r\nx\r\nEND"),
    ("iqset npending:2 0 0 1 1 7\r\n5", "STORED"),
    ("delete npending:2", "CLIENT_ERROR query key"),
    (
        "delete a noreply\r\niqget npending:2 1 0",
        "VALUE npending:2 0 1 7\r\n5\r\nEND",
    ),
    ("iqget a 1 0", "CLIENT_ERROR not a query key"),
    ("get a", "END"),
];

#[test]
fn plain_commands_stand_beside_leases(rt: HostRuntime) -> Result<(), Fail> {
    talks(&rt, rt.alloc(), &[], BOTH)
}

/// With `noreply` no answer is told, errors too. A line that isn't of its verb's form is told so.
const SILENT: &[(&str, &str)] = &[
    ("set a 0 60 1 noreply\r\nx\r\nget a", "END"),
    ("set profile:2 0 0 1 noreply\r\nx\r\nget a", "END"),
    ("add a 0 0 1 noreply\r\n1\r\nincr a 6", "7"),
    (
        "incr a 1 noreply\r\ndecr a 9 noreply\r\nget a",
        "VALUE a 0 1\r\n0\r\nEND",
    ),
    ("delete b noreply\r\ndelete b", "NOT_FOUND"),
    ("get a noreply", "VALUE a 0 1\r\n0\r\nEND"),
    ("get", "CLIENT_ERROR bad line"),
    ("delete a 0", "CLIENT_ERROR bad line"),
    ("incr a noreply", "CLIENT_ERROR bad line"),
    (
        "set a 0 0 1 norepl\r\nget a",
        "CLIENT_ERROR bad line\r\nVALUE a 0 1\r\n0\r\nEND",
    ),
    ("GET a", "ERROR"),
];

#[test]
fn no_reply_is_told_where_none_is_wanted(rt: HostRuntime) -> Result<(), Fail> {
    talks(&rt, rt.alloc(), &[], SILENT)
}
