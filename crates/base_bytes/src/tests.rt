// Escapes by the table of the formats.
use crate::{Escaped, bad_escape, escape_into, escaped_size, unescape};
use std::test::Fail;

const PLAIN: [u8; 7] = [0, b'a', 9, 10, 13, 255, 0x80];

const FIELD: [u8; 12] = [
    255, 0x80, b'a', 255, 0x89, 255, 0x8a, 255, 0x8d, 255, 255, 0x80,
];

#[test]
fn each_escape_is_written(rt: HostRuntime) -> Result<(), Fail> {
    let mut field = [0u8; 14];
    assert_eq!(rt; escaped_size(&PLAIN), 12);
    let escaped = escape_into(&PLAIN, &mut field);
    assert_eq!(rt;
        escaped,
        Escaped {
            read: 7,
            written: 12
        }
    );
    assert!(rt; field[..12] == FIELD[..]);
    Ok(())
}

#[test]
fn what_has_no_room_is_left(rt: HostRuntime) -> Result<(), Fail> {
    let mut field = [0u8; 4];
    let escaped = escape_into(&PLAIN, &mut field);
    assert_eq!(rt;
        escaped,
        Escaped {
            read: 2,
            written: 3
        }
    );
    Ok(())
}

#[test]
fn each_escape_is_read(rt: HostRuntime) -> Result<(), Fail> {
    let mut field = FIELD;
    assert_eq!(rt; bad_escape(&field), None);
    let size = unescape(&mut field);
    assert_eq!(rt; size, 7);
    assert!(rt; field[..7] == PLAIN[..]);
    Ok(())
}

#[test]
fn first_bad_escape_is_found(rt: HostRuntime) -> Result<(), Fail> {
    assert_eq!(rt; bad_escape(&[255]), Some(0));
    assert_eq!(rt; bad_escape(&[255, 255]), None);
    assert_eq!(rt; bad_escape(&[255, 255, 255]), Some(2));
    assert_eq!(rt; bad_escape(&[b'a', 255, 9]), Some(1));
    assert_eq!(rt; bad_escape(&[255, 0x81, 255]), Some(0));
    assert_eq!(rt; bad_escape(&[0, 13, 0x80]), None);
    Ok(())
}
