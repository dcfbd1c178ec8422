//! Values and bytes that are known from outside.

use std::test::Fail;
use stored_forms::{binary_read, binary_write, packed_read, packed_write};

#[test]
fn values_are_written(rt: HostRuntime) -> Result<(), Fail> {
    let mut binary = [0; 2];
    binary_write(-1234, 4, true, &mut binary);
    assert_eq!(rt; binary, [0xFB, 0x2E]);
    let mut packed = [0; 3];
    packed_write(-12345, 5, true, &mut packed);
    assert_eq!(rt; packed, [0x12, 0x34, 0x5D]);
    packed_write(1234, 4, false, &mut packed);
    assert_eq!(rt; packed, [0x01, 0x23, 0x4F]);
    Ok(())
}

const BINARY: [([u8; 2], Option<i128>); 5] = [
    ([0x27, 0x0F], Some(9999)),
    ([0x27, 0x10], None),
    ([0xD8, 0xF1], Some(-9999)),
    ([0xD8, 0xF0], None),
    ([0xFF, 0xFF], Some(-1)),
];

const PACKED: [([u8; 2], Option<i128>); 6] = [
    ([0x12, 0x3C], Some(123)),
    ([0x12, 0x3F], Some(123)),
    ([0x12, 0x3D], Some(-123)),
    ([0x00, 0x0D], Some(0)),
    ([0x12, 0x3B], None),
    ([0x1A, 0x3C], None),
];

const FILLED: [([u8; 2], Option<i128>); 5] = [
    ([0x01, 0x2F], Some(12)),
    ([0x01, 0x2D], None),
    ([0x41, 0x31], None),
    ([0x20, 0x20], None),
    ([0x11, 0x2F], None),
];

#[test]
fn bytes_are_read(rt: HostRuntime) -> Result<(), Fail> {
    for (bytes, expected) in BINARY {
        assert_eq!(rt; binary_read(&bytes, 4, true), expected);
    }
    for (bytes, expected) in PACKED {
        assert_eq!(rt; packed_read(&bytes, 3, true), expected);
    }
    for (bytes, expected) in FILLED {
        assert_eq!(rt; packed_read(&bytes, 2, false), expected);
    }
    Ok(())
}
