//! Tests that callers can use what `minisign` re-exports from `minisign_hash`: stored states, sizes,
//! little-endian numbers, copying, and writers of numbers. `tests/rows/hashing.py` has the digests and
//! the comparison of bytes.

use minisign::minisign_hash::{
    BLAKE2B_BLOCKBYTES, BLAKE2B_KEYBYTES, BLAKE2B_OUTBYTES, BLAKE2B_PERSONALBYTES,
    BLAKE2B_SALTBYTES, WriteExt, copy_memory, read_u64v_le, write_u32_le, write_u64_le,
    write_u64v_le,
};
use std::alloc::Global;
use std::io;

#[test]
fn writes_numbers_in_little_endian(rt: HostRuntime) {
    let mut four = [9u8; 4];
    write_u32_le(&mut four, 0x01020304);
    let is_four = four == [4, 3, 2, 1];
    let mut eight = [9u8; 8];
    write_u64_le(&mut eight, 0x0102030405060708);
    let is_eight = eight == [8, 7, 6, 5, 4, 3, 2, 1];
    let mut three = [9u8; 3];
    copy_memory(&[1, 2], &mut three);
    let is_copied = three == [1, 2, 9];
    assert!(rt; is_four && is_eight && is_copied);
    assert!(rt; are_read_and_written());
}

// Returns true if two numbers are read and written again.
fn are_read_and_written() -> bool {
    let bytes = [
        1, 0, 0, 0, 0, 0, 0, 0, 255, 255, 255, 255, 255, 255, 255, 255,
    ];
    let mut numbers = [9u64; 2];
    read_u64v_le(&mut numbers, &bytes);
    let are_read = numbers == [1, 18446744073709551615];
    let mut sixteen = [9u8; 16];
    write_u64v_le(&mut sixteen, &numbers);
    are_read && sixteen == bytes
}

// Returns true if a writer receives a number of each width.
fn writes_each_width(alloc: Global) -> bool {
    let mut bytes: Vec<u8> = Vec::new(alloc);
    let one = bytes.write_u8(0xab).is_ok();
    let four = bytes.write_u32_le(0x01020304).is_ok();
    let eight = bytes.write_u64_le(0x1112131415161718).is_ok();
    one && four && eight && bytes.as_slice() == WRITTEN.as_slice()
}

#[test]
fn writers_receive_numbers_in_little_endian(rt: HostRuntime) {
    assert!(rt; writes_each_width(rt.alloc()));
}

const WRITTEN: [u8; 13] = [
    0xab, 4, 3, 2, 1, 0x18, 0x17, 0x16, 0x15, 0x14, 0x13, 0x12, 0x11,
];

// Returns true if the error is that of a full writer.
fn is_full(answer: &io::Result<()>) -> bool {
    match answer {
        Ok(()) => false,
        Err(error) => error.kind() == io::ErrorKind::WriteZero,
    }
}

// Returns true if the writer accepts a number of one byte and one of four bytes, and then no more.
fn accepts_two_numbers(writer: &mut &mut [u8]) -> bool {
    let first = writer.write_u8(1);
    let second = writer.write_u32_le(2);
    first.is_ok() && second.is_ok() && rejects_each_number(writer)
}

// Returns true if the writer is full for numbers of each width.
fn rejects_each_number(writer: &mut &mut [u8]) -> bool {
    let one = is_full(&writer.write_u8(3));
    let four = is_full(&writer.write_u32_le(3));
    let eight = is_full(&writer.write_u64_le(3));
    one && four && eight
}

// The writer has space for five bytes.
#[test]
fn full_writer_rejects_numbers(rt: HostRuntime) {
    let mut room = [9u8; 5];
    assert!(rt; accepts_two_numbers(&mut room.as_mut_slice()));
    assert!(rt; room == [1, 2, 0, 0, 0]);
}

// RFC 7693, sections 2.1 and 2.5.
#[test]
fn blake2b_sizes_are_those_of_the_rfc(rt: HostRuntime) {
    assert!(rt; BLAKE2B_BLOCKBYTES == 128 && BLAKE2B_KEYBYTES == 64 && BLAKE2B_OUTBYTES == 64);
    assert!(rt; BLAKE2B_SALTBYTES == 16 && BLAKE2B_PERSONALBYTES == 16);
}
