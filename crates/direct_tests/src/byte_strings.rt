//! Byte strings on both sides of the length up to which they take no memory.

use std::test::Fail;
use teal_value::ByteString;

const BYTES: [u8; 17] = [1, 2, 3, 4, 5, 6, 7, 8, 9, 10, 11, 12, 13, 14, 15, 16, 17];

#[test]
fn byte_strings_are_handed_out_as_vectors(rt: HostRuntime) -> Result<(), Fail> {
    let alloc = rt.alloc();
    for length in [0usize, 16, 17] {
        let bytes = &BYTES[..length];
        let vector = ByteString::from_slice(alloc, bytes)?.into_vec(alloc)?;
        assert!(rt; vector.as_slice() == bytes, "{length}");
    }
    Ok(())
}
