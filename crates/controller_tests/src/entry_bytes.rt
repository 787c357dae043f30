//! Each bit of an entry and of a completion, and the field that has it by the standards' layouts.

use entry_codec::{CqeFault, Sqe, decode_cqe, decode_sqe, encode_cqe, encode_sqe};

/// Bytes with one bit set.
const BITS: [u8; 8] = [0x01, 0x02, 0x04, 0x08, 0x10, 0x20, 0x40, 0x80];

/// The first bit of each field of a submission queue entry, and how many it has.
const FIELDS: [(usize, usize); 16] = [
    (0, 8),
    (8, 2),
    (10, 4),
    (14, 2),
    (16, 16),
    (32, 32),
    (64, 32),
    (96, 32),
    (128, 64),
    (192, 128),
    (320, 32),
    (352, 32),
    (384, 32),
    (416, 32),
    (448, 32),
    (480, 32),
];

fn fields(sqe: &Sqe) -> [u128; 16] {
    [
        u128::from(sqe.opcode),
        u128::from(sqe.fuse()),
        u128::from(sqe.reserved()),
        u128::from(sqe.psdt()),
        u128::from(sqe.cid),
        u128::from(sqe.nsid),
        u128::from(sqe.cdw2),
        u128::from(sqe.cdw3),
        u128::from(sqe.mptr),
        sqe.dptr,
        u128::from(sqe.cdw10),
        u128::from(sqe.cdw11),
        u128::from(sqe.cdw12),
        u128::from(sqe.cdw13),
        u128::from(sqe.cdw14),
        u128::from(sqe.cdw15),
    ]
}

#[test]
fn each_bit_of_an_entry(rt: HostRuntime) {
    for (index, (first, width)) in FIELDS.iter().enumerate() {
        assert!(rt; index < 16 && *first < 512 && *width <= 128);
        let mut value = 1u128;
        for bit in *first..*first + *width {
            assert!(rt; bit < 512);
            let mut bytes = [0; 64];
            bytes[bit / 8] = BITS[bit % 8];
            let mut want = [0; 16];
            want[index] = value;
            let sqe = decode_sqe(&bytes);
            assert_eq!(rt; fields(&sqe), want, "bit {bit}");
            assert_eq!(rt; encode_sqe(&sqe), bytes, "bit {bit}");
            value = value.wrapping_mul(2);
        }
    }
}

#[test]
fn each_bit_of_a_completion(rt: HostRuntime) {
    for bit in 0usize..128 {
        let mut bytes = [0; 16];
        bytes[bit / 8] = BITS[bit % 8];
        match decode_cqe(&bytes) {
            Ok(cqe) => {
                assert!(rt; bit >= 64 && bit < 124, "bit {bit}");
                assert_eq!(rt; encode_cqe(&cqe), bytes, "bit {bit}");
            }
            Err(fault) => {
                assert!(rt; bit < 64 || bit >= 124, "bit {bit}");
                assert_eq!(rt; fault, CqeFault::ReservedNotZero);
                assert_eq!(rt; fault.number(), 31);
            }
        }
    }
}
