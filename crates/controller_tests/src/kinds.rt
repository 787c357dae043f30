//! Kinds of lines by their names and bits, and the faults of a line by their numbers.

use bitflags::Flags;
use history::{Kinds, LineFault, all_kinds, shows};

#[test]
fn kinds_have_names(rt: HostRuntime) {
    let kinds: [(&str, u8); 8] = [
        ("publish", 0x01),
        ("fetch", 0x02),
        ("grant", 0x04),
        ("block", 0x08),
        ("post", 0x10),
        ("reap", 0x20),
        ("refused", 0x40),
        ("medium", 0x80),
    ];
    for (name, bit) in kinds {
        let kind = Kinds::from_name(name);
        assert_eq!(rt; kind, Some(Kinds::from_bits_retain(bit)));
        assert!(rt; shows(all_kinds(), Kinds::from_bits_retain(bit)));
        assert!(rt; !shows(Kinds::from_bits_retain(!bit), Kinds::from_bits_retain(bit)));
    }
    assert_eq!(rt; Kinds::from_name(""), None);
    assert_eq!(rt; Kinds::from_name("Publish"), None);
}

// No text shows them: a program says which line is bad.
#[test]
fn faults_of_lines_have_numbers(rt: HostRuntime) {
    assert_eq!(rt; LineFault::Malformed.number(), 51);
    assert_eq!(rt; LineFault::NoMemory.number(), 11);
}
