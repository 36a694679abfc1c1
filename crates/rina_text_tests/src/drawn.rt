//! The text that number 7 makes.
use crate::seven;
use rina_base::Memory;
use rina_gen::make;
use std::alloc::Global;

/// Whether number 7 makes its text.
fn seven_makes(alloc: Global) -> bool {
    match make(alloc, 7) {
        Ok(text) => text.as_slice() == seven::TEXT,
        Err(Memory) => false,
    }
}

#[test]
fn seven_makes_its_text(rt: HostRuntime) {
    assert!(rt; seven_makes(rt.alloc()));
}
