//! Faults put into bytes, where a seed leads to.
use std::alloc::AllocError;

/// What is put in: bytes that mean something in a grammar, a theme or a pattern, and one that no
/// text has.
const MARKS: &[u8] = b"[]{}()<>:\"'-#|\\*+?&!%@`,.0 \t\r\n\0\xff";

/// A fault.
#[derive(Clone, Copy)]
enum Fault {
    Dropped,
    Doubled,
    Swapped,
    Marked,
    /// What comes after the place is moved before all.
    Moved,
}

const FAULTS: [Fault; 5] = [
    Fault::Dropped,
    Fault::Doubled,
    Fault::Swapped,
    Fault::Marked,
    Fault::Moved,
];

/// A number below another one that isn't zero, by a generator of Knuth's.
pub fn below(seed: &mut u64, most: usize) -> usize {
    *seed = seed
        .wrapping_mul(6_364_136_223_846_793_005)
        .wrapping_add(1_442_695_040_888_963_407);
    match usize::try_from(*seed >> 33) {
        Ok(number) => number % most.max(1),
        Err(_) => 0,
    }
}

/// The front of bytes up to a place, and the rest.
fn parted(bytes: &[u8], place: usize) -> (&[u8], &[u8]) {
    match (bytes.get(..place), bytes.get(place..)) {
        (Some(front), Some(rest)) => (front, rest),
        _ => (bytes, &[]),
    }
}

/// Adds bytes with a fault at a place.
fn add_broken(
    bytes: &[u8],
    (place, fault): (usize, Fault),
    mark: u8,
    out: &mut Vec<u8>,
) -> Result<(), AllocError> {
    let (front, rest) = parted(bytes, place);
    let (first, others) = parted(rest, 1);
    let (second, more) = parted(others, 1);
    let parts: [&[u8]; 4] = match fault {
        Fault::Dropped => [front, others, &[], &[]],
        Fault::Doubled => [front, first, rest, &[]],
        Fault::Swapped => [front, second, first, more],
        Fault::Marked => [front, &[], &[], rest],
        Fault::Moved => [rest, front, &[], &[]],
    };
    let [one, two, three, four] = parts;
    out.extend_from_slice(one)?;
    out.extend_from_slice(two)?;
    out.extend_from_slice(three)?;
    if let Fault::Marked = fault {
        out.push(mark)?;
    }
    out.extend_from_slice(four)?;
    Ok(())
}

/// Bytes with one more fault.
pub fn broken(bytes: &Vec<u8>, seed: &mut u64) -> Result<Vec<u8>, AllocError> {
    let place = below(seed, bytes.len());
    let fault = FAULTS.get(below(seed, 5)).copied();
    let mark = MARKS.get(below(seed, MARKS.len())).copied();
    let mut out = Vec::new(*bytes.allocator());
    let at = (place, fault.unwrap_or(Fault::Dropped));
    add_broken(bytes.as_slice(), at, mark.unwrap_or(0), &mut out)?;
    Ok(out)
}
