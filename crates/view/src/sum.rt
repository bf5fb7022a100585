// The FNV-1a sum of 32 bits.

// The sum of some bytes.
pub fn checksum(bs: &[u8]) -> u32 {
    bs.iter().fold(2166136261, |sum: u32, b| {
        (sum ^ u32::from(*b)).wrapping_mul(16777619)
    })
}
