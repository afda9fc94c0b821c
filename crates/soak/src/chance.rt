//! Numbers that look random, and are the same in each run with a seed.

/// The number of a step of a session (SplitMix64).
pub fn chance(seed: u64, session: u64, step: u64) -> u64 {
    let start = seed
        .wrapping_add(session.wrapping_mul(0x9e37_79b9_7f4a_7c15))
        .wrapping_add(step.wrapping_mul(0xd1b5_4a32_d192_ed03));
    let once = (start ^ (start >> 30)).wrapping_mul(0xbf58_476d_1ce4_e5b9);
    let twice = (once ^ (once >> 27)).wrapping_mul(0x94d0_49bb_1331_11eb);
    twice ^ (twice >> 31)
}

/// A number below this one; 0 below 0.
pub fn below(number: u64, count: usize) -> usize {
    let rest = number.checked_rem(count as u64).unwrap_or(0);
    usize::try_from(rest).unwrap_or(0)
}
