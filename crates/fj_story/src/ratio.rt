/// So many parts of the whole, of which it has `parts`, rounded down. 0 of nothing.
pub fn share(n: u64, parts: u64, whole: u64) -> u64 {
    if whole == 0 {
        0
    } else {
        n.saturating_mul(parts) / whole
    }
}
