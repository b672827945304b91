/// The quotient, rounded down: the dividend itself if it is divided by nothing.
pub fn split(n: u64, parts: u64) -> u64 {
    if parts == 0 { n } else { n / parts }
}

/// How many pieces of this size there are in the whole, the last one maybe smaller. None of size 0.
pub fn pieces(whole: u64, size: u64) -> u64 {
    if size == 0 {
        0
    } else if whole % size == 0 {
        whole / size
    } else {
        (whole / size).saturating_add(1)
    }
}
