use std::alloc::AllocError;

/// The entry of this number. A shorter list is first extended with copies of `first`.
pub fn numbered<T: Copy + Drop>(
    things: &mut Vec<T>,
    number: u32,
    first: T,
) -> Result<&mut T, AllocError> {
    let place = number as usize;
    if things.len() <= place {
        things.resize(place + 1, first)?;
    }
    Ok(&mut things[place])
}
