// The samples that a caller puts into a plane before a call, and those that are held against others after it.

// The samples of another list from a place up to another; the rest stays.
pub fn copy(to: &mut [u16], from: &[u16], start: usize, end: usize) {
    let end = end.min(to.len()).min(from.len());
    if start < end {
        to[start..end].copy_from_slice(&from[start..end]);
    }
}

// Rubbish from a place on: a first number, and each next one a step more, as u16 wraps.
pub fn spoil(list: &mut [u16], start: usize, first: u16, step: u16) {
    let mut next = first;
    for sample in list.iter_mut().skip(start) {
        *sample = next;
        next = next.wrapping_add(step);
    }
}

// Whether two lists have the same samples from a place up to another, where both reach that far.
pub fn alike(a: &[u16], b: &[u16], start: usize, end: usize) -> bool {
    if end <= start {
        return true;
    }
    match (a.get(start..end), b.get(start..end)) {
        (Some(x), Some(y)) => x == y,
        _ => false,
    }
}
