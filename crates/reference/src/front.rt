// The front of a bank, a tray or a paper.

// Puts x into the first n cells; nothing where there are fewer.
pub(crate) fn fill_front<T: Copy>(cells: &mut [T], n: u64, x: T) -> Option<()> {
    cells.get_mut(0..n as usize)?.fill_with(|| x);
    Some(())
}

// Puts values into the first cells, as far as there are any.
pub(crate) fn put_front<T: Copy>(cells: &mut [T], values: &[T]) {
    for (cell, value) in cells.iter_mut().zip(values) {
        *cell = *value;
    }
}
