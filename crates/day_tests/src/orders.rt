// Every order of four entries.

// How many orders there are.
pub(crate) const ORDERS: usize = 24;

// The entries in one of their orders: one of four comes first, one of the three others second, and one of two third.
pub(crate) fn in_order<E: Copy>(entries: [E; 4], order: usize) -> [E; 4] {
    let mut ordered = entries;
    ordered.swap(0, order % 4);
    ordered.swap(1, 1 + order / 4 % 3);
    ordered.swap(2, 2 + order / 12 % 2);
    ordered
}
