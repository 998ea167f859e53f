// Why Write was refused.

#[derive(Clone, Copy, Debug, PartialEq, Eq)]
pub enum WriteRefusal {
    // How many names the sheet has, and how many styles the net: not as many.
    StyleCounts { sheet: usize, net: usize },
    // The bytes needed, which the buffer has not.
    BufferTooShort(usize),
}
