// Octets in the front of an array.
#[derive(Clone, Copy)]
pub(crate) struct Filled<const N: usize> {
    pub(crate) array: [u8; N],
    pub(crate) length: usize,
}

impl<const N: usize> Filled<N> {
    pub(crate) fn octets(&self) -> &[u8] {
        octets::part(&self.array, 0, self.length)
    }
}
