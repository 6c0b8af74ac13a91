// The bytes of the two buffers: the one that is lent to the calls, and the stored one.

// A list begins with bytes of which each is one more than the one before, so that no byte is like its neighbour.
pub fn fill(buffer: &mut [u8], first: u8) {
    let mut next = first;
    for byte in buffer.iter_mut() {
        *byte = next;
        next = next.wrapping_add(1);
    }
}

// Stores the bytes from a place on, as far as there is room.
pub fn store(buffer: &mut [u8], at: usize, bytes: &[u8]) {
    for (to, byte) in buffer.iter_mut().skip(at).zip(bytes) {
        *to = *byte;
    }
}
