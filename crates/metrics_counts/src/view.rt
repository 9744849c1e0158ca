//! What one seat at a counter's word knows. No value of this type is made.

/// What a seat saw and did: the total that it saw last, and the sum of what it added.
pub struct View {
    pub seen: u64,
    pub added: u64,
}
