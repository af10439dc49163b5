/// With more sends than this, 2^32 - 1,024, a node takes no step: one step sends 1,000 messages at most, and their numbers
/// have 32 bits.
pub const SENDS_MAX: u32 = 4_294_966_272;
