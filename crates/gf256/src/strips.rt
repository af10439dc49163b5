/// Fewer distinct indexes were given than a block has data strips.
#[derive(Clone, Copy, Debug, PartialEq, Eq)]
pub struct TooFewStrips;
