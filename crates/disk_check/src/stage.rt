/// What a check waits for.
#[derive(Clone, Copy, Debug)]
pub(crate) enum Stage {
    /// The pieces of the own object of an index.
    Comparing(u32),
    /// The write of its value, or to begin.
    WritingBack,
    /// Nothing: it has told what it found.
    Answered,
}
