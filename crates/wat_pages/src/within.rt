/// How many pages there may be.
#[derive(Clone, Copy, Debug, PartialEq, Eq)]
pub enum Within {
    /// As many as the stored limit says.
    Limit,
    /// As many as numbers of 4 bytes can name: 4,294,967,295.
    Any,
}
