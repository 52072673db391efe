/// The phrases that stand inside themselves, a level of nesting deeper.
#[derive(Clone, Copy, Debug, PartialEq, Eq)]
pub enum Nest {
    /// A whole expression, in parentheses, in a list behind IN, or in an aggregate.
    Whole,
    /// What NOT denies.
    Negation,
    /// What `-` turns.
    Factor,
}
