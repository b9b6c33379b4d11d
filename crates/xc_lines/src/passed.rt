/// How a request is served: with the answer yes, or with the answer no.
#[derive(Clone, Copy, Debug, PartialEq, Eq)]
pub enum Passed {
    /// It is done.
    Done,
    /// The answer is no.
    No,
}
