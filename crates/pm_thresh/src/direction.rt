/// The direction of a crossing (TS 28.622).
#[derive(Clone, Copy, Debug, PartialEq, Eq)]
pub enum Direction {
    /// From under the threshold to it.
    Up,
    /// From over the threshold back under it.
    Down,
}
