/// What a byte makes of a state (this project's own).
#[derive(Debug, Drop)]
pub enum Progress<S, T> {
    /// A further state: more bytes are wanted.
    More(S),
    /// A value, of which this was the last byte.
    Done(T),
}
