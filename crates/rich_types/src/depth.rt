/// How many binders of each kind stand around a place; this project's own.
#[derive(Clone, Copy, PartialEq, Eq, Debug)]
pub struct Depth {
    pub locations: u64,
    pub variables: u64,
}
