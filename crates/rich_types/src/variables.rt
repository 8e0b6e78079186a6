use rw_types::Qual;

/// What a type variable stands for: a type of this qualifier and size in words; this project's own.
#[derive(Clone, Copy, PartialEq, Eq, Debug)]
pub struct VariableKind {
    pub qual: Qual,
    pub size: u32,
}
