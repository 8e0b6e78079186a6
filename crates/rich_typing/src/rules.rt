/// The rules that a module can break, in the order in which they are described; this project's own.
#[derive(Clone, Copy, PartialEq, Eq, Debug)]
pub enum Rule {
    /// An instruction stands after one that ends its list.
    DeadCode,
    /// A global's first value needs what does not stand yet.
    Initialiser,
    /// A number names nothing, or is repeated.
    Index,
    /// A type is not well formed.
    TypeForm,
    /// A type is larger than its slot.
    SlotSize,
    /// There are too few operands.
    Operands,
    /// An operand has not the form that is taken.
    OperandType,
    /// The operands at a list's end are not those that the list gives.
    BlockEnd,
    /// The locals at a list's end are not those that the list leaves.
    LocalsEnd,
    /// The type of a global is linear.
    LinearGlobal,
    /// The name of an export is used twice.
    Duplicate,
    /// A linear value is dropped.
    LinearDrop,
    /// A branch skips a linear operand.
    Crossed,
    /// Locals are not those of the label.
    LocalsDiffer,
    /// Two locations differ.
    LocationsDiffer,
    /// A linear value is copied.
    LinearCopy,
    /// A local holds no linear value.
    Spent,
    /// A global that cannot be set is set.
    ConstGlobal,
    /// The arguments do not answer the binders.
    Instance,
    /// A location is not in the linear memory.
    Memory,
    /// The privilege is not the one that is needed.
    Privilege,
    /// A struct has no slot of this number.
    Slot,
    /// A type differs from that of its slot.
    SlotType,
    /// There are not as many lists as cases.
    Arms,
    /// A type has not the qualifier that is written.
    Qualifier,
    /// A type has not the size that is written.
    Size,
    /// The part of the language is not checked yet.
    NotYetBuilt,
}
