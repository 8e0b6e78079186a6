ghost use Rattle.std.specs.Prelude.{◌≡◌};
ghost use Rattle.rich_types.specs.Scopes.{scope_of};
ghost use Rattle.rw_operand_stack.specs.Operands.{operand_of, ty_of};

use rw_quals_sizes::{Ctx, qual_of};
use rw_types::{Qual, Ty};

/// A linear operand. It cannot be dropped: it has to be taken, or given back to a stack; this project's own.
pub struct Held {
    ty: Ty,
}

impl Held {
    /// Its type.
    pub fn ty(&self) -> &Ty
        ensures { result.now ≡ self.now.ty }
    {
        &self.ty
    }

    /// Spends it.
    pub fn take(self) -> Ty
        ensures { result ≡ self.ty }
    {
        let Held { ty } = self;
        ty
    }
}

/// An operand: `Plain` of an `unr` type, `Linear` of every other; this project's own.
pub enum Operand {
    Plain(Ty),
    Linear(Held),
}

impl Operand {
    /// Its type.
    pub fn ty(&self) -> &Ty
        ensures { result.now ≡ ty_of self.now }
    {
        match self {
            Operand::Plain(ty) => ty,
            Operand::Linear(held) => held.ty(),
        }
    }

    /// Spends it.
    pub fn spend(self) -> Ty
        ensures { result ≡ ty_of self }
    {
        match self {
            Operand::Plain(ty) => ty,
            Operand::Linear(held) => held.take(),
        }
    }
}

/// The operand of this type under the binders of a context. It takes no memory.
pub fn make_operand(c: &Ctx, t: Ty) -> Operand
    ensures { result ≡ operand_of (scope_of c.now.binders) t }
{
    match qual_of(c, &t) {
        Qual::Unr => Operand::Plain(t),
        Qual::Lin => Operand::Linear(Held { ty: t }),
    }
}
