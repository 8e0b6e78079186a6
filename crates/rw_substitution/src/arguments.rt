ghost use Rattle.std.specs.Prelude.{◌≡◌, ◌+◌, length, slice_get, Some, None};
ghost use Rattle.rich_types.specs.Instances.{substitution_of};
ghost use Rattle.rw_substitution.specs.Sought.{IsLocationAmong, IsTypeAmong};

use rw_types::{Arg, Ty};

/// What a number names: an argument, or what has this number outside all of its kind.
#[derive(Clone, Copy)]
pub enum Sought<T> {
    Here(T),
    Further(u32),
}

/// The location that stands for this number.
pub fn location_among(args: &[Arg], n: u32) -> Sought<u32>
    ensures { IsLocationAmong (substitution_of args.now) n result }
{
    let mut at = args.len();
    let mut further = n;
    while at > 0 {
        at -= 1;
        if let Arg::Loc(location) = &args[at] {
            if further == 0 {
                return Sought::Here(*location);
            }
            further -= 1;
        }
    }
    Sought::Further(further)
}

/// The type that stands for this number.
pub fn type_among<'a>(args: &'a [Arg], n: u32) -> Sought<&'a Ty>
    ensures { IsTypeAmong (substitution_of args.now) n result }
{
    let mut at = args.len();
    let mut further = n;
    while at > 0 {
        at -= 1;
        if let Arg::Given(t) = &args[at] {
            if further == 0 {
                return Sought::Here(t);
            }
            further -= 1;
        }
    }
    Sought::Further(further)
}
