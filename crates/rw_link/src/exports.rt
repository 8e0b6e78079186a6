ghost use Rattle.std.specs.Prelude.{◌≡◌, ℕ, List, codes, IfOk};
ghost use Rattle.std.specs.Borrow.{Bor};
ghost use Rattle.std.specs.Str.{bytes_eq};
ghost use Rattle.indexmap.specs.IndexMap.{get};
ghost use Rattle.rw_program.specs.Linking.{exported};

use indexmap::IndexMap;
use rw_types::ExportDef;
use std::alloc::{AllocError, Global};

/// The numbers of exported functions by their names; of one name, the first.
fn by_name<'a>(
    alloc: Global,
    exports: &'a [ExportDef],
) -> Result<IndexMap<&'a [u8], u32>, AllocError>
    ensures { IfOk result (λ numbers. (name : Bor (List ℕ)) → get (λ x y. bytes_eq x.now y.now) numbers name ≡ exported name.now exports.now) }
{
    let mut numbers = IndexMap::new(alloc);
    for export in exports {
        let name = export.name.as_slice();
        if !numbers.contains_key(name) {
            numbers.insert(name, export.func)?;
        }
    }
    Ok(numbers)
}

/// The number of the function that is exported as `main`.
pub fn main_export(alloc: Global, exports: &[ExportDef]) -> Result<Option<u32>, AllocError>
    ensures { IfOk result (λ main. main ≡ exported (codes "main") exports.now) }
{
    let numbers = by_name(alloc, exports)?;
    Ok(numbers.get(b"main".as_slice()).copied())
}
