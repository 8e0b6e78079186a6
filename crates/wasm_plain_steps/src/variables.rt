ghost use Rattle.std.specs.Prelude.{◌≡◌, ◌+◌, ◌<◌, ◌≤◌, ◌∷◌, ℕ, List, Some, length, drop, slice_get, slice_set};
ghost use Rattle.wasm_execution.specs.Variables.{chosen, drop_one, select_one, get_local, set_local, tee_local, get_global, set_global};
ghost use Rattle.wasm_plain_steps.specs.Effects.{Does, DoesOnLocals, DoesOnGlobals};

use wasm_values::{Locals, Values};

/// The top operand is dropped (section 4.4.2.1).
pub fn drop_one(values: &mut Values)
    requires { 0 < length values.old.own }
    ensures does { Does drop_one values.old.own values.new.own }
    ensures rest { values.new.own ≡ drop 1 values.old.own }
    ensures beneath { values.new.beneath ≡ values.old.beneath }
    ensures room { values.new.room ≡ values.old.room + 1 }
{
    let _number = values.pop();
}

/// The lower of two operands where the one on top of them is not zero, else the upper (section 4.4.2.2).
pub fn select_one(values: &mut Values)
    requires { 3 ≤ length values.old.own }
    ensures does { Does select_one values.old.own values.new.own }
    ensures top { (condition second first : ℕ) (rest : List ℕ) → values.old.own ≡ condition ∷ (second ∷ (first ∷ rest)) → values.new.own ≡ chosen condition first second ∷ rest }
    ensures beneath { values.new.beneath ≡ values.old.beneath }
    ensures room { values.new.room ≡ values.old.room + 2 }
{
    let condition = values.pop();
    let second = values.pop();
    let first = values.pop();
    values.push(if condition != 0 { first } else { second });
}

/// The number of a local is put on top (section 4.4.3.1).
pub fn get_local(values: &mut Values, locals: &Locals, n: u32)
    requires there { n < length locals.now.own }
    requires room { 0 < values.old.room }
    ensures does { DoesOnLocals (get_local n) values.old.own locals.now.own values.new.own locals.now.own }
    ensures top { (v : ℕ) → slice_get locals.now.own n ≡ Some v → values.new.own ≡ v ∷ values.old.own }
    ensures beneath { values.new.beneath ≡ values.old.beneath }
    ensures room { values.new.room + 1 ≡ values.old.room }
{
    values.push(locals.get(n as usize));
}

/// A local takes the top operand (section 4.4.3.2).
pub fn set_local(values: &mut Values, locals: &mut Locals, n: u32)
    requires there { n < length locals.old.own }
    requires operand { 0 < length values.old.own }
    ensures does { DoesOnLocals (set_local n) values.old.own locals.old.own values.new.own locals.new.own }
    ensures rest { values.new.own ≡ drop 1 values.old.own }
    ensures local { (v : ℕ) (rest : List ℕ) → values.old.own ≡ v ∷ rest → locals.new.own ≡ slice_set locals.old.own n v }
    ensures beneath { values.new.beneath ≡ values.old.beneath }
    ensures room { values.new.room ≡ values.old.room + 1 }
    ensures locals_beneath { locals.new.beneath ≡ locals.old.beneath }
{
    let number = values.pop();
    locals.set(n as usize, number);
}

/// A local takes the number of the top operand, which stays (section 4.4.3.3).
pub fn tee_local(values: &mut Values, locals: &mut Locals, n: u32)
    requires there { n < length locals.old.own }
    requires operand { 0 < length values.old.own }
    ensures does { DoesOnLocals (tee_local n) values.old.own locals.old.own values.new.own locals.new.own }
    ensures stays { values.new.own ≡ values.old.own }
    ensures local { (v : ℕ) (rest : List ℕ) → values.old.own ≡ v ∷ rest → locals.new.own ≡ slice_set locals.old.own n v }
    ensures beneath { values.new.beneath ≡ values.old.beneath }
    ensures room { values.new.room ≡ values.old.room }
    ensures locals_beneath { locals.new.beneath ≡ locals.old.beneath }
{
    let number = values.pop();
    locals.set(n as usize, number);
    values.push(number);
}

/// The number of a global is put on top (section 4.4.3.4).
pub fn get_global(values: &mut Values, globals: &[u64], n: u32)
    requires there { n < length globals.now }
    requires room { 0 < values.old.room }
    ensures does { DoesOnGlobals (get_global n) values.old.own globals.now values.new.own globals.now }
    ensures top { (v : ℕ) → slice_get globals.now n ≡ Some v → values.new.own ≡ v ∷ values.old.own }
    ensures beneath { values.new.beneath ≡ values.old.beneath }
    ensures room { values.new.room + 1 ≡ values.old.room }
{
    values.push(globals[n as usize]);
}

/// A global takes the top operand (section 4.4.3.5).
pub fn set_global(values: &mut Values, globals: &mut [u64], n: u32)
    requires there { n < length globals.old }
    requires operand { 0 < length values.old.own }
    ensures does { DoesOnGlobals (set_global n) values.old.own globals.old values.new.own globals.new }
    ensures rest { values.new.own ≡ drop 1 values.old.own }
    ensures global { (v : ℕ) (rest : List ℕ) → values.old.own ≡ v ∷ rest → globals.new ≡ slice_set globals.old n v }
    ensures beneath { values.new.beneath ≡ values.old.beneath }
    ensures room { values.new.room ≡ values.old.room + 1 }
{
    let number = values.pop();
    globals[n as usize] = number;
}
