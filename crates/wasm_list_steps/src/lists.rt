ghost use Rattle.std.specs.Prelude.{◌≡◌, ◌+◌, ◌<◌, ◌≤◌, length, take, OnOk, OnErr};
ghost use Rattle.wasm_levels.specs.Lists.{AreLaid, beneath_all, count_of};
ghost use Rattle.wasm_list_steps.specs.Moves.{capacity, CanBranch, Carries, EntersList, IsReady, LandsAt, LeavesList, Stays};

use std::alloc::AllocError;
use wasm_ast::WInstr;
use wasm_levels::{Aim, Levels, OpenList};
use wasm_values::Values;

/// EntersList a list, a branch to which leads there (sections 4.4.5.3 to 4.4.5.5 and 4.4.6.1); `rest` is what follows behind it.
/// `AllocError` leaves the rows as they were.
pub fn enter<'a>(
    values: &mut Values,
    levels: &mut Levels<'a>,
    aim: Aim<'a>,
    gives: bool,
    rest: &'a [WInstr],
) -> Result<(), AllocError>
    ensures does { OnOk result (EntersList aim.entry gives rest.now values.old levels.old values.new levels.new) }
    ensures stays { OnOk result (Stays values.old levels.old values.new levels.new) }
    ensures capacity { OnOk result (capacity values.new ≡ capacity values.old) }
    ensures values { OnErr result (values.new ≡ values.old) }
    ensures levels { OnErr result (levels.new ≡ levels.old) }
    ensures room { values.new.room ≡ values.old.room }
{
    levels.push(OpenList {
        aim,
        gives,
        base: values.base(),
        rest,
    })?;
    values.open();
    Ok(())
}

/// LeavesList the innermost list at its end, and gives what follows (section 4.4.6.2).
pub fn leave<'a>(values: &mut Values, levels: &mut Levels<'a>) -> &'a [WInstr]
    requires some { 0 < length levels.old.own }
    requires laid { AreLaid levels.old.own values.old.beneath }
    requires ready { IsReady values.old levels.old }
    ensures does { LeavesList values.old levels.old result.now values.new levels.new }
    ensures stays { Stays values.old levels.old values.new levels.new }
    ensures capacity { capacity values.new ≡ capacity values.old }
{
    let list = levels.get(0);
    levels.close(1);
    values.join(list.base);
    list.rest
}

/// How many operands lie beneath the open list with this number, or beneath the call where there are no more lists.
pub fn height(values: &Values, levels: &Levels<'_>, n: usize) -> usize
    requires there { n ≤ length levels.now.own }
    requires laid { AreLaid levels.now.own values.now.beneath }
    ensures { result ≡ length (beneath_all (take n levels.now.own) values.now.beneath) }
{
    if n == 0 {
        return values.base();
    }
    levels.get(n - 1).base
}

/// Goes back to an outer list or call with the value that the inner one gives, if it gives one; of all operands the lowest `height`
/// stay, and `base` of these lie beneath it.
pub fn carry(values: &mut Values, gives: bool, height: usize, base: usize)
    requires given { count_of gives ≤ length values.old.own }
    requires beneath { base ≤ height }
    requires there { height ≤ length values.old.beneath }
    ensures { Carries gives height base values.old values.new }
{
    if gives {
        let value = values.pop();
        values.cut(height, base);
        values.push(value);
    } else {
        values.cut(height, base);
    }
}

/// Branches to the open list with this number, the innermost being 0, and gives what follows (section 4.4.5.6).
pub fn branch<'a>(values: &mut Values, levels: &mut Levels<'a>, n: u32) -> &'a [WInstr]
    requires there { n < length levels.old.own }
    requires laid { AreLaid levels.old.own values.old.beneath }
    requires enough { CanBranch n values.old levels.old }
    ensures does { LandsAt n values.old levels.old result.now values.new levels.new }
    ensures stays { Stays values.old levels.old values.new levels.new }
    ensures capacity { capacity values.new ≡ capacity values.old }
{
    let n = n as usize;
    let height = height(values, levels, n);
    let list = levels.get(n);
    match list.aim {
        Aim::Past => {
            carry(values, list.gives, height, list.base);
            levels.close(n + 1);
            list.rest
        }
        Aim::Back(body) => {
            values.cut(height, height);
            levels.close(n);
            body
        }
    }
}
