//! Type safety with rights: no linked program of well-typed files is ever stuck, and in every configuration that it reaches each
//! linear location where a cell is has exactly one right of each kind, and every other none.
#![tactic(auto)]

ghost use Rattle.rich_soundness_runs.specs.Laws.{RowsAreSafe};
ghost use Rattle.rich_soundness.specs.Laws.{LinkedRunsAreSafe, SoundRunsAreSafe, StepsAreSafe};

/// A law: a step is safe at every instruction, and at the end of every list. So a run of a sound program is never stuck, its rights
/// are kept, and while it goes on the values, the cells and the calls there have their types. So it is with the program that
/// well-typed files link to, where their constants are within the widths of their types.
pub fn sound_programs_are_safe()
    ensures rows { RowsAreSafe }
    ensures steps { StepsAreSafe }
    ensures sound { SoundRunsAreSafe }
    ensures linked { LinkedRunsAreSafe }
{}
