//! Reports: what the tool's commands do and say, related to their words and files through each layer's own definition.
//! Laws: words and files report exactly one job; what its status says; what holds of today's programs alone.
#![tactic(auto)]

ghost use Rattle.rwc_reports.specs.RunRows.{SevenIsReported, SixAreEnough, FiveAreSpent, TrapIsReported, WorkedRefusals};
ghost use Rattle.rwc_reports.specs.ExecutionLaws.{BinariesRun, OneExecution, OneProgramRun, OneShow, ShownIsCanonical};
ghost use Rattle.rwc_reports.specs.Laws.{OneReport, SomeReport, StatusesOfCommands, TypedIsBuilt, ModuleIsDumped, FaultIsRefused, DumpedIsModule, LeadsToLone, ProgramsEnd, NoneTooLong, NoTypeTold};

/// A law: words and told files report one job, where the contents of the files are bytes, and one at most. So each call
/// has one right answer, beside failures and want of memory; this project's own.
pub fn one_report()
    ensures some { SomeReport }
    ensures one { OneReport }
{}

/// A law: the status of a job is one of its command's; this project's own.
pub fn statuses_of_commands()
    ensures { StatusesOfCommands }
{}

/// A law on `build`: a told file whose text spells a typed module is built; this project's own.
pub fn typed_is_built()
    ensures { TypedIsBuilt }
{}

/// A law on `dump`: what it puts is the lines of the module that the told file spells, all of it; and a told file that has a
/// first fault is refused; this project's own.
pub fn modules_are_dumped()
    ensures spelled { ModuleIsDumped }
    ensures faulty { FaultIsRefused }
    ensures dumped { DumpedIsModule }
{}

/// A law on today's programs alone: what files lead to is one function, which ends, as its lowered module does; it can be
/// linked, none of its sections is too long, and a first violation tells no type; this project's own.
pub fn lone_programs()
    ensures lone { LeadsToLone }
    ensures ends { ProgramsEnd }
    ensures short { NoneTooLong }
    ensures untyped { NoTypeTold }
{}

/// A law: the execution of a told binary reports one job, of status 0, 3, 6, 7 or 9, where the contents of the files are
/// bytes; this project's own.
pub fn one_execution()
    ensures { OneExecution }
{}

/// A law on today's programs: the run of one reports one job, as its lowered module's; and the binary of the program
/// spells that module, which is valid and starts, so that no run is refused for its binary; this project's own.
pub fn one_program_run()
    ensures one { OneProgramRun }
    ensures itself { BinariesRun }
{}

/// A law: the showing of a told source reports one job, of status 0, 1 or 3, and its lines are the whole canonical text;
/// this project's own.
pub fn one_show()
    ensures one { OneShow }
    ensures whole { ShownIsCanonical }
{}

/// Rows, computed: the lines of a run that ends in a value or a trap, and of one that goes on after all its steps; those of
/// binaries that are invalid or do not start; this project's own.
pub fn worked_runs()
    ensures seven { SevenIsReported }
    ensures six { SixAreEnough }
    ensures five { FiveAreSpent }
    ensures trap { TrapIsReported }
    ensures refusals { WorkedRefusals }
{}
