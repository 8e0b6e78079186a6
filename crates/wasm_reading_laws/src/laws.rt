// Laws of reading: the reading of a module is the grammar.

ghost use Rattle.wasm_reading_laws.specs.ModulesRead.{BytesSpellOneModule, CanonicalBytesAreRead, CanonicalBytesSpellOnly, FaultIsInBytes, ModuleOrFault, NeverBoth, NeverOfMemory, OneFirstFault, ReadIsSpelled, SpelledIsRead, TruncatedAtTheEnd, TruncatedIsUndecided};
ghost use Rattle.wasm_reading_laws.specs.FirstFaults.{DecidedByLeastFront, EarlyOrSettled, OneLeastFront, UndecidedIsOpen};
ghost use Rattle.wasm_reading_laws.specs.WorkedFronts.{ContentStopsFront, CountFront};
ghost use Rattle.wasm_reading_laws.specs.WorkedModulesRead.{FullModuleIsRead, PaddedModuleIsRead};

/// A law: what is read from bytes is the module that they spell, and a module that bytes spell is read from them
/// (WebAssembly Core Specification 1.0, section 5.5, within this project's profile).
pub fn reading_is_the_grammar()
    ensures read { ReadIsSpelled }
    ensures spelled { SpelledIsRead }
{}

/// A law: bytes spell one module at most, in whatever way they are taken apart. So the canonical bytes of a module of
/// the profile, each of whose sections has a content of fewer than 2^32 bytes, spell that module and no other.
pub fn bytes_spell_one_module()
    ensures one { BytesSpellOneModule }
    ensures canonical { CanonicalBytesSpellOnly }
{}

/// A law: bytes spell a module, or have a first fault, and never both; they have one first fault at most, at one
/// place, which is in the bytes or at their end; and it is never want of memory. This project's own.
pub fn a_module_or_one_first_fault()
    ensures either { ModuleOrFault }
    ensures never_both { NeverBoth }
    ensures one { OneFirstFault }
    ensures not_memory { NeverOfMemory }
    ensures place { FaultIsInBytes }
{}

/// A law: a first fault that is `Truncated` stands at the end of the bytes, so that it is undecided: whichever byte
/// follows, the bytes do not have that fault at that place any more. This project's own.
pub fn truncated_only_at_the_end()
    ensures place { TruncatedAtTheEnd }
    ensures undecided { TruncatedIsUndecided }
{}

/// A law: a first fault of bytes is that of every continuation of them, or the bytes end too early, and never both. They end
/// too early where the fault stands at their end and is `Truncated` or `CountMismatch`. Any other fault is decided by one
/// least front of the bytes: every continuation of that front has it, and each shorter front is a module or ends too
/// early. This project's own.
pub fn first_fault_at_the_least_front()
    ensures settled { EarlyOrSettled }
    ensures undecided { UndecidedIsOpen }
    ensures front { DecidedByLeastFront }
    ensures one { OneLeastFront }
{}

/// Two inputs that are written out, with the first fault of each of their fronts: a section that declares more bytes than
/// its content has, and a code section of another count than that of the functions.
pub fn worked_fronts()
    ensures content_stops { ContentStopsFront }
    ensures count { CountFront }
{}

/// A law: a module of the profile, each of whose sections has a content of fewer than 2^32 bytes, is read from its
/// canonical bytes. This project's own.
pub fn canonical_bytes_are_read()
    ensures { CanonicalBytesAreRead }
{}

/// Byte lists that are written out, and the modules that are read from them: one with longer numbers and two custom
/// sections, and one with a section of each kind.
pub fn worked_modules_are_read()
    ensures padded { PaddedModuleIsRead }
    ensures full { FullModuleIsRead }
{}
