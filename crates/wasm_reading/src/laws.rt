ghost use Rattle.wasm_reading.specs.Laws.{InstructionsNeedNoMore, SectionsNeedNoMore};
ghost use Rattle.wasm_reading.specs.WorkedItems.{WorkedItems, WorkedImmediates, WorkedEntries};
ghost use Rattle.wasm_reading.specs.WorkedLimits.{WorkedLimits, WorkedNesting, WorkedPreambles};
ghost use Rattle.wasm_reading.specs.WorkedReadings.{TwoByteCount, LastByteTooGreat, IdDoesNotRise, FloatInABody, TooManyPages, CustomSectionTooLong, ContentStopsEarly};

/// Byte lists that are written out: a module, and six first faults with their places.
pub fn worked_readings()
    ensures two_byte_count { TwoByteCount }
    ensures last_byte_too_great { LastByteTooGreat }
    ensures id_does_not_rise { IdDoesNotRise }
    ensures float_in_a_body { FloatInABody }
    ensures too_many_pages { TooManyPages }
    ensures custom_section_too_long { CustomSectionTooLong }
    ensures content_stops_early { ContentStopsEarly }
{}

/// Items, immediates and entries of the code section that are written out, and what reading them gives.
pub fn worked_items()
    ensures items { WorkedItems }
    ensures immediates { WorkedImmediates }
    ensures entries { WorkedEntries }
{}

/// Byte lists at the limits of the profile and one past them, and preambles that are not whole.
pub fn worked_limits()
    ensures limits { WorkedLimits }
    ensures nesting { WorkedNesting }
    ensures preambles { WorkedPreambles }
{}

/// A law: the numbers that bound how many instructions and sections are read bound nothing that bytes can hold.
pub fn bytes_bound_reading()
    ensures instructions { InstructionsNeedNoMore }
    ensures sections { SectionsNeedNoMore }
{}
