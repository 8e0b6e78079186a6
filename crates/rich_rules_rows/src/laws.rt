ghost use Rattle.rich_rules_rows.specs.Plain.{WorkedPlain};
ghost use Rattle.rich_rules_rows.specs.Variables.{WorkedVariables};
ghost use Rattle.rich_rules_rows.specs.Control.{WorkedControl};
ghost use Rattle.rich_rules_rows.specs.Calls.{WorkedCalls};
ghost use Rattle.rich_rules_rows.specs.Locations.{WorkedLocations};
ghost use Rattle.rich_rules_rows.specs.Cells.{WorkedCells};
ghost use Rattle.rich_rules_rows.specs.Fields.{WorkedFields};
ghost use Rattle.rich_rules_rows.specs.Programs.{WorkedPrograms};
ghost use Rattle.rich_rules_rows.specs.Notes.{WorkedNotes};

/// Rows, computed: bodies of constants, numbers, tuples and recursive types.
pub fn worked_plain_bodies()
    ensures { WorkedPlain }
{}

/// Rows, computed: bodies that get and set locals and globals.
pub fn worked_bodies_with_variables()
    ensures { WorkedVariables }
{}

/// Rows, computed: bodies with blocks, loops, arms and branches.
pub fn worked_bodies_with_control()
    ensures { WorkedControl }
{}

/// Rows, computed: bodies that call functions and answer binders.
pub fn worked_bodies_with_calls()
    ensures { WorkedCalls }
{}

/// Rows, computed: bodies that hide locations and enter them, and that divide rights.
pub fn worked_bodies_with_locations()
    ensures { WorkedLocations }
{}

/// Rows, computed: bodies that make, read, write and free cells.
pub fn worked_bodies_with_cells()
    ensures { WorkedCells }
{}

/// Rows, computed: modules with fields that break a rule.
pub fn worked_fields()
    ensures { WorkedFields }
{}

/// Rows, computed: bodies that take a cell apart, free it, or leave it behind.
pub fn worked_programs()
    ensures { WorkedPrograms }
{}

/// Rows, computed: bodies with the notes of all their points.
pub fn worked_notes()
    ensures { WorkedNotes }
{}
