ghost use Rattle.rich_linking.specs.Rows.{WorkedLinks};

/// Rows, computed: files with their refusal, or with the program that they link to.
pub fn worked_links()
    ensures { WorkedLinks }
{}
