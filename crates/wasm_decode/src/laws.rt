ghost use Rattle.wasm_decode.specs.CustomSections.{WorkedContent, WorkedPiece};

/// Inputs that are written out: one that ends in the content of a custom section, and a piece that lies in one.
pub fn worked_custom_sections()
    ensures content { WorkedContent }
    ensures piece { WorkedPiece }
{}
