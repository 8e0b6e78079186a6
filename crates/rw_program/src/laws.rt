ghost use Rattle.rw_program.specs.Linking.{NoneDropped};

/// A law: what is linked of a checked module is each of its functions and globals, as it is, with its notes; this
/// project's own.
pub fn none_dropped()
    ensures { NoneDropped }
{}
