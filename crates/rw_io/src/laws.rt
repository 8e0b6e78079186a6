// What the calls took of a piece that was put or appended.
ghost use Rattle.rw_io.specs.Taken.{TakeTheFront};

use crate::{Shelf, Sink};

/// A law: where a piece is put as `put_whole` says, the pieces that its calls took, joined in order, are the front
/// of the piece, all of it but what is left; this project's own.
pub fn puts_take_the_front<O: Sink>()
    ensures { TakeTheFront O.puts }
{}

/// A law: where a piece is appended as `append_whole` says, the pieces that its calls took, joined in order, are the
/// front of the piece, all of it but what is left; this project's own.
pub fn appends_take_the_front<S: Shelf>()
    ensures { TakeTheFront S.appends }
{}
