//! The blocks of a lowered program's linear memory, the free list as one reads it, and the tiling; allocation by first fit.
//! Its definitions are `IsReadable`, `IsTiled`, `free_list` and `first_fit`, over readers of words.
//! Its laws: a tiled part can be read, readable lists are read, headers lead to the end, and a fit is the first.
#![tactic(auto)]

ghost use Rattle.heap_blocks.specs.Laws.{ReadableIsRead, HeadersLead, TiledIsReadable, FreshIsTiled, FitIsFirst, NoneIsSmall};
ghost use Rattle.heap_blocks.specs.Rows.{TwoInTurn, LastInFirstOut, Splits, Broken};

/// A law: where a free list can be read, reading it gives it, and a walk by headers comes to the linear part's end.
pub fn readable_lists_are_read()
    ensures read { ReadableIsRead }
    ensures walk { HeadersLead }
{}

/// A law: what live and free blocks tile can be read, and a fresh linear part is tiled by one free block.
pub fn tilings_are_readable()
    ensures readable { TiledIsReadable }
    ensures fresh { FreshIsTiled }
{}

/// A law: a block that is given is the front of the first one that holds the asked words, with these or one word more where
/// exactly one would be left; where none is given, each is too small.
pub fn fits_are_first()
    ensures first { FitIsFirst }
    ensures none { NoneIsSmall }
{}

/// Rows: blocks that are asked for and released in turn, rests of one word and of two, and lists that cannot be read.
pub fn worked_free_lists()
    ensures in_turn { TwoInTurn }
    ensures last_first { LastInFirstOut }
    ensures splits { Splits }
    ensures broken { Broken }
{}
