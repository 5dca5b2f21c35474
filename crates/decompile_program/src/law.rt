//! The law of decompiled programs, the contract of a function with an empty body.

ghost use Rattle.decompile_program.specs.Laws.{DecompilingKeepsMeaning};

/// If tables can be played and written out, the program that they are written out as takes the same steps for all events.
pub fn decompiling_keeps_meaning()
    ensures { DecompilingKeepsMeaning }
{}
