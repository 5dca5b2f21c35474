//! The laws of a program that a source is accepted with, as the contracts of functions with empty bodies.

ghost use Rattle.kmn_compiler.specs.Laws.{FilesMeanIt, TablesPrintTheSame, TablesTakeItsSteps};

/// The tables of such a program take its steps and print what it prints.
pub fn tables_keep_meaning()
    ensures steps { TablesTakeItsSteps }
    ensures prints { TablesPrintTheSame }
{}

/// The file of these tables means the program, if neither the bitmap nor the file passes its limit.
pub fn files_mean_their_source()
    ensures { FilesMeanIt }
{}
