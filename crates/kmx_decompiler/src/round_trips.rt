//! Laws of decompiled texts that are compiled again, and of compiled files that are decompiled.

ghost use Rattle.kmx_decompiler.specs.RoundTrips.{CompiledFilesHaveTexts, TextsCompile};

/// If a valid file has a text, compiling the text returns a file that takes the same steps, or runs out of memory.
#[tactic(auto, using(crate::proofs::Texts::texts_compile))]
pub fn texts_compile()
    ensures { TextsCompile }
{}

/// A file that a source compiles to has a text, unless the text or what it compiles to is too large.
#[tactic(auto, using(crate::proofs::Texts::compiled_files_have_texts))]
pub fn compiled_files_have_texts()
    ensures { CompiledFilesHaveTexts }
{}
