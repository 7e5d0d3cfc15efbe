//! Laws of what is written, each as the contract of a function that does nothing.

ghost use Rattle.boogie_meaning.specs.Programs.{IsTypedProgram};
ghost use Rattle.boogie_print.specs.Printable.{IsPrintable};
ghost use Rattle.boogie_loops.specs.Wide.{WProgram};
ghost use Rattle.boogie_loops.specs.WideTypes.{IsWideProgram};
ghost use Rattle.boogie_cut.specs.Cut.{cut_program};
ghost use Rattle.boogie_cut_text.specs.Printable.{IsPrintableWide, AreFewLocals};

/// What is written for a well-typed program is well-typed. It can be printed where the names of the program are free and
/// differ, its literals can be spelled, and each written procedure has fewer than 2^64 variables.
pub fn what_is_written_is_typed_and_can_be_printed()
    ensures typed { (program : WProgram) → IsWideProgram program → IsTypedProgram (cut_program program) }
    ensures printable { (program : WProgram) → IsPrintableWide program → AreFewLocals (cut_program program)
        → IsPrintable (cut_program program) }
{}
