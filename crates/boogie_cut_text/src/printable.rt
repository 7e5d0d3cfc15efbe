// The program without loops and calls of one whose parts can be spelled.
ghost use Rattle.std.specs.Prelude.{◌≡◌, IfOk};
ghost use Rattle.boogie_print.specs.Printable.{IsPrintable};
ghost use Rattle.boogie_tree.specs.Whole.{program_of};
ghost use Rattle.boogie_loops.specs.View.{wprogram_of};
ghost use Rattle.boogie_cut.specs.Cut.{cut_program};
ghost use Rattle.boogie_cut_text.specs.Printable.{IsPrintableWide};

use boogie_cut::cut;
use boogie_loops::WProgram;
use boogie_tree::BProgram;
use std::alloc::Global;
use vb_base::Memory;

/// The same as `cut`: the program without loops and calls. What is written for a well-typed program can be printed, where the
/// names of the program are free and differ, and its literals can be spelled.
///
/// `Memory` where there is no memory.
pub fn cut_with_text(alloc: Global, program: &WProgram) -> Result<BProgram, Memory>
    ensures written { IfOk result (λ b. program_of b ≡ cut_program (wprogram_of program.now)) }
    ensures printable { IsPrintableWide (wprogram_of program.now) → IfOk result (λ b. IsPrintable (program_of b)) }
{
    cut(alloc, program)
}
