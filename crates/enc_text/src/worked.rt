//! The text of the code of worked examples, each as the contract of a function that does nothing.

ghost use Rattle.std.specs.Prelude.{◌≡◌, pos, [], codes};
ghost use Rattle.enc_expr.specs.Worked.{reads_f, computes, with_leaf, quotient, nested, opens_P, at_1_20, at_6_3};
ghost use Rattle.enc_text.specs.Worked.{code_text, value_text, field_text, guarded_text, opened_text};

/// Reading a field is two tests, and its value is that of a map.
pub fn a_field_as_text()
    ensures code { code_text (reads_f 1 []) ≡ field_text }
    ensures value { value_text (reads_f 1 []) ≡ codes "(h$f[v$x] == 1)" }
{}

/// A divisor is tested.
pub fn a_division_as_text()
    ensures code { code_text (computes at_1_20 quotient (pos 5)) ≡ codes "assert {:msg \"1:20 1:29 div\"} (v$n != 0);\n" }
    ensures value { value_text (computes at_1_20 quotient (pos 5)) ≡ codes "((7 div v$n) == 0)" }
{}

/// What counts only sometimes stands under a guard.
pub fn lazy_operators_as_text()
    ensures code { code_text (computes at_6_3 nested (pos 5)) ≡ guarded_text }
    ensures value { value_text (computes at_6_3 nested (pos 5)) ≡ codes "(t$31 ==> (v$n > 4))" }
{}

/// An instance is opened in maps of its own.
pub fn an_unfolding_as_text()
    ensures code { code_text (with_leaf opens_P 5) ≡ opened_text }
    ensures value { value_text (with_leaf opens_P 5) ≡ codes "(t$29[v$x] > 0)" }
{}
