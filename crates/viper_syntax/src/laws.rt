// The laws of the cut, each as the contract of a function with an empty body.
ghost use Rattle.std.specs.Prelude.{◌≡◌, ◌⊎◌, ℕ, ◌≤◌, List, ◌++◌, [], length};
ghost use Rattle.vb_base.specs.Limits.{max_viper_bytes, max_group_tokens};
ghost use Rattle.viper_syntax.specs.declared.tokens.LexFault.{LexFault};
ghost use Rattle.viper_syntax.specs.declared.tokens.Token.{Token};
ghost use Rattle.viper_syntax.specs.Cut.{IsCut};
ghost use Rattle.viper_syntax.specs.Limit.{KeepsLimits, IsUndivided};
ghost use Rattle.viper_syntax.specs.Lexed.{IsLexed, HasFault};

/// A text has at most one cut into tokens.
pub fn one_cut()
    ensures { (bytes : List ℕ) (ts us : List Token) → IsCut [] bytes ts → IsCut [] bytes us → ts ≡ us }
{}

/// A text is at most one list of tokens, or has one first fault, and never both.
pub fn one_answer()
    ensures tokens { (bytes : List ℕ) (ts us : List Token) → IsLexed bytes ts → IsLexed bytes us → ts ≡ us }
    ensures fault { (bytes : List ℕ) (e f : LexFault) → HasFault bytes e → HasFault bytes f → e ≡ f }
    ensures not_both { (bytes : List ℕ) (ts : List Token) (e : LexFault) → IsLexed bytes ts → HasFault bytes e → ⊥ }
{}

/// A row of tokens without a divider has at most as many tokens as a group, wherever it stands.
pub fn short_groups()
    ensures { (front row back : List Token) → KeepsLimits (front ++ row ++ back) → IsUndivided row → length row ≤ max_group_tokens }
{}

/// A text that is not too long is a list of tokens, or has a first fault.
pub fn some_answer()
    ensures { (bytes : List ℕ) → length bytes ≤ max_viper_bytes →
        ((ts : List Token) × IsLexed bytes ts) ⊎ ((fault : LexFault) × HasFault bytes fault) }
{}
