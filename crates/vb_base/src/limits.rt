//! The limits of files, of programs and of runs, with the names that the definitions give them.
ghost use Rattle.std.specs.Prelude.{◌≡◌};
ghost use Rattle.vb_base.specs.Limits.{max_viper_bytes, max_boogie_bytes, max_unclosed_braces, max_block_depth, max_group_tokens, max_weight, too_heavy, max_unclosed_brackets, max_content_nodes, max_made_methods};

/// The most bytes of a file of Viper, and of a run of one.
pub const MAX_VIPER_BYTES: usize = 1_048_576;

/// The most bytes of a file of Boogie, and of a run of one.
pub const MAX_BOOGIE_BYTES: usize = 33_554_432;

/// The most `{` of Viper that may be unclosed at once.
pub const MAX_UNCLOSED_BRACES: usize = 128;

/// The most blocks of Viper that may be nested.
pub const MAX_BLOCK_DEPTH: usize = 128;

/// The most tokens of Viper between two dividers.
pub const MAX_GROUP_TOKENS: usize = 1_024;

/// The most that a program of Viper may weigh.
pub const MAX_WEIGHT: u64 = 100_000;

/// The weight that is told of each heavier program.
pub const TOO_HEAVY: u64 = MAX_WEIGHT + 1;

/// The most brackets of Boogie that may be unclosed at once.
pub const MAX_UNCLOSED_BRACKETS: usize = 2_048;

/// The most nodes of a content in a run.
pub const MAX_CONTENT_NODES: u32 = 4_096;

/// The most methods of a program that is made.
pub const MAX_MADE_METHODS: u32 = 2_000;

/// The constants are the limits of the definitions.
pub fn constants_are_limits()
    ensures viper_bytes { MAX_VIPER_BYTES ≡ max_viper_bytes }
    ensures boogie_bytes { MAX_BOOGIE_BYTES ≡ max_boogie_bytes }
    ensures unclosed_braces { MAX_UNCLOSED_BRACES ≡ max_unclosed_braces }
    ensures block_depth { MAX_BLOCK_DEPTH ≡ max_block_depth }
    ensures group_tokens { MAX_GROUP_TOKENS ≡ max_group_tokens }
    ensures weight { MAX_WEIGHT ≡ max_weight }
    ensures heavier { TOO_HEAVY ≡ too_heavy }
    ensures unclosed_brackets { MAX_UNCLOSED_BRACKETS ≡ max_unclosed_brackets }
    ensures content_nodes { MAX_CONTENT_NODES ≡ max_content_nodes }
    ensures made_methods { MAX_MADE_METHODS ≡ max_made_methods }
{}
