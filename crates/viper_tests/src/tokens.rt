// The tokens of texts: each row is a text and its tokens, each with its place. A name stands in `<` and `>`, and a number
// behind `#`. In a text `~` ends a line, and `` ` ``, `^` and `@` are the bytes 9, 13 and 255.
use row_columns::{first_other, other_than, parts};
use std::alloc::Global;
use std::mem::size_of;
use std::str;
use std::test::Fail;
use vb_base::Ident;
use viper_syntax::{SStmt, Term, Tok, Token, lex};

// How large the values are of which a file has most. A field more in one of them is paid by each.
const _: () = prove!(size_of::<Ident>() == 16);

const _: () = prove!(size_of::<Token>() == 32);

const _: () = prove!(size_of::<Term>() == 56);

const _: () = prove!(size_of::<SStmt>() == 128);

/// The longest sign, names and words, numbers, comments and lines.
const TEXTS: &str = "\
a<==>b<= == -> <a>@1:1 Iff@1:2 <b>@1:6 AtMost@1:7 Equal@1:10
==>== -> Implies@1:1 Equal@1:4
x:=: -> <x>@1:1 Assign@1:2 Colon@1:4
!=!>=> -> NotEqual@1:1 Not@1:3 AtLeast@1:4 Greater@1:6
a''b $_1 fields In -> <a''b>@1:1 <$_1>@1:6 <fields>@1:10 <In>@1:17
in unfolding Int -> In@1:1 Unfolding@1:4 Int@1:14
007 0x1 -> #7@1:1 #0@1:5 <x1>@1:6
000170141183460469231731687303715884105727 -> #170141183460469231731687303715884105727@1:1
/* */ */ -> Star@1:7 Slash@1:8
/***/1/*~*/2 -> #1@1:6 #2@2:3
1//@*/^2~3// -> #1@1:1 #3@2:1
1^2~~ 3 -> #1@1:1 #2@1:3 #3@3:2
 `^~ ->
 ->";

const WORDS: &str = "\
field -> Field@1:1
predicate -> Predicate@1:1
method -> Method@1:1
returns -> Returns@1:1
requires -> Requires@1:1
ensures -> Ensures@1:1
invariant -> Invariant@1:1
var -> Var@1:1
new -> New@1:1
if -> If@1:1
elseif -> Elseif@1:1
else -> Else@1:1
while -> While@1:1
inhale -> Inhale@1:1
exhale -> Exhale@1:1
assert -> Assert@1:1
assume -> Assume@1:1
fold -> Fold@1:1
unfold -> Unfold@1:1
unfolding -> Unfolding@1:1
in -> In@1:1
acc -> Acc@1:1
old -> Old@1:1
null -> Null@1:1
true -> True@1:1
false -> False@1:1
write -> Write@1:1
none -> None@1:1
wildcard -> Wildcard@1:1
Int -> Int@1:1
Bool -> Bool@1:1
Ref -> Ref@1:1
Perm -> Perm@1:1";

const SIGNS: &str = "\
( -> OpenParen@1:1
) -> CloseParen@1:1
{ -> OpenBrace@1:1
} -> CloseBrace@1:1
[ -> OpenBracket@1:1
] -> CloseBracket@1:1
, -> Comma@1:1
; -> Semicolon@1:1
. -> Dot@1:1
: -> Colon@1:1
:= -> Assign@1:1
? -> Question@1:1
<==> -> Iff@1:1
==> -> Implies@1:1
|| -> Or@1:1
&& -> And@1:1
== -> Equal@1:1
!= -> NotEqual@1:1
<= -> AtMost@1:1
>= -> AtLeast@1:1
< -> Less@1:1
> -> Greater@1:1
+ -> Plus@1:1
- -> Minus@1:1
* -> Star@1:1
/ -> Slash@1:1
\\ -> Backslash@1:1
% -> Percent@1:1
! -> Not@1:1";

/// The byte that a letter of a row stands for.
fn byte_of(letter: u8) -> u8 {
    match letter {
        b'~' => 10,
        b'`' => 9,
        b'^' => 13,
        b'@' => 255,
        _ => letter,
    }
}

fn bytes_of(alloc: Global, text: &str) -> Result<Vec<u8>, Fail> {
    let mut bytes = Vec::new(alloc);
    for letter in text.as_bytes() {
        bytes.push(byte_of(*letter))?;
    }
    Ok(bytes)
}

/// The tokens of a text.
fn lexed(alloc: Global, text: &[u8]) -> Result<Vec<Token>, Fail> {
    if text.len() > 1_048_576 {
        return Err("a long text")?;
    }
    Ok(lex(alloc, text)?)
}

fn named(alloc: Global, name: &Ident) -> Result<String, Fail> {
    let text = str::from_utf8(name.bytes()).ok().ok_or("no name")?;
    Ok(format!(in alloc; "<{text}>")?)
}

/// `<x>`, `#7`, or the name of a word or sign.
fn shown(alloc: Global, tok: &Tok) -> Result<String, Fail> {
    Ok(match tok {
        Tok::Name(name) => named(alloc, name)?,
        Tok::Number(number) => format!(in alloc; "#{}", number.value())?,
        Tok::Word(word) => format!(in alloc; "{word:?}")?,
        Tok::Sign(sign) => format!(in alloc; "{sign:?}")?,
    })
}

/// A token, with a blank before it and its place.
fn told(alloc: Global, token: &Token) -> Result<String, Fail> {
    let tok = shown(alloc, &token.tok)?;
    let at = token.pos;
    Ok(format!(in alloc; " {tok}@{at}")?)
}

fn told_all(alloc: Global, tokens: &[Token]) -> Result<String, Fail> {
    let mut text = "".to_string(alloc)?;
    for i in 0..tokens.len() {
        text.push_str(told(alloc, &tokens[i])?.as_str())?;
    }
    Ok(text)
}

/// What came of a row, where the row says otherwise.
fn wrong_row(alloc: Global, row: &str) -> Result<Option<String>, Fail> {
    let (text, want) = parts(row, " ->")?;
    let bytes = bytes_of(alloc, text)?;
    let tokens = lexed(alloc, bytes.as_slice())?;
    let came = told_all(alloc, &tokens)?;
    Ok(other_than(want, came))
}

/// Each text is the tokens that its row says.
#[test]
fn texts_have_their_tokens(rt: HostRuntime) -> Result<(), Fail> {
    let alloc = rt.alloc();
    let tables = [TEXTS, WORDS, SIGNS];
    for table in tables {
        let other = first_other(alloc, table, |row| wrong_row(alloc, row))?;
        if let Some(told) = other {
            panic!(rt; "{told}");
        }
    }
    Ok(())
}
