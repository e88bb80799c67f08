// Words that are no names.
ghost use Rattle.std.specs.Prelude.{◌≡◌, codes};
ghost use Rattle.std.specs.Str.{bytes_eq};
ghost use Rattle.l2_pieces.specs.Punctuators.{mark_in};
ghost use Rattle.l2_directives.specs.Constants.{is_among};
ghost use Rattle.l2_directives.specs.Words.{refused, skipped, keywords, keyword_or_name, word_class, is_name, is_refused};

use l2_pieces::mark_in;
use l2_syntax::Mark;

/// What a word is by its spelling alone.
#[derive(Clone, Copy, Debug, PartialEq, Eq)]
pub enum WordClass {
    /// A word that the profile leaves out.
    Refused,
    /// A word that stands for nothing.
    Skipped,
    /// `__attribute__`.
    Attribute,
    Keyword(Mark),
    Name,
}

const REFUSED: [&[u8]; 22] = [
    b"float",
    b"double",
    b"_Complex",
    b"_Imaginary",
    b"union",
    b"goto",
    b"asm",
    b"__asm",
    b"__asm__",
    b"volatile",
    b"restrict",
    b"__restrict",
    b"_Atomic",
    b"_Thread_local",
    b"_Alignas",
    b"_Alignof",
    b"_Generic",
    b"_Static_assert",
    b"__int128",
    b"typeof",
    b"__typeof__",
    b"auto",
];

const SKIPPED: [&[u8]; 6] = [
    b"__extension__",
    b"inline",
    b"__inline",
    b"__inline__",
    b"register",
    b"_Noreturn",
];

const KEYWORDS: [(&[u8], Mark); 26] = [
    (b"_Bool", Mark::Bool),
    (b"break", Mark::Break),
    (b"case", Mark::Case),
    (b"char", Mark::Char),
    (b"const", Mark::Const),
    (b"continue", Mark::Continue),
    (b"default", Mark::Default),
    (b"do", Mark::Do),
    (b"else", Mark::Else),
    (b"enum", Mark::Enum),
    (b"extern", Mark::Extern),
    (b"for", Mark::For),
    (b"if", Mark::If),
    (b"int", Mark::Int),
    (b"long", Mark::Long),
    (b"return", Mark::Return),
    (b"short", Mark::Short),
    (b"signed", Mark::Signed),
    (b"sizeof", Mark::Sizeof),
    (b"static", Mark::Static),
    (b"struct", Mark::Struct),
    (b"switch", Mark::Switch),
    (b"typedef", Mark::Typedef),
    (b"unsigned", Mark::Unsigned),
    (b"void", Mark::Void),
    (b"while", Mark::While),
];

fn is_attribute(word: &[u8]) -> bool
    ensures { result ≡ bytes_eq word.now (codes "__attribute__") }
{
    word == b"__attribute__".as_slice()
}

fn keyword(word: &[u8]) -> Option<Mark>
    ensures { result ≡ mark_in keywords word.now }
{
    mark_in(&KEYWORDS, word)
}

fn keyword_or_name(mark: Option<Mark>) -> WordClass
    ensures { result ≡ keyword_or_name mark }
{
    match mark {
        None => WordClass::Name,
        Some(found) => WordClass::Keyword(found),
    }
}

/// What a word is by its spelling alone.
pub fn word_class(word: &[u8]) -> WordClass
    ensures { result ≡ word_class word.now }
{
    if REFUSED.contains(&word) {
        WordClass::Refused
    } else if SKIPPED.contains(&word) {
        WordClass::Skipped
    } else if is_attribute(word) {
        WordClass::Attribute
    } else {
        keyword_or_name(keyword(word))
    }
}

pub fn is_name(class: WordClass) -> bool
    ensures { result ≡ is_name class }
{
    matches!(class, WordClass::Name)
}

pub fn is_refused(class: WordClass) -> bool
    ensures { result ≡ is_refused class }
{
    matches!(class, WordClass::Refused)
}
