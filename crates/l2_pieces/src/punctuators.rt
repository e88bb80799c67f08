// The punctuators, by their length.
ghost use Rattle.std.specs.Prelude.{◌≡◌, map};
ghost use Rattle.l2_pieces.specs.Punctuators.{spelt, mark_in, single, double, triple};

use l2_syntax::Mark;

const SINGLE: [(&[u8], Mark); 25] = [
    (b"[", Mark::OpenBracket),
    (b"]", Mark::CloseBracket),
    (b"(", Mark::OpenParenthesis),
    (b")", Mark::CloseParenthesis),
    (b"{", Mark::OpenBrace),
    (b"}", Mark::CloseBrace),
    (b".", Mark::Dot),
    (b"&", Mark::Ampersand),
    (b"*", Mark::Star),
    (b"+", Mark::Plus),
    (b"-", Mark::Minus),
    (b"~", Mark::Tilde),
    (b"!", Mark::Exclamation),
    (b"/", Mark::Slash),
    (b"%", Mark::Percent),
    (b"<", Mark::Less),
    (b">", Mark::Greater),
    (b"^", Mark::Caret),
    (b"|", Mark::Bar),
    (b"?", Mark::Question),
    (b":", Mark::Colon),
    (b";", Mark::Semicolon),
    (b"=", Mark::Equal),
    (b",", Mark::Comma),
    (b"#", Mark::Hash),
];

const DOUBLE: [(&[u8], Mark); 20] = [
    (b"->", Mark::Arrow),
    (b"++", Mark::PlusPlus),
    (b"--", Mark::MinusMinus),
    (b"<<", Mark::ShiftLeft),
    (b">>", Mark::ShiftRight),
    (b"<=", Mark::LessEqual),
    (b">=", Mark::GreaterEqual),
    (b"==", Mark::EqualEqual),
    (b"!=", Mark::NotEqual),
    (b"&&", Mark::AndAnd),
    (b"||", Mark::OrOr),
    (b"*=", Mark::StarEqual),
    (b"/=", Mark::SlashEqual),
    (b"%=", Mark::PercentEqual),
    (b"+=", Mark::PlusEqual),
    (b"-=", Mark::MinusEqual),
    (b"&=", Mark::AmpersandEqual),
    (b"^=", Mark::CaretEqual),
    (b"|=", Mark::BarEqual),
    (b"##", Mark::HashHash),
];

const TRIPLE: [(&[u8], Mark); 3] = [
    (b"...", Mark::Ellipsis),
    (b"<<=", Mark::ShiftLeftEqual),
    (b">>=", Mark::ShiftRightEqual),
];

/// The mark that is spelt so, if the table has one.
pub fn mark_in(table: &[(&'static [u8], Mark)], word: &[u8]) -> Option<Mark>
    ensures { result ≡ mark_in (map (λ e. spelt e.0.now e.1) table.now) word.now }
{
    for spelling in table {
        if spelling.0 == word {
            return Some(spelling.1);
        }
    }
    None
}

pub fn single(word: &[u8]) -> Option<Mark>
    ensures { result ≡ mark_in single word.now }
{
    mark_in(&SINGLE, word)
}

pub fn double(word: &[u8]) -> Option<Mark>
    ensures { result ≡ mark_in double word.now }
{
    mark_in(&DOUBLE, word)
}

pub fn triple(word: &[u8]) -> Option<Mark>
    ensures { result ≡ mark_in triple word.now }
{
    mark_in(&TRIPLE, word)
}
