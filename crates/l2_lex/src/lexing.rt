// The tokens of a text, piece by piece.
ghost use Rattle.std.specs.Prelude.{◌≡◌, ◌≤◌, ◌<◌, ◌+◌, ◌^◌, ◌*◌, ◌∷◌, [], map, drop, length, IfOk, OnOk, IfSome, Some};
ghost use Rattle.std.specs.List.{prefix_len};
ghost use Rattle.l2_pieces.specs.Pieces.{bytes_of};
ghost use Rattle.l2_directives.specs.Words.{word_class};
ghost use Rattle.l2_directives.specs.Directives.{directive_of};
ghost use Rattle.l2_directives.specs.Headers.{entry, entries};
ghost use Rattle.l2_lex.specs.States.{State, emit, emit_all, number_kind, macro_kinds, number_of, role_of, know, set_role, learn, learn_all, declare_all, pass_mark, before_word, declare, as_type, learnt};
ghost use Rattle.l2_lex.specs.Lexing.{goes, stops, name_as, known_name, name, pass, word, constant, token_of, is_open, is_close, attribute_behind, is_word_refused, attributed, is_macro, is_constant, is_defined, defines_one, pass_line, include, become_macro, define, is_open_comment, open_comment, direct, is_passed, directed, is_hash, is_inside, begins_directive, is_on_line, line_behind, own_fault, step_on, step, Turn, lexed, is_outside, finish, first_state, lex, tokens_of, comment_or};
ghost use Rattle.l2_lex.specs.Code.{state_of, turn_of, lexed_of, Bounded, many};
ghost use Rattle.l2_limits.specs.Limits.{text_limit};

use crate::known::{Known, know, role, role_of_word, set_role};
use crate::marks::{before_word, declares, ends_typedef, typedef_behind};
use crate::state::{Attribute, Lexer, Typedef};
use indexmap::IndexSet;
use l2_bits::List;
use l2_directives::{
    Constant, Directive, Header, Macro, Role, Shape, WordClass, constant_of, directive_of, entries,
    is_refused, number, word_class,
};
use l2_pieces::{Piece, PieceKind, bytes_of, end_of, pieces};
use l2_syntax::{Mark, Name, Place, Refusal, Rule, Token, TokenKind, Tokens};
use std::alloc::{AllocError, Global};

/// Puts a token at the place of a piece.
fn emit<'a>(lexer: &mut Lexer<'a>, kind: TokenKind, piece: Piece) -> Result<(), AllocError>
    ensures { OnOk result (state_of lexer.new ≡ emit kind piece (state_of lexer.old)) }
{
    match lexer.tokens.push(Token {
        kind,
        place: piece.place,
        length: piece.length,
    }) {
        Ok(()) => {
            lexer.before = kind;
            Ok(())
        }
        Err(_) => Err(AllocError),
    }
}

fn emit_all<'a>(lexer: &mut Lexer<'a>, kinds: &[TokenKind], piece: Piece) -> Result<(), AllocError>
    ensures { OnOk result (state_of lexer.new ≡ emit_all kinds.now piece (state_of lexer.old)) }
{
    for kind in kinds {
        emit(lexer, *kind, piece)?;
    }
    Ok(())
}

fn number_kind(constant: Constant) -> TokenKind
    ensures { result ≡ number_kind constant }
{
    TokenKind::Number {
        value: constant.value,
        scalar: constant.scalar,
    }
}

/// The tokens of a macro, in place of its name.
fn emit_macro<'a>(lexer: &mut Lexer<'a>, found: Macro, piece: Piece) -> Result<(), AllocError>
    ensures { OnOk result (state_of lexer.new ≡ emit_all (macro_kinds found) piece (state_of lexer.old)) }
{
    let minus = TokenKind::Mark(Mark::Minus);
    let open = TokenKind::Mark(Mark::OpenParenthesis);
    let close = TokenKind::Mark(Mark::CloseParenthesis);
    let number = number_kind(found.constant);
    match found.shape {
        Shape::Bare => emit_all(lexer, &[number], piece),
        Shape::Negative => emit_all(lexer, &[minus, number], piece),
        Shape::Wrapped => emit_all(lexer, &[open, number, close], piece),
        Shape::WrappedNegative => emit_all(lexer, &[open, minus, number, close], piece),
        Shape::NegativeWrapped => emit_all(lexer, &[minus, open, number, close], piece),
    }
}

/// A word that is no type name: the typedef that is being read may declare it.
fn plain_name<'a>(lexer: &mut Lexer<'a>, number: u32, piece: Piece) -> Result<(), AllocError>
    ensures { OnOk result (state_of lexer.new ≡ emit (TokenKind.Word number) piece (declare number (state_of lexer.old))) }
{
    if declares(lexer.typedef, lexer.before) {
        match lexer.declared.push(number) {
            Ok(()) => {}
            Err(_) => return Err(AllocError),
        }
    }
    emit(lexer, TokenKind::Word(number), piece)
}

fn known_name<'a>(lexer: &mut Lexer<'a>, number: u32, piece: Piece) -> Result<(), AllocError>
    ensures { OnOk result (state_of lexer.new ≡ known_name number piece (state_of lexer.old)) }
{
    match role(&lexer.known, number as usize) {
        Role::Plain => plain_name(lexer, number, piece),
        Role::TypeName => {
            let kind = if before_word(lexer.before) {
                TokenKind::Word(number)
            } else {
                TokenKind::TypeName(number)
            };
            emit(lexer, kind, piece)
        }
        Role::Constant(found) => emit(lexer, number_kind(found), piece),
        Role::Macro(found) => emit_macro(lexer, found, piece),
    }
}

fn name<'a>(lexer: &mut Lexer<'a>, word: &'a [u8], piece: Piece) -> Result<(), AllocError>
    requires { Bounded many (state_of lexer.old) }
    ensures { OnOk result (state_of lexer.new ≡ name word.now piece (state_of lexer.old)) }
{
    let number = know_name(lexer, word)?;
    known_name(lexer, number as u32, piece)
}

fn as_type(role: Role) -> Role
    ensures { result ≡ as_type role }
{
    match role {
        Role::Plain => Role::TypeName,
        _ => role,
    }
}

fn declare_all<'a>(known: &mut Known<'a>, declared: &[u32])
    ensures names { known.new.names ≡ known.old.names }
    ensures roles { known.new.roles.items ≡ declare_all declared.now known.old.roles.items }
{
    for number in declared {
        let old = role(known, *number as usize);
        set_role(known, *number as usize, as_type(old));
    }
}

fn pass_mark<'a>(lexer: &mut Lexer<'a>, mark: Mark)
    requires { Bounded many (state_of lexer.old) }
    ensures { state_of lexer.new ≡ pass_mark mark (state_of lexer.old) }
{
    if ends_typedef(mark, lexer.typedef) {
        declare_all(&mut lexer.known, &lexer.declared);
        lexer.declared.clear();
        lexer.typedef = Typedef {
            is_open: false,
            braces: 0,
            brackets: 0,
        };
    } else {
        lexer.typedef = typedef_behind(mark, lexer.typedef);
    }
}

fn pass<'a>(lexer: &mut Lexer<'a>, mark: Mark, piece: Piece) -> Result<(), AllocError>
    requires { Bounded many (state_of lexer.old) }
    ensures { OnOk result (state_of lexer.new ≡ pass mark piece (state_of lexer.old)) }
{
    pass_mark(lexer, mark);
    emit(lexer, TokenKind::Mark(mark), piece)
}

fn stops(rule: Rule, piece: Piece) -> Option<Refusal>
    ensures { result ≡ Some (record { place = piece.place; rule = rule }) }
{
    Some(Refusal {
        place: piece.place,
        rule,
    })
}

fn word<'a>(
    lexer: &mut Lexer<'a>,
    bytes: &'a [u8],
    piece: Piece,
) -> Result<Option<Refusal>, AllocError>
    requires { Bounded many (state_of lexer.old) }
    ensures { IfOk result (λ r. turn_of lexer.new r ≡ word (word_class bytes.now) bytes.now piece (state_of lexer.old)) }
{
    match word_class(bytes) {
        WordClass::Refused => Ok(stops(Rule::Keyword, piece)),
        WordClass::Skipped => Ok(None),
        WordClass::Attribute => {
            lexer.attribute = Attribute::Awaited;
            Ok(None)
        }
        WordClass::Keyword(mark) => {
            pass(lexer, mark, piece)?;
            Ok(None)
        }
        WordClass::Name => {
            name(lexer, bytes, piece)?;
            Ok(None)
        }
    }
}

fn token_of<'a>(
    lexer: &mut Lexer<'a>,
    text: &'a [u8],
    piece: Piece,
) -> Result<Option<Refusal>, AllocError>
    requires { Bounded many (state_of lexer.old) }
    ensures { IfOk result (λ r. turn_of lexer.new r ≡ token_of text.now piece.kind piece (state_of lexer.old)) }
{
    match piece.kind {
        PieceKind::Word => word(lexer, bytes_of(text, piece), piece),
        PieceKind::Text => {
            emit(lexer, TokenKind::Text, piece)?;
            Ok(None)
        }
        PieceKind::Mark(mark) => {
            pass(lexer, mark, piece)?;
            Ok(None)
        }
        _ => {
            if let Some(found) = constant_of(text, piece) {
                emit(lexer, number_kind(found), piece)?;
            }
            Ok(None)
        }
    }
}

fn is_open(kind: PieceKind) -> bool
    ensures { result ≡ is_open kind }
{
    matches!(kind, PieceKind::Mark(Mark::OpenParenthesis))
}

fn is_close(kind: PieceKind) -> bool
    ensures { result ≡ is_close kind }
{
    matches!(kind, PieceKind::Mark(Mark::CloseParenthesis))
}

fn attribute_behind(kind: PieceKind, depth: u32) -> Attribute
    requires { depth < 2 ^ 31 }
    ensures { result ≡ attribute_behind kind depth }
{
    if is_open(kind) {
        Attribute::Inside(depth + 1)
    } else if is_close(kind) {
        if depth == 1 {
            Attribute::Outside
        } else {
            Attribute::Inside(depth.saturating_sub(1))
        }
    } else {
        Attribute::Inside(depth)
    }
}

fn is_word_refused(text: &[u8], piece: Piece) -> bool
    ensures { result ≡ is_word_refused text.now piece piece.kind }
{
    match piece.kind {
        PieceKind::Word => is_refused(word_class(bytes_of(text, piece))),
        _ => false,
    }
}

fn awaited<'a>(lexer: &mut Lexer<'a>, text: &[u8], piece: Piece) -> Option<Refusal>
    requires { lexer.old.attribute ≡ Attribute.Awaited }
    ensures { turn_of lexer.new result ≡ attributed Attribute.Awaited text.now piece (state_of lexer.old) }
{
    if is_open(piece.kind) {
        lexer.attribute = Attribute::Inside(1);
        None
    } else if is_word_refused(text, piece) {
        stops(Rule::Keyword, piece)
    } else {
        stops(Rule::Syntax, piece)
    }
}

fn attributed<'a>(
    lexer: &mut Lexer<'a>,
    text: &'a [u8],
    piece: Piece,
) -> Result<Option<Refusal>, AllocError>
    requires { Bounded many (state_of lexer.old) }
    ensures { IfOk result (λ r. turn_of lexer.new r ≡ attributed lexer.old.attribute text.now piece (state_of lexer.old)) }
{
    match lexer.attribute {
        Attribute::Outside => token_of(lexer, text, piece),
        Attribute::Awaited => Ok(awaited(lexer, text, piece)),
        Attribute::Inside(depth) => {
            lexer.attribute = attribute_behind(piece.kind, depth);
            Ok(None)
        }
    }
}

fn is_macro(role: Role) -> bool
    ensures { result ≡ is_macro role }
{
    matches!(role, Role::Macro(_))
}

fn is_constant(role: Role) -> bool
    ensures { result ≡ is_constant role }
{
    matches!(role, Role::Macro(_) | Role::Constant(_))
}

fn learnt(old: Role, new: Role) -> Role
    ensures { result ≡ learnt old new }
{
    match new {
        Role::TypeName => as_type(old),
        _ => new,
    }
}

/// The number of a name, which is known from now on.
fn know_name<'a>(lexer: &mut Lexer<'a>, word: &'a [u8]) -> Result<usize, AllocError>
    ensures number { IfOk result (λ i. i ≡ number_of (state_of lexer.old).names word.now) }
    ensures within { IfOk result (λ i. i ≤ length (state_of lexer.old).names) }
    ensures known { OnOk result (state_of lexer.new ≡ know word.now (state_of lexer.old)) }
{
    know(&mut lexer.known, word)
}

fn give_role<'a>(lexer: &mut Lexer<'a>, number: usize, role: Role)
    ensures { state_of lexer.new ≡ set_role number role (state_of lexer.old) }
{
    set_role(&mut lexer.known, number, role);
}

fn learn<'a>(lexer: &mut Lexer<'a>, word: &'a [u8], new: Role) -> Result<(), AllocError>
    ensures { OnOk result (state_of lexer.new ≡ learn (entry word.now new) (state_of lexer.old)) }
{
    let number = know_name(lexer, word)?;
    let old = role(&lexer.known, number);
    give_role(lexer, number, learnt(old, new));
    Ok(())
}

fn learn_all<'a>(lexer: &mut Lexer<'a>, entries: &[(&'static [u8], Role)]) -> Result<(), AllocError>
    ensures { OnOk result (state_of lexer.new ≡ learn_all (map (λ e. entry e.0.now e.1) entries.now) (state_of lexer.old)) }
{
    for entry in entries {
        learn(lexer, entry.0, entry.1)?;
    }
    Ok(())
}

fn is_defined<'a>(lexer: &Lexer<'a>, word: &[u8]) -> bool
    ensures { result ≡ is_defined word.now (state_of lexer.now) }
{
    is_macro(role_of_word(&lexer.known, word))
}

fn defines_one<'a>(lexer: &Lexer<'a>, entries: &[(&'static [u8], Role)]) -> bool
    ensures { result ≡ defines_one (map (λ e. entry e.0.now e.1) entries.now) (state_of lexer.now) }
{
    for entry in entries {
        if is_defined(lexer, entry.0) {
            return true;
        }
    }
    false
}

fn pass_line<'a>(lexer: &mut Lexer<'a>, piece: Piece)
    ensures { state_of lexer.new ≡ pass_line piece (state_of lexer.old) }
{
    lexer.line = piece.place.line;
    lexer.passed = piece.place.line;
}

fn include<'a>(
    lexer: &mut Lexer<'a>,
    header: Header,
    piece: Piece,
) -> Result<Option<Refusal>, AllocError>
    ensures { IfOk result (λ r. turn_of lexer.new r ≡ include header piece (state_of lexer.old)) }
{
    let names = entries(header);
    if defines_one(lexer, names) {
        return Ok(stops(Rule::Directive, piece));
    }
    learn_all(lexer, names)?;
    pass_line(lexer, piece);
    Ok(None)
}

fn define<'a>(
    lexer: &mut Lexer<'a>,
    word: &'a [u8],
    found: Macro,
    piece: Piece,
) -> Result<Option<Refusal>, AllocError>
    ensures { IfOk result (λ r. turn_of lexer.new r ≡ define word.now found piece (state_of lexer.old)) }
{
    if is_constant(role_of_word(&lexer.known, word)) {
        return Ok(stops(Rule::Directive, piece));
    }
    let number = know_name(lexer, word)?;
    give_role(lexer, number, Role::Macro(found));
    pass_line(lexer, piece);
    Ok(None)
}

fn is_open_comment(kind: PieceKind) -> bool
    ensures { result ≡ is_open_comment kind }
{
    matches!(kind, PieceKind::Fault(Rule::Comment))
}

fn open_comment(line: &[Piece]) -> Option<Piece>
    ensures { result ≡ open_comment line.now }
{
    for piece in line {
        if is_open_comment(piece.kind) {
            return Some(*piece);
        }
    }
    None
}

fn direct<'a>(
    lexer: &mut Lexer<'a>,
    directive: Directive,
    text: &'a [u8],
    piece: Piece,
) -> Result<Option<Refusal>, AllocError>
    ensures { IfOk result (λ r. turn_of lexer.new r ≡ direct directive text.now piece (state_of lexer.old)) }
{
    match directive {
        Directive::Passed => {
            pass_line(lexer, piece);
            Ok(None)
        }
        Directive::Include(header) => include(lexer, header, piece),
        Directive::Define(name, found) => define(lexer, bytes_of(text, name), found, piece),
        Directive::Unknown => Ok(stops(Rule::Directive, piece)),
    }
}

fn is_passed(directive: Directive) -> bool
    ensures { result ≡ is_passed directive }
{
    matches!(directive, Directive::Passed)
}

fn directed<'a>(
    lexer: &mut Lexer<'a>,
    text: &'a [u8],
    piece: Piece,
    line: &[Piece],
) -> Result<Option<Refusal>, AllocError>
    ensures { IfOk result (λ r. turn_of lexer.new r ≡ directed (directive_of text.now line.now) text.now piece line.now (state_of lexer.old)) }
{
    let directive = directive_of(text, line);
    if !is_passed(directive) {
        if let Some(comment) = open_comment(line) {
            return Ok(stops(Rule::Comment, comment));
        }
    }
    direct(lexer, directive, text, piece)
}

fn is_hash(kind: PieceKind) -> bool
    ensures { result ≡ is_hash kind }
{
    matches!(kind, PieceKind::Mark(Mark::Hash))
}

fn is_inside(attribute: Attribute) -> bool
    ensures { result ≡ is_inside attribute }
{
    matches!(attribute, Attribute::Inside(_))
}

fn begins_directive<'a>(lexer: &Lexer<'a>, piece: Piece) -> bool
    ensures { result ≡ begins_directive piece (state_of lexer.now) }
{
    is_hash(piece.kind) && !(piece.place.line == lexer.line) && !is_inside(lexer.attribute)
}

/// How many pieces stand on this line before any other.
fn line_length(line: u32, rest: &[Piece]) -> usize
    ensures { result ≡ prefix_len (is_on_line line) rest.now }
{
    let mut count = 0;
    for piece in rest {
        if piece.place.line != line {
            return count;
        }
        count += 1;
    }
    count
}

/// The pieces behind a piece on its line.
fn line_behind(piece: Piece, rest: &[Piece]) -> &[Piece]
    ensures { result.now ≡ line_behind piece rest.now }
{
    let count = line_length(piece.place.line, rest);
    if count < rest.len() {
        &rest[..count]
    } else {
        rest
    }
}

/// The rule that a piece breaks by itself.
fn own_fault(text: &[u8], piece: Piece) -> Option<Rule>
    ensures { result ≡ own_fault text.now piece.kind piece }
{
    match piece.kind {
        PieceKind::Fault(rule) => Some(rule),
        PieceKind::Number => match number(bytes_of(text, piece)) {
            None => Some(Rule::Literal),
            Some(_) => None,
        },
        _ => None,
    }
}

fn step_on<'a>(
    lexer: &mut Lexer<'a>,
    text: &'a [u8],
    piece: Piece,
    rest: &[Piece],
) -> Result<Option<Refusal>, AllocError>
    requires { Bounded many (state_of lexer.old) }
    ensures { IfOk result (λ r. turn_of lexer.new r ≡ step_on text.now piece rest.now (state_of lexer.old)) }
{
    if piece.place.line == lexer.passed {
        return Ok(None);
    }
    if begins_directive(lexer, piece) {
        return directed(lexer, text, piece, line_behind(piece, rest));
    }
    lexer.line = piece.place.line;
    attributed(lexer, text, piece)
}

fn step<'a>(
    lexer: &mut Lexer<'a>,
    text: &'a [u8],
    piece: Piece,
    rest: &[Piece],
) -> Result<Option<Refusal>, AllocError>
    requires { Bounded many (state_of lexer.old) }
    ensures { IfOk result (λ r. turn_of lexer.new r ≡ step text.now piece rest.now (state_of lexer.old)) }
{
    match own_fault(text, piece) {
        Some(rule) => Ok(stops(rule, piece)),
        None => step_on(lexer, text, piece, rest),
    }
}

/// The names as the set keeps them, as values of their own.
fn owned(alloc: Global, known: &IndexSet<&[u8]>) -> Result<Vec<Name>, AllocError>
    ensures { IfOk result (λ r. map (λ n. n.bytes) r.items ≡ map (λ k. k.now) known.now.keys) }
{
    let mut names = Vec::new(alloc);
    for index in 0..known.len() {
        if let Some(word) = known.get_index(index) {
            let bytes = Vec::from_slice(alloc, *word)?;
            match names.push(Name {
                bytes: List::new(bytes),
            }) {
                Ok(()) => {}
                Err(_) => return Err(AllocError),
            }
        }
    }
    Ok(names)
}

fn lexed(alloc: Global, lexer: Lexer, stop: Option<Refusal>) -> Result<Tokens, AllocError>
    ensures { IfOk result (λ r. lexed_of r ≡ lexed (state_of lexer.entry) stop) }
{
    let names = owned(alloc, &lexer.known.names)?;
    let Lexer { tokens, .. } = lexer;
    Ok(Tokens {
        list: List::new(tokens),
        names: List::new(names),
        stop,
    })
}

fn is_outside(attribute: Attribute) -> bool
    ensures { result ≡ is_outside attribute }
{
    matches!(attribute, Attribute::Outside)
}

fn finish(alloc: Global, lexer: Lexer, end: Place) -> Result<Tokens, AllocError>
    ensures { IfOk result (λ r. lexed_of r ≡ finish end (state_of lexer.entry)) }
{
    let mut lexer = lexer;
    if !is_outside(lexer.attribute) {
        return lexed(
            alloc,
            lexer,
            Some(Refusal {
                place: end,
                rule: Rule::Syntax,
            }),
        );
    }
    match lexer.tokens.push(Token {
        kind: TokenKind::End,
        place: end,
        length: 0,
    }) {
        Ok(()) => lexed(alloc, lexer, None),
        Err(_) => Err(AllocError),
    }
}

fn first_lexer<'a>(alloc: Global) -> Lexer<'a>
    ensures { state_of result ≡ first_state }
{
    Lexer {
        tokens: Vec::new(alloc),
        before: TokenKind::End,
        known: Known {
            names: IndexSet::new(alloc),
            roles: Vec::new(alloc),
        },
        typedef: Typedef {
            is_open: false,
            braces: 0,
            brackets: 0,
        },
        declared: Vec::new(alloc),
        attribute: Attribute::Outside,
        line: 0,
        passed: 0,
    }
}

/// A piece, and those behind it.
fn part(pieces: &[Piece], at: usize) -> (Piece, &[Piece])
    requires { at < length pieces.now }
    ensures here { drop at pieces.now ≡ result.0 ∷ drop (at + 1) pieces.now }
    ensures rest { result.1.now ≡ drop (at + 1) pieces.now }
{
    (pieces[at], &pieces[at + 1..])
}

/// The tokens of a text up to its first lexical refusal, which is `stop`. Where nothing is refused the last token is `End`.
/// A refusal of an `__attribute__` that has no parenthesis, or whose parentheses aren't balanced, has the rule `Syntax`.
pub fn tokens(alloc: Global, text: &[u8]) -> Result<Tokens, AllocError>
    requires { length text.now ≤ text_limit }
    ensures { IfOk result (λ r. lexed_of r ≡ tokens_of text.now) }
{
    let pieces = pieces(alloc, text)?;
    let mut lexer = first_lexer(alloc);
    for at in 0..pieces.len() {
        let (piece, rest) = part(&pieces, at);
        if let Some(refusal) = step(&mut lexer, text, piece, rest)? {
            return lexed(alloc, lexer, Some(refusal));
        }
    }
    finish(alloc, lexer, end_of(text))
}
