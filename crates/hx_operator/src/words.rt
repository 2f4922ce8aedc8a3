//! What an operator says in words.
ghost use Rattle.std.specs.Prelude.{◌≡◌, IfOk, IfErr, IfSome, IfNone, Some, None};
ghost use Rattle.hx_operator.specs.Marks.{words_of};
ghost use Rattle.hx_operator.specs.Words.{lone_command, kind_of, one_of, the_code, the_stock, the_number, the_member, halt_of, with_more, command_of_words, with_note, command_of, note_of};

use crate::command::Command;
use crate::fault::WordError;
use crate::marks::{has_word, next_word, split_at_quote};
use crate::names::{code_of, member_of, number_of, reason_of, symbol_of};
use hx_units::{MemberNo, Symbol};

// The commands that have more than one word.
#[derive(Clone, Copy)]
enum Kind {
    Code,
    Halt,
    Resume,
    Break,
    Disconnect,
    Allow,
    Refuse,
}

// The command of one word.
fn lone_command(word: &[u8]) -> Option<Command>
    ensures { result ≡ lone_command word.now }
{
    if word == b"start".as_slice() {
        return Some(Command::Start);
    }
    if word == b"open".as_slice() {
        return Some(Command::Open);
    }
    if word == b"close".as_slice() {
        return Some(Command::Close);
    }
    if word == b"end".as_slice() {
        return Some(Command::End);
    }
    if word == b"tick".as_slice() {
        return Some(Command::Tick);
    }
    if word == b"status".as_slice() {
        return Some(Command::Status);
    }
    if word == b"help".as_slice() {
        return Some(Command::Help);
    }
    None
}

// The command that a word begins.
fn kind_of(word: &[u8]) -> Option<Kind>
    ensures { result ≡ kind_of word.now }
{
    if word == b"code".as_slice() {
        return Some(Kind::Code);
    }
    if word == b"halt".as_slice() {
        return Some(Kind::Halt);
    }
    if word == b"resume".as_slice() {
        return Some(Kind::Resume);
    }
    if word == b"break".as_slice() {
        return Some(Kind::Break);
    }
    if word == b"drop".as_slice() {
        return Some(Kind::Disconnect);
    }
    if word == b"allow".as_slice() {
        return Some(Kind::Allow);
    }
    if word == b"refuse".as_slice() {
        return Some(Kind::Refuse);
    }
    None
}

// The one word of a text.
fn one_of(text: &[u8], missing: WordError) -> Result<&[u8], WordError>
    ensures ok { IfOk result (λ word. one_of missing (words_of text.now) ≡ Ok word.now) }
    ensures err { IfErr result (λ e. one_of missing (words_of text.now) ≡ Err e) }
{
    let Some((word, rest)) = next_word(text) else {
        return Err(missing);
    };
    if has_word(rest) {
        return Err(WordError::TooMany);
    }
    Ok(word)
}

// The code of a text.
fn the_code(text: &[u8]) -> Result<u8, WordError>
    ensures { result ≡ the_code (words_of text.now) }
{
    let word = one_of(text, WordError::MissingCode)?;
    code_of(word).ok_or(WordError::NoCode)
}

// The stock of a text.
fn the_stock(text: &[u8]) -> Result<Symbol, WordError>
    ensures { result ≡ the_stock (words_of text.now) }
{
    let word = one_of(text, WordError::MissingStock)?;
    symbol_of(word).ok_or(WordError::NoStock)
}

// The match number of a text.
fn the_number(text: &[u8]) -> Result<u64, WordError>
    ensures { result ≡ the_number (words_of text.now) }
{
    let word = one_of(text, WordError::MissingNumber)?;
    number_of(word).ok_or(WordError::NoNumber)
}

// The member of a text.
fn the_member(text: &[u8]) -> Result<MemberNo, WordError>
    ensures { result ≡ the_member (words_of text.now) }
{
    let word = one_of(text, WordError::MissingMember)?;
    member_of(word).ok_or(WordError::NoMember)
}

// The halt of a text.
fn halt_of(text: &[u8]) -> Result<Command, WordError>
    ensures { result ≡ halt_of (words_of text.now) }
{
    let Some((stock, rest)) = next_word(text) else {
        return Err(WordError::MissingStock);
    };
    let Some((reason, rest)) = next_word(rest) else {
        return Err(WordError::MissingReason);
    };
    if has_word(rest) {
        return Err(WordError::TooMany);
    }
    let Some(stock) = symbol_of(stock) else {
        return Err(WordError::NoStock);
    };
    let Some(reason) = reason_of(reason) else {
        return Err(WordError::NoReason);
    };
    Ok(Command::Halt { stock, reason })
}

// The command of a text, after its first word.
fn with_more(kind: Kind, text: &[u8]) -> Result<Command, WordError>
    ensures { result ≡ with_more kind (words_of text.now) }
{
    match kind {
        Kind::Code => Ok(Command::Code(the_code(text)?)),
        Kind::Halt => halt_of(text),
        Kind::Resume => Ok(Command::Resume {
            stock: the_stock(text)?,
        }),
        Kind::Break => Ok(Command::Break {
            number: the_number(text)?,
        }),
        Kind::Disconnect => Ok(Command::Disconnect(the_member(text)?)),
        Kind::Allow => Ok(Command::Allow(the_member(text)?)),
        Kind::Refuse => Ok(Command::Refuse(the_member(text)?)),
    }
}

// The command that the words of a text say.
fn command_of_words(text: &[u8]) -> Result<Command, WordError>
    ensures { result ≡ command_of_words (words_of text.now) }
{
    let Some((word, more)) = next_word(text) else {
        return Err(WordError::NoWord);
    };
    if let Some(command) = lone_command(word) {
        if has_word(more) {
            return Err(WordError::TooMany);
        }
        return Ok(command);
    }
    match kind_of(word) {
        Some(kind) => with_more(kind, more),
        None => Err(WordError::UnknownWord),
    }
}

// The command in front of a quote, after which the rest stands.
fn with_note(front: &[u8], rest: &[u8]) -> Result<Command, WordError>
    ensures { result ≡ with_note (words_of front.now) rest.now }
{
    let Some((_note, after)) = split_at_quote(rest) else {
        return Err(WordError::OpenQuote);
    };
    if has_word(after) {
        return Err(WordError::TooMany);
    }
    match next_word(front) {
        Some((b"halt", _)) => command_of_words(front),
        _ => Err(WordError::NoNote),
    }
}

/// The command that a text says: its words are parted by one or more spaces, and after a halt a text in double quotes
/// may follow, for the operator's log.
///
/// Errors: what is wrong with it, the first thing from the left in most cases.
pub fn read_command(text: &[u8]) -> Result<Command, WordError>
    ensures { result ≡ command_of text.now }
{
    match split_at_quote(text) {
        Some((front, rest)) => with_note(front, rest),
        None => command_of_words(text),
    }
}

/// The text in double quotes, without them.
pub fn note_of(text: &[u8]) -> Option<&[u8]>
    ensures some { IfSome result (λ note. note_of text.now ≡ Some note.now) }
    ensures none { IfNone result (note_of text.now ≡ None) }
{
    let (_front, rest) = split_at_quote(text)?;
    let (note, _after) = split_at_quote(rest)?;
    Some(note)
}
