// The tokens of an expression's text.
ghost use Rattle.std.specs.Prelude.{◌&&◌, ◌++◌, ◌+◌, ◌<◌, ◌==◌, ◌||◌, ◌≡◌, ◌≤◌, IfErr, IfNone};
ghost use Rattle.std.specs.Prelude.{IfOk};
ghost use Rattle.std.specs.Prelude.{IfSome, List, None, Some, drop, false, length, slice_index};
ghost use Rattle.std.specs.Prelude.{slice_range, string_bytes, true, ℕ};
ghost use Rattle.pb_syntax.specs.Letters as letters;
ghost use Rattle.pb_syntax.specs.Letters.{IsSpelled, int_of, is_lettered, is_number, is_spelled};
ghost use Rattle.pb_syntax.specs.Letters.{letters_at, meaning_at};
ghost use Rattle.pb_syntax.specs.Letters.{quoted_letters, sort_tokens};
ghost use Rattle.pb_syntax.specs.Lexed.{IsNext, IsNoToken, IsToken};
ghost use Rattle.pb_syntax.specs.Place.{least_width, place_of};
ghost use Rattle.pb_syntax.specs.Signs.{begins_numeral, begins_other, is_double, sign_with};
ghost use Rattle.pb_syntax.specs.Signs.{starts_equal};
ghost use Rattle.pb_syntax.specs.Trees.{no_tree};
ghost use Rattle.pb_semantics.specs.Words.{FaultGives};
ghost use Rattle.pb_language.specs.Words.{Tokens, a_number, are_digits, escape_of};
ghost use Rattle.pb_language.specs.Words.{is_digit, is_letter, number_then};
ghost use Rattle.pb_language.specs.Words.{quoted, sign_then, token, tokens_from, tokens_of};
ghost use Rattle.pb_language.specs.Grammar.{valid};
ghost use Rattle.pb_language.specs.Words.{unreadable, word_token};
ghost use Rattle.pb_language.specs.Tokens as tokens;

use crate::fault::ExprFault;
use std::alloc::{AllocError, Global};

/// What a token is.
#[derive(Clone, Copy, PartialEq, Eq)]
pub enum Sort {
    /// The end of the text.
    End,
    /// A name that is no word of expressions.
    Name,
    And,
    Or,
    Not,
    In,
    Is,
    True,
    False,
    None,
    /// A word that no form begins or joins with.
    Reserved,
    /// Digits, and digits behind a `-`.
    Digits,
    Minus,
    /// A quoted text.
    Text,
    Open,
    Close,
    Dot,
    Equal,
    Unequal,
    Less,
    AtMost,
    More,
    AtLeast,
    Pipe,
    OpenBracket,
    CloseBracket,
    Comma,
}

/// A token, and the bytes of the text that it has: from `start` on, before `end`.
#[derive(Clone, Copy)]
pub struct Token {
    pub sort: Sort,
    pub start: usize,
    pub end: usize,
}

/// The first token at `from` or after it.
pub fn token_at(text: &[u8], from: usize) -> Result<Token, ExprFault>
    requires { from ≤ length text.now }
    ensures next { IfOk result (IsNext text.now from) }
    ensures refused { IfErr result (IsNoToken text.now from) }
{
    let start = after_blanks(text, from);
    if start == text.len() {
        return Ok(Token {
            sort: Sort::End,
            start,
            end: start,
        });
    }
    let first = text[start];
    if begins_number(first) {
        number_at(text, start)
    } else if is_quote(first) {
        text_at(text, start)
    } else if is_in_name(first) {
        Ok(word_at(text, start))
    } else {
        sign_at(text, start)
    }
}

/// The token behind that one, which has to be of that sort.
pub fn token_behind(text: &[u8], token: Token, sort: Sort) -> Result<Token, ExprFault>
    requires token { IsToken text.now token }
    ensures sort { IfOk result (λ _. token.sort ≡ sort) }
    ensures next { IfOk result (IsNext text.now token.end) }
    ensures place { IfErr result (λ e. place_of e ≤ length text.now) }
    ensures refused { IfErr result
        (λ _. token.sort ≡ sort → tokens_of (drop token.end text.now) ≡ unreadable) }
{
    if token.sort != sort {
        return Err(ExprFault::Unreadable { at: token.start });
    }
    token_at(text, token.end)
}

/// A token's name, as a text of its own.
pub fn name_of(alloc: Global, text: &[u8], token: Token) -> Result<String, ExprFault>
    requires ordered { token.start ≤ token.end }
    requires within { token.end ≤ length text.now }
    requires lettered { is_lettered token.sort ≡ true }
    requires spelled { IsSpelled text.now token }
    ensures named { IfOk result (λ n. string_bytes n ≡ letters_at text.now token) }
    ensures refused { IfErr result (λ e. e ≡ ExprFault.NoMemory) }
{
    match str::from_utf8(&text[token.start..token.end]) {
        Ok(name) => Ok(String::from_str(alloc, name)?),
        Err(_) => Err(ExprFault::Unreadable { at: token.start }),
    }
}

/// What a quoted text means.
pub fn meaning_of(alloc: Global, text: &[u8], token: Token) -> Result<String, ExprFault>
    requires ordered { token.start + 2 ≤ token.end }
    requires within { token.end ≤ length text.now }
    ensures read { IfOk result (λ s. valid (meaning_at text.now token) ≡ Some (string_bytes s)) }
    ensures refused { IfErr result
        (λ e. FaultGives (no_tree e) (valid (meaning_at text.now token))) }
    ensures place { IfErr result (λ e. place_of e ≤ length text.now) }
{
    let letters = unescaped(alloc, &text[token.start + 1..token.end - 1])?;
    match String::from_utf8(letters) {
        Ok(meaning) => Ok(meaning),
        Err(_) => Err(ExprFault::Unreadable { at: token.start }),
    }
}

/// Whether a token may be a step's name.
pub fn is_step(sort: Sort) -> bool
    ensures { result ≡ is_lettered sort }
{
    match sort {
        Sort::Name | Sort::And | Sort::Or | Sort::Not | Sort::In | Sort::Is => true,
        Sort::True | Sort::False | Sort::None | Sort::Reserved => true,
        _ => false,
    }
}

fn is_blank(byte: u8) -> bool
    ensures { result ≡ tokens.is_blank byte }
{
    byte == b' ' || byte == b'\t' || byte == b'\n' || byte == b'\r'
}

fn begins_number(byte: u8) -> bool
    ensures { result ≡ begins_numeral byte }
{
    byte == b'-' || byte.is_ascii_digit()
}

fn is_quote(byte: u8) -> bool
    ensures { result ≡ tokens.is_quote byte }
{
    byte == b'\'' || byte == b'"'
}

fn is_in_name(byte: u8) -> bool
    ensures { result ≡ is_letter byte || is_digit byte }
{
    byte.is_ascii_alphanumeric() || byte == b'_'
}

fn after_blanks(text: &[u8], from: usize) -> usize
    requires { from ≤ length text.now }
    ensures begins { from ≤ result }
    ensures ends { result ≤ length text.now }
    ensures same { tokens_of (drop result text.now) ≡ tokens_of (drop from text.now) }
    ensures past { result < length text.now
        → tokens.is_blank (slice_index text.now result) ≡ false }
{
    let mut at = from;
    while at < text.len() && is_blank(text[at]) {
        at += 1;
    }
    at
}

// A token of one or two signs.
fn sign_at(text: &[u8], start: usize) -> Result<Token, ExprFault>
    requires within { start < length text.now }
    requires apart { begins_other (slice_index text.now start) ≡ false }
    ensures begins { IfOk result (λ t. t.start ≡ start) }
    ensures next { IfOk result (IsNext text.now start) }
    ensures refused { IfErr result (IsNoToken text.now start) }
{
    let is_paired = has_equal(text, start + 1);
    let Some(sort) = sign_of(text[start], is_paired) else {
        return Err(ExprFault::Unreadable { at: start });
    };
    let end = if is_pair(sort) { start + 2 } else { start + 1 };
    Ok(Token { sort, start, end })
}

fn has_equal(text: &[u8], at: usize) -> bool
    ensures { result ≡ starts_equal (drop at text.now) }
{
    at < text.len() && text[at] == b'='
}

fn is_pair(sort: Sort) -> bool
    ensures { result ≡ is_double sort }
{
    match sort {
        Sort::Equal | Sort::Unequal | Sort::AtMost | Sort::AtLeast => true,
        _ => false,
    }
}

// The sort of a sign, with a `=` behind it or with none.
fn sign_of(byte: u8, is_paired: bool) -> Option<Sort>
    ensures width { IfSome result (λ s. least_width s ≤ 1) }
    ensures spelled { IfSome result (λ s. (n : List ℕ) → is_spelled s n ≡ true) }
    ensures pair { IfSome result (λ s. is_double s ≡ (is_paired && tokens.is_paired byte)) }
    ensures sign { IfSome result
        (λ s. (n w : List ℕ) (ts : Tokens)
        → sort_tokens s n w ts ≡ sign_then (sign_with byte is_paired) ts) }
    ensures refused { IfNone result (sign_with byte is_paired ≡ None) }
{
    match byte {
        b'(' => Some(Sort::Open),
        b')' => Some(Sort::Close),
        b'.' => Some(Sort::Dot),
        b'|' => Some(Sort::Pipe),
        b'[' => Some(Sort::OpenBracket),
        b']' => Some(Sort::CloseBracket),
        b',' => Some(Sort::Comma),
        b'=' if is_paired => Some(Sort::Equal),
        b'!' if is_paired => Some(Sort::Unequal),
        b'<' if is_paired => Some(Sort::AtMost),
        b'>' if is_paired => Some(Sort::AtLeast),
        b'<' => Some(Sort::Less),
        b'>' => Some(Sort::More),
        _ => None,
    }
}

fn word_at(text: &[u8], start: usize) -> Token
    requires within { start < length text.now }
    requires letter { is_letter (slice_index text.now start) ≡ true }
    ensures begins { result.start ≡ start }
    ensures next { IsNext text.now start result }
{
    let mut end = start + 1;
    while end < text.len() && is_in_name(text[end]) {
        end += 1;
    }
    Token {
        sort: word_of(&text[start..end]),
        start,
        end,
    }
}

fn word_of(word: &[u8]) -> Sort
    ensures width { least_width result ≡ 1 }
    ensures lettered { is_lettered result ≡ true }
    ensures word { (w : List ℕ) (ts : Tokens)
        → sort_tokens result word.now w ts ≡ token (word_token word.now) ts }
{
    match word {
        b"and" => Sort::And,
        b"or" => Sort::Or,
        b"not" => Sort::Not,
        b"in" => Sort::In,
        b"is" => Sort::Is,
        b"true" | b"True" => Sort::True,
        b"false" | b"False" => Sort::False,
        b"none" | b"None" => Sort::None,
        b"if" | b"else" => Sort::Reserved,
        _ => Sort::Name,
    }
}

// A whole number: an optional `-`, and digits without a leading zero.
fn number_at(text: &[u8], start: usize) -> Result<Token, ExprFault>
    requires within { start < length text.now }
    requires first { begins_numeral (slice_index text.now start) ≡ true }
    ensures begins { IfOk result (λ t. t.start ≡ start) }
    ensures next { IfOk result (IsNext text.now start) }
    ensures refused { IfErr result (IsNoToken text.now start) }
{
    let end = after_digits(text, start + 1);
    match numeral_of(&text[start..end]) {
        Some(sort) => Ok(Token { sort, start, end }),
        None => Err(ExprFault::Unreadable { at: start }),
    }
}

fn after_digits(text: &[u8], from: usize) -> usize
    requires { from ≤ length text.now }
    ensures begins { from ≤ result }
    ensures ends { result ≤ length text.now }
    ensures digits { are_digits (slice_range text.now from result) ≡ true }
    ensures read { (w : List ℕ) → tokens_from (a_number w) (drop from text.now)
        ≡ number_then (tokens.number_of (w ++ slice_range text.now from result))
        (tokens_of (drop result text.now)) }
{
    let mut at = from;
    while at < text.len() && text[at].is_ascii_digit() {
        at += 1;
    }
    at
}

// Which of both the bytes are: digits, or digits behind a `-`; neither with a leading zero.
fn numeral_of(numeral: &[u8]) -> Option<Sort>
    requires filled { 0 < length numeral.now }
    requires first { begins_numeral (slice_index numeral.now 0) ≡ true }
    requires digits { are_digits (drop 1 numeral.now) ≡ true }
    ensures width { IfSome result (λ s. least_width s ≡ 1) }
    ensures spelled { IfSome result (λ s. is_spelled s numeral.now ≡ true) }
    ensures number { IfSome result (λ s. (w : List ℕ) (ts : Tokens)
        → sort_tokens s numeral.now w ts ≡ number_then (tokens.number_of numeral.now) ts) }
    ensures refused { IfNone result (tokens.number_of numeral.now ≡ None) }
{
    let is_negative = numeral[0] == b'-';
    let digits = if is_negative { &numeral[1..] } else { numeral };
    if !is_numeral(digits) {
        return None;
    }
    Some(if is_negative {
        Sort::Minus
    } else {
        Sort::Digits
    })
}

/// The number that a token spells; none past 64 bits.
pub fn number_of(text: &[u8], token: Token) -> Option<i64>
    requires ordered { token.start ≤ token.end }
    requires within { token.end ≤ length text.now }
    requires number { is_number token.sort ≡ true }
    requires spelled { is_spelled token.sort (letters_at text.now token) ≡ true }
    ensures { result ≡ int_of token.sort (letters_at text.now token) }
{
    match str::from_utf8(&text[token.start..token.end]) {
        Ok(numeral) => numeral.parse::<i64>().ok(),
        Err(_) => None,
    }
}

fn is_numeral(digits: &[u8]) -> bool
    requires { are_digits digits.now ≡ true }
    ensures { result ≡ tokens.is_numeral digits.now }
{
    match digits {
        [] | [b'0', _, ..] => false,
        _ => true,
    }
}

fn text_at(text: &[u8], start: usize) -> Result<Token, ExprFault>
    requires within { start < length text.now }
    requires quote { tokens.is_quote (slice_index text.now start) ≡ true }
    ensures begins { IfOk result (λ t. t.start ≡ start) }
    ensures next { IfOk result (IsNext text.now start) }
    ensures refused { IfErr result (IsNoToken text.now start) }
{
    match closing_after(text, start) {
        Some(end) => Ok(Token {
            sort: Sort::Text,
            start,
            end,
        }),
        None => Err(ExprFault::Unreadable { at: start }),
    }
}

// The place after the quote that ends the text which the quote at `start` begins; none where the
// text doesn't end or has an escape that isn't known.
fn closing_after(text: &[u8], start: usize) -> Option<usize>
    requires within { start < length text.now }
    requires quote { tokens.is_quote (slice_index text.now start) ≡ true }

    ensures begins { IfSome result (λ end. start + 2 ≤ end) }
    ensures ends { IfSome result (λ end. end ≤ length text.now) }
    ensures read { IfSome result (λ end. tokens_of (drop start text.now)
        ≡ token (quoted (quoted_letters text.now start end)) (tokens_of (drop end text.now))) }
    ensures refused { IfNone result (tokens_of (drop start text.now) ≡ unreadable) }
{
    let quote = text[start];
    let mut at = start + 1;
    while at < text.len() {
        let byte = text[at];
        if byte == quote {
            return Some(at + 1);
        }
        if byte != b'\\' {
            at += 1;
        } else if at + 1 < text.len() && letter_of(text[at + 1]).is_some() {
            at += 2;
        } else {
            return None;
        }
    }
    None
}

// The letter that an escape stands for.
fn letter_of(escape: u8) -> Option<u8>
    ensures { result ≡ escape_of escape }
{
    match escape {
        b'\\' | b'\'' | b'"' => Some(escape),
        b'n' => Some(b'\n'),
        b't' => Some(b'\t'),
        _ => None,
    }
}

fn unescaped(alloc: Global, inside: &[u8]) -> Result<Vec<u8>, AllocError>
    ensures { IfOk result (λ v. v.items ≡ letters.unescaped inside.now) }
{
    let mut letters = Vec::new(alloc);
    let mut is_escaped = false;
    for byte in inside {
        if is_escaped {
            letters.push(letter_of(*byte).unwrap_or(*byte))?;
            is_escaped = false;
        } else if *byte == b'\\' {
            is_escaped = true;
        } else {
            letters.push(*byte)?;
        }
    }
    Ok(letters)
}
