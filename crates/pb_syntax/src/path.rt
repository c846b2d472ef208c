// Paths, and the hosts that they name.
ghost use Rattle.std.specs.Prelude.{[], ◌<◌, ◌∷◌, ◌≡◌, ◌≤◌, IfErr, IfNone, IfOk, IfSome, drop};
ghost use Rattle.std.specs.Prelude.{length, option_map, string_bytes};
ghost use Rattle.std.specs.Str.Parse.{digits_value};
ghost use Rattle.pb_semantics.specs.Words.{most_path_steps};
ghost use Rattle.pb_language.specs.Words.{tokens_of};
ghost use Rattle.pb_language.specs.Grammar.{path_of, steps_of};
ghost use Rattle.pb_language.specs.Grammar as grammar;
ghost use Rattle.pb_syntax.specs.ExprView.{expr_view, names_of, term_view};
ghost use Rattle.pb_syntax.specs.Forms.{member_of, name_behind};
ghost use Rattle.pb_syntax.specs.Letters.{letters_at, tokens_at};
ghost use Rattle.pb_syntax.specs.Lexed.{IsToken};
ghost use Rattle.pb_syntax.specs.Place.{place_of};
ghost use Rattle.pb_syntax.specs.Reads.{IsNoStep, IsRead, IsRefused, member_view};
ghost use Rattle.pb_syntax.specs.Reads.{next_view};

use crate::expr::{Expr, Member, Names, Path, Root, Term};
use crate::fault::ExprFault;
use crate::lexer::{Sort, Token, is_step, meaning_of, name_of, number_of, token_at, token_behind};
use smallvec::SmallVec;
use std::alloc::{AllocError, Global};

/// How many steps a path may have.
pub const STEPS: usize = 16;

// A place in a group that no group has.
const PLACES: usize = 1024;

/// The path that begins with the token, and the token after it.
pub fn path_at(alloc: Global, text: &[u8], token: Token) -> Result<(Expr, Token), ExprFault>
    requires token { IsToken text.now token }
    requires name { token.sort ≡ Sort.Name }
    ensures read { IfOk result (λ r. IsRead _ _ expr_view text.now token r
        (path_of (letters_at text.now token) (tokens_of (drop token.end text.now)))) }
    ensures refused { IfErr result (λ e. IsRefused _ text.now e
        (path_of (letters_at text.now token) (tokens_of (drop token.end text.now)))) }
{
    let next = token_at(text, token.end)?;
    let name = &text[token.start..token.end];
    if name == b"hostvars".as_slice() {
        return hostvars_at(alloc, text, next);
    }
    if name == b"groups".as_slice() {
        return groups_at(alloc, text, next);
    }
    let root = name_of(alloc, text, token)?;
    let (steps, after) = whole_steps_at(alloc, text, next, STEPS)?;
    Ok((
        Expr::Path(Path {
            root: Root::Variable(root),
            steps,
            slot: None,
        }),
        after,
    ))
}

// The path of `hostvars` that goes on with the token.
fn hostvars_at(alloc: Global, text: &[u8], token: Token) -> Result<(Expr, Token), ExprFault>
    requires token { IsToken text.now token }
    ensures read { IfOk result (λ r. IsRead _ _ expr_view text.now token r
        (grammar.hostvars_of (tokens_at text.now token))) }
    ensures refused { IfErr result (λ e. IsRefused _ text.now e
        (grammar.hostvars_of (tokens_at text.now token))) }
{
    if token.sort == Sort::Dot {
        let (host, after) = dotted_host(alloc, text, token)?;
        return host_steps(alloc, text, host, after);
    }
    if token.sort == Sort::OpenBracket {
        let (host, after) = bracketed_host(alloc, text, token)?;
        return host_steps(alloc, text, host, after);
    }
    Ok((Expr::Hostvars(None), token))
}

// The host whose name stands behind a dot.
fn dotted_host(alloc: Global, text: &[u8], dot: Token) -> Result<(Term, Token), ExprFault>
    requires token { IsToken text.now dot }
    requires dot { dot.sort ≡ Sort.Dot }
    ensures read { IfOk result (λ r. IsRead _ _ term_view text.now dot r
        (grammar.dotted_host (tokens_of (drop dot.end text.now)))) }
    ensures refused { IfErr result (λ e. IsRefused _ text.now e
        (grammar.dotted_host (tokens_of (drop dot.end text.now)))) }
{
    let (name, after) = dotted_name(alloc, text, dot)?;
    Ok((Term::Named(name), after))
}

// The host that stands in brackets.
fn bracketed_host(alloc: Global, text: &[u8], bracket: Token) -> Result<(Term, Token), ExprFault>
    requires token { IsToken text.now bracket }
    ensures read { IfOk result (λ r. IsRead _ _ term_view text.now bracket r
        (grammar.bracketed_host (grammar.term_of (tokens_of (drop bracket.end text.now))))) }
    ensures refused { IfErr result (λ e. IsRefused _ text.now e
        (grammar.bracketed_host (grammar.term_of (tokens_of (drop bracket.end text.now))))) }
{
    let (host, close) = term_at(alloc, text, token_at(text, bracket.end)?)?;
    let after = token_behind(text, close, Sort::CloseBracket)?;
    Ok((host, after))
}

// The host that the token names, and the token after it.
fn term_at(alloc: Global, text: &[u8], token: Token) -> Result<(Term, Token), ExprFault>
    requires token { IsToken text.now token }
    ensures read { IfOk result (λ r. IsRead _ _ term_view text.now token r
        (grammar.term_of (tokens_at text.now token))) }
    ensures refused { IfErr result (λ e. IsRefused _ text.now e
        (grammar.term_of (tokens_at text.now token))) }
{
    match token.sort {
        Sort::Text => quoted_term(alloc, text, token),
        Sort::Name => named_term(alloc, text, token),
        _ => Err(ExprFault::Unreadable { at: token.start }),
    }
}

// The host whose name is a quoted text.
fn quoted_term(alloc: Global, text: &[u8], token: Token) -> Result<(Term, Token), ExprFault>
    requires token { IsToken text.now token }
    requires quoted { token.sort ≡ Sort.Text }
    ensures read { IfOk result (λ r. IsRead _ _ term_view text.now token r
        (grammar.term_of (tokens_at text.now token))) }
    ensures refused { IfErr result (λ e. IsRefused _ text.now e
        (grammar.term_of (tokens_at text.now token))) }
{
    let name = meaning_of(alloc, text, token)?;
    let after = token_at(text, token.end)?;
    Ok((Term::Named(name), after))
}

// The host that a name stands for.
fn named_term(alloc: Global, text: &[u8], token: Token) -> Result<(Term, Token), ExprFault>
    requires token { IsToken text.now token }
    requires name { token.sort ≡ Sort.Name }
    ensures read { IfOk result (λ r. IsRead _ _ term_view text.now token r
        (grammar.name_term (letters_at text.now token) (tokens_of (drop token.end text.now)))) }
    ensures refused { IfErr result (λ e. IsRefused _ text.now e
        (grammar.name_term (letters_at text.now token) (tokens_of (drop token.end text.now)))) }
{
    let name = &text[token.start..token.end];
    if name == b"groups".as_slice() {
        return group_term(alloc, text, token_at(text, token.end)?);
    }
    let Some(term) = term_named(name) else {
        return Err(ExprFault::Unreadable { at: token.start });
    };
    let after = token_at(text, token.end)?;
    Ok((term, after))
}

/// The host that such a name stands for.
pub fn term_named(name: &[u8]) -> Option<Term>
    ensures { option_map term_view result ≡ grammar.term_named name.now }
{
    if name == b"inventory_hostname".as_slice() {
        Some(Term::This)
    } else if name == b"item".as_slice() {
        Some(Term::Item)
    } else {
        None
    }
}

// The host of a group that the steps from the token on name.
fn group_term(alloc: Global, text: &[u8], token: Token) -> Result<(Term, Token), ExprFault>
    requires token { IsToken text.now token }
    ensures read { IfOk result (λ r. IsRead _ _ term_view text.now token r
        (grammar.group_term (steps_of most_path_steps (tokens_at text.now token)))) }
    ensures refused { IfErr result (λ e. IsRefused _ text.now e
        (grammar.group_term (steps_of most_path_steps (tokens_at text.now token)))) }
{
    let (steps, bracket) = steps_at(alloc, text, token, STEPS)?;
    if bracket.sort != Sort::OpenBracket {
        return Err(ExprFault::Unreadable { at: bracket.start });
    }
    let (member, after) = member_at(text, steps, bracket)?;
    Ok((Term::Member(member), after))
}

// The path of `groups` that goes on with the token: a host of a group by its place, or a field.
fn groups_at(alloc: Global, text: &[u8], token: Token) -> Result<(Expr, Token), ExprFault>
    requires token { IsToken text.now token }
    ensures read { IfOk result (λ r. IsRead _ _ expr_view text.now token r
        (grammar.group_path (steps_of most_path_steps (tokens_at text.now token)))) }
    ensures refused { IfErr result (λ e. IsRefused _ text.now e
        (grammar.group_path (steps_of most_path_steps (tokens_at text.now token)))) }
{
    let (steps, after) = steps_at(alloc, text, token, STEPS)?;
    if after.sort != Sort::OpenBracket {
        let root = Root::Variable(String::from_str(alloc, "groups")?);
        let slot = None;
        return Ok((Expr::Path(Path { root, steps, slot }), after));
    }
    let (member, after) = member_at(text, steps, after)?;
    let root = Root::Member(member);
    Ok((
        Expr::Path(Path {
            root,
            steps: SmallVec::new(alloc),
            slot: None,
        }),
        after,
    ))
}

// The place in brackets behind the one step that names a group.
fn member_at(text: &[u8], steps: Names, bracket: Token) -> Result<(Member, Token), ExprFault>
    requires token { IsToken text.now bracket }
    ensures read { IfOk result (λ r. IsRead _ _ member_view text.now bracket r
        (member_of (names_of steps.items) (tokens_of (drop bracket.end text.now)))) }
    ensures refused { IfErr result (λ e. IsRefused _ text.now e
        (member_of (names_of steps.items) (tokens_of (drop bracket.end text.now)))) }
{
    let digits = token_at(text, bracket.end)?;
    let Some(group) = only_step(steps) else {
        return Err(ExprFault::Unreadable { at: digits.start });
    };
    if digits.sort != Sort::Digits {
        return Err(ExprFault::Unreadable { at: digits.start });
    }
    let close = token_at(text, digits.end)?;
    let after = token_behind(text, close, Sort::CloseBracket)?;
    let place = place_at(text, digits);
    Ok((Member { group, place }, after))
}

// The step that stands alone.
fn only_step(steps: Names) -> Option<String>
    ensures one { IfSome result (λ s. steps.items ≡ s ∷ []) }
    ensures other { IfNone result (length steps.items ≡ 1 → ⊥) }
{
    let mut steps = steps;
    if steps.len() == 1 { steps.pop() } else { None }
}

// The place that digits spell, or one that no group has.
fn place_at(text: &[u8], digits: Token) -> usize
    requires token { IsToken text.now digits }
    requires digits { digits.sort ≡ Sort.Digits }
    ensures { result ≡ grammar.place_of (digits_value 10 (letters_at text.now digits)) }
{
    let Some(number) = number_of(text, digits) else {
        return PLACES;
    };
    if number < 1024 {
        number as usize
    } else {
        PLACES
    }
}

// The path that the steps behind a host name, or the host's variables as a whole.
fn host_steps(
    alloc: Global,
    text: &[u8],
    host: Term,
    token: Token,
) -> Result<(Expr, Token), ExprFault>
    requires token { IsToken text.now token }
    ensures read { IfOk result (λ r. IsRead _ _ expr_view text.now token r
        (grammar.host_steps (term_view host) (tokens_at text.now token))) }
    ensures refused { IfErr result (λ e. IsRefused _ text.now e
        (grammar.host_steps (term_view host) (tokens_at text.now token))) }
{
    let (steps, after) = whole_steps_at(alloc, text, token, STEPS - 1)?;
    Ok((host_path(host, steps), after))
}

fn host_path(host: Term, steps: Names) -> Expr
    ensures { expr_view result ≡ grammar.host_path (term_view host) (names_of steps.items) }
{
    let mut steps = steps;
    if steps.is_empty() {
        return Expr::Hostvars(Some(host));
    }
    let variable = steps.remove(0);
    Expr::Path(Path {
        root: Root::Other(host, variable),
        steps,
        slot: None,
    })
}

// The steps from the token on, behind which no other `[` stands.
fn whole_steps_at(
    alloc: Global,
    text: &[u8],
    token: Token,
    most: usize,
) -> Result<(Names, Token), ExprFault>
    requires token { IsToken text.now token }
    ensures read { IfOk result (λ r. IsRead _ _ (λ v. names_of v.items) text.now token r
        (grammar.unbracketed (steps_of most (tokens_at text.now token)))) }
    ensures refused { IfErr result (λ e. IsRefused _ text.now e
        (grammar.unbracketed (steps_of most (tokens_at text.now token)))) }
{
    let (steps, after) = steps_at(alloc, text, token, most)?;
    if after.sort == Sort::OpenBracket {
        return Err(stray_behind(text, after));
    }
    Ok((steps, after))
}

// That the token behind that one can't stand there.
fn stray_behind(text: &[u8], token: Token) -> ExprFault
    requires token { IsToken text.now token }
    ensures { place_of result ≤ length text.now }
{
    match token_at(text, token.end) {
        Ok(stray) => ExprFault::Unreadable { at: stray.start },
        Err(fault) => fault,
    }
}

// The steps from the token on, so many at most, and the token after them.
fn steps_at(
    alloc: Global,
    text: &[u8],
    token: Token,
    most: usize,
) -> Result<(Names, Token), ExprFault>
    requires token { IsToken text.now token }
    ensures read { IfOk result (λ r. IsRead _ _ (λ v. names_of v.items) text.now token r
        (steps_of most (tokens_at text.now token))) }
    ensures refused { IfErr result (λ e. IsRefused _ text.now e
        (steps_of most (tokens_at text.now token))) }
{
    let mut steps = SmallVec::new(alloc);
    let mut after = token;
    'steps: while let Some((name, next)) = step_at(alloc, text, after)? {
        if steps.len() >= most {
            return Err(ExprFault::TooDeep);
        }
        steps.push(name)?;
        after = next;
    }
    Ok((steps, after))
}

// The name of the step that the token begins, if it begins one, and the token after it.
fn step_at(alloc: Global, text: &[u8], token: Token) -> Result<Option<(String, Token)>, ExprFault>
    requires token { IsToken text.now token }
    ensures next { IfOk result (λ r. IfSome r (λ s.
        (token.start < s.1.start) × IsToken text.now s.1)) }
    ensures read { IfOk result (λ r.
        grammar.next_step (tokens_at text.now token) ≡ next_view text.now r) }
    ensures refused { IfErr result (λ e.
        IsNoStep text.now e (grammar.next_step (tokens_at text.now token))) }
{
    match token.sort {
        Sort::Dot => {
            let (name, after) = dotted_name(alloc, text, token)?;
            Ok(Some((name, after)))
        }
        Sort::OpenBracket => bracketed_name(alloc, text, token),
        _ => Ok(None),
    }
}

// The name behind a dot, and the token after it.
fn dotted_name(alloc: Global, text: &[u8], dot: Token) -> Result<(String, Token), ExprFault>
    requires token { IsToken text.now dot }
    requires dot { dot.sort ≡ Sort.Dot }
    ensures past { IfOk result (λ r. dot.start < r.1.start) }
    ensures read { IfOk result (λ r. IsRead _ _ (λ n. string_bytes n) text.now dot r
        (name_behind (tokens_of (drop dot.end text.now)))) }
    ensures refused { IfErr result (λ e. IsRefused _ text.now e
        (name_behind (tokens_of (drop dot.end text.now)))) }
{
    let token = token_at(text, dot.end)?;
    if !is_step(token.sort) {
        return Err(ExprFault::Unreadable { at: token.start });
    }
    let name = name_of(alloc, text, token)?;
    let after = token_at(text, token.end)?;
    Ok((name, after))
}

// The name in the brackets that open there, if a text stands there, and the token after them.
fn bracketed_name(
    alloc: Global,
    text: &[u8],
    bracket: Token,
) -> Result<Option<(String, Token)>, ExprFault>
    requires token { IsToken text.now bracket }
    ensures next { IfOk result (λ r. IfSome r (λ s.
        (bracket.end < s.1.start) × IsToken text.now s.1)) }
    ensures read { IfOk result (λ r.
        grammar.bracketed_step (tokens_of (drop bracket.end text.now)) ≡ next_view text.now r) }
    ensures refused { IfErr result (λ e.
        IsNoStep text.now e (grammar.bracketed_step (tokens_of (drop bracket.end text.now)))) }
{
    let quoted = token_at(text, bracket.end)?;
    if quoted.sort != Sort::Text {
        return Ok(None);
    }
    let name = meaning_of(alloc, text, quoted)?;
    let close = token_at(text, quoted.end)?;
    let after = token_behind(text, close, Sort::CloseBracket)?;
    Ok(Some((name, after)))
}
