// Notify texts name handlers or topics of the play (V05), and a handler's only later ones (V12).
ghost use Rattle.std.specs.Prelude.{◌≡◌, map};
ghost use Rattle.std.specs.List.{list_any};
ghost use Rattle.pb_semantics.specs.Words.{is_among};
ghost use Rattle.pb_language.specs.Notify.{all_notified, is_name, is_named, names_something};
ghost use Rattle.pb_language.specs.Notify.{notified};
ghost use Rattle.pb_language.specs.Rules.{any_notifies_up_to, any_up_to, breaks_notify};
ghost use Rattle.pb_language.specs.Rules.{breaks_order};
ghost use Rattle.pb_task.specs.Words.{names_view};
ghost use Rattle.pb_rules.specs.Handlers.{handler_name, handlers_names, names_of};
ghost use Rattle.pb_rules.specs.Sites.{site_view};

use crate::site::{Site, Thing};
use pb_play::Handler;
use std::sync::Arc;

// A notify text at the line names no handler and no topic of the play.
pub(crate) fn breaks_notify(site: &Site<'_>) -> bool
    ensures { result ≡ breaks_notify (site_view site.now) }
{
    match site.task() {
        Some(task) => !all_name_some(&site.around.play.handlers, &task.notify),
        None => false,
    }
}

fn all_name_some(handlers: &[Handler], texts: &[Arc<String>]) -> bool
    ensures { result ≡ names_something (all_notified (handlers_names handlers.now)
        (names_view texts.now)) }
{
    for text in texts {
        if !names_some(handlers, text.as_str()) {
            return false;
        }
    }
    true
}

fn names_some(handlers: &[Handler], text: &str) -> bool
    ensures { result ≡ list_any (is_named text.now) (handlers_names handlers.now) }
{
    for handler in handlers {
        if is_named(handler, text) {
            return true;
        }
    }
    false
}

/// Whether the text notifies the handler: it is its name or one of its topics.
pub fn is_named(handler: &Handler, text: &str) -> bool
    ensures { result ≡ is_named text.now (names_of handler.now) }
{
    has_name(handler, text) || has_topic(&handler.topics, text)
}

fn has_name(handler: &Handler, text: &str) -> bool
    ensures { result ≡ is_name text.now (handler_name handler.now) }
{
    match &handler.name {
        Some(name) => text == name.as_str(),
        None => false,
    }
}

fn has_topic(topics: &[Arc<String>], text: &str) -> bool
    ensures { result ≡ is_among text.now (names_view topics.now) }
{
    for topic in topics {
        if text == topic.as_str() {
            return true;
        }
    }
    false
}

// A handler stands at the line that notifies itself or an earlier one.
pub(crate) fn breaks_order(site: &Site<'_>) -> bool
    ensures { result ≡ breaks_order (site_view site.now) (site_view site.now).thing }
{
    match site.thing {
        Thing::Handler(number, task) => {
            notifies_up_to(&site.around.play.handlers, number, &task.notify)
        }
        Thing::Play | Thing::Block(_) | Thing::Flush(_) | Thing::Gathering(_) | Thing::Task(_) =>
            false,
    }
}

fn notifies_up_to(handlers: &[Handler], number: usize, texts: &[Arc<String>]) -> bool
    ensures { result
        ≡ any_notifies_up_to number (handlers_names handlers.now) (names_view texts.now) }
{
    for text in texts {
        if is_named_up_to(handlers, number, text.as_str()) {
            return true;
        }
    }
    false
}

// Whether the handler of that number or an earlier one has that name or topic.
fn is_named_up_to(handlers: &[Handler], number: usize, text: &str) -> bool
    ensures { result ≡ any_up_to number (notified 0 text.now (handlers_names handlers.now)) }
{
    for (place, handler) in handlers.iter().enumerate() {
        if place > number {
            return false;
        }
        if is_named(handler, text) {
            return true;
        }
    }
    false
}
