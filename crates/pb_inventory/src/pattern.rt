// The hosts that patterns of plays find.
ghost use Rattle.std.specs.Prelude.{[], ◌+◌, ◌∷◌, ◌≡◌, ◌≤◌, ◌<◌, ◌==◌, ◌||◌, IfOk, OnOk, Some};
ghost use Rattle.std.specs.Prelude.{length, map, replicate, slice_index, slice_range};
ghost use Rattle.std.specs.List.{All};
ghost use Rattle.pb_semantics.specs.Words.{Gives};
ghost use Rattle.pb_language.specs.BookForm.{is_blank as is_blank_byte, turned, without_blanks};
ghost use Rattle.pb_language.specs.BookForm.{word_met, words_from};
ghost use Rattle.pb_inventory.specs.Documents.{names_view};
ghost use Rattle.pb_inventory.specs.Families.{IsMarked};
ghost use Rattle.pb_inventory.specs.Inventory.{inventory_view};
ghost use Rattle.pb_inventory.specs.Patterns.{hosts_found, names_at, no_hosts, patterns_words};
ghost use Rattle.pb_inventory.specs.Patterns.{words_left};

use crate::family::{add_host, add_hosts};
use crate::fault::PatternFault;
use crate::inventory::Inventory;
use std::alloc::{AllocError, Global};
use std::sync::Arc;

// How the table of all hosts marks those that are found.
const FOUND: usize = 0;

// How it marks the others.
const NOT_FOUND: usize = 1;

impl Inventory {
    /// The places of the hosts that a play's pattern finds, each once, where it first comes: those
    /// of each word, which is the name of a group, else of a host. `:` and `,` divide the words,
    /// and blanks round them count for nothing.
    ///
    /// # Errors
    /// `Unknown` where a word, as also one that is empty, names no group and no host. `NoMemory`
    /// for want of memory.
    pub fn hosts_of(&self, alloc: Global, pattern: &str) -> Result<Vec<usize>, PatternFault>
        ensures given { Gives
            (λ ps. Some (names_at (map (λ h. h.name) (inventory_view self.now).hosts) ps.items))
            no_hosts result
            (hosts_found (inventory_view self.now) [] (words_from [] pattern.now)) }
        ensures placed { IfOk result
            (λ ps. All (λ p. p < length (inventory_view self.now).hosts) ps.items) }
    {
        let mut seen = none_found(alloc, self.hosts())?;
        let mut places = Vec::new(alloc);
        add_words(self, pattern, &mut places, seen.as_mut_slice())?;
        Ok(places)
    }

    /// The places of the hosts that these patterns find, as though their words stood in one; where
    /// there are no patterns there are no hosts.
    ///
    /// # Errors
    /// As for `hosts_of`.
    pub fn hosts_of_each(
        &self,
        alloc: Global,
        patterns: &[Arc<String>],
    ) -> Result<Vec<usize>, PatternFault>
        ensures given { Gives
            (λ ps. Some (names_at (map (λ h. h.name) (inventory_view self.now).hosts) ps.items))
            no_hosts result (hosts_found (inventory_view self.now) []
            (patterns_words (names_view patterns.now))) }
        ensures placed { IfOk result
            (λ ps. All (λ p. p < length (inventory_view self.now).hosts) ps.items) }
    {
        let mut seen = none_found(alloc, self.hosts())?;
        let mut places = Vec::new(alloc);
        for pattern in patterns {
            add_words(self, pattern.as_str(), &mut places, seen.as_mut_slice())?;
        }
        Ok(places)
    }
}

// A table of so many hosts, none of which is found.
fn none_found(alloc: Global, hosts: usize) -> Result<Vec<usize>, AllocError>
    ensures { IfOk result (λ seen. seen.items ≡ replicate hosts 1) }
{
    vec![in alloc; NOT_FOUND; hosts]
}

// Adds the hosts of the words of a text.
fn add_words(
    inventory: &Inventory,
    text: &str,
    places: &mut Vec<usize>,
    seen: &mut [usize],
) -> Result<(), PatternFault>
    requires count { length seen.old ≡ length (inventory_view inventory.now).hosts }
    requires marks { IsMarked places.old.items seen.old 0 }
    ensures given { Gives (λ _. Some
        (names_at (map (λ h. h.name) (inventory_view inventory.now).hosts) places.new.items))
        no_hosts result (hosts_found (inventory_view inventory.now)
        (names_at (map (λ h. h.name) (inventory_view inventory.now).hosts) places.old.items)
        (words_from [] text.now)) }
    ensures marks { OnOk result (IsMarked places.new.items seen.new 0) }
{
    let mut from = 0;
    while from <= text.len() {
        let to = divider_from(text.as_bytes(), from);
        add_word(inventory, word_in(&text[from..to]), places, seen)?;
        from = to + 1;
    }
    Ok(())
}

// Adds the hosts of the group of that name, or else the host.
fn add_word(
    inventory: &Inventory,
    word: &str,
    places: &mut Vec<usize>,
    seen: &mut [usize],
) -> Result<(), PatternFault>
    requires count { length seen.old ≡ length (inventory_view inventory.now).hosts }
    requires marks { IsMarked places.old.items seen.old 0 }
    ensures given { Gives (λ _. Some
        (names_at (map (λ h. h.name) (inventory_view inventory.now).hosts) places.new.items))
        no_hosts result (hosts_found (inventory_view inventory.now)
        (names_at (map (λ h. h.name) (inventory_view inventory.now).hosts) places.old.items)
        (word.now ∷ [])) }
    ensures marks { OnOk result (IsMarked places.new.items seen.new 0) }
{
    if let Some(members) = inventory.members_of(word) {
        add_hosts(places, members, seen, FOUND)?;
        return Ok(());
    }
    let Some(host) = inventory.place_of(word) else {
        return Err(PatternFault::Unknown);
    };
    add_host(places, host, seen, FOUND)?;
    Ok(())
}

// The place of the first divider from there on, or the text's end.
fn divider_from(text: &[u8], from: usize) -> usize
    requires { from ≤ length text.now }
    ensures begins { from ≤ result }
    ensures ends { result ≤ length text.now }
    ensures divides { result < length text.now → slice_index text.now result < 128 }
    ensures words { words_left from text.now
        ≡ word_met (turned [] (slice_range text.now from result))
        ∷ words_left (result + 1) text.now }
{
    for place in from..text.len() {
        if is_divider(text[place]) {
            return place;
        }
    }
    text.len()
}

fn is_divider(byte: u8) -> bool
    ensures { result ≡ (byte == 58) || (byte == 44) }
{
    byte == b':' || byte == b','
}

/// The text without the blanks at both its ends: spaces, tabs and ends of lines.
pub fn word_in(text: &str) -> &str
    ensures { result.now ≡ word_met (turned [] text.now) }
{
    without_first_blanks(without_last_blanks(text))
}

fn without_first_blanks(text: &str) -> &str
    ensures { result.now ≡ without_blanks text.now }
{
    let bytes = text.as_bytes();
    for place in 0..bytes.len() {
        if !is_blank(bytes[place]) {
            return &text[place..];
        }
    }
    ""
}

fn without_last_blanks(text: &str) -> &str
    ensures { turned [] result.now ≡ without_blanks (turned [] text.now) }
{
    let bytes = text.as_bytes();
    let mut end = bytes.len();
    while end > 0 {
        if !is_blank(bytes[end - 1]) {
            return &text[..end];
        }
        end -= 1;
    }
    ""
}

fn is_blank(byte: u8) -> bool
    ensures { result ≡ is_blank_byte byte }
{
    matches!(byte, b' ' | b'\t' | b'\n' | b'\r')
}
