// What a host of a play sees beside its own variables.
ghost use Rattle.std.specs.Prelude.{◌≡◌, option_map};
ghost use Rattle.pb_semantics.specs.Words.{no_slots, slot_at, spot};
ghost use Rattle.pb_language.specs.Scope.{has_view, is_later, later_of, view_of};
ghost use Rattle.pb_language.specs.Setting.{Setting, named_slots};
ghost use Rattle.pb_language.specs.Wells.{WellViews};
ghost use Rattle.pb_language.specs.World.{member_of};
ghost use Rattle.pb_kind.specs.Words.{is_always, kind_view, spot_view};
ghost use Rattle.pb_outlook.specs.Standing.{failure_spot};

use pb_kind::{Kind, Slot};

/// What a host of a play sees beside its own variables: the names that are always there, and what
/// is known of the variables of each host.
pub trait Outlook {
    /// The host in its play.
    ghost setting: { Self → Setting };

    /// The host's name.
    fn this(&self) -> &str
        ensures { result.now ≡ (setting self.now).this };

    /// What is known of a name that is always there: `inventory_hostname`, `groups`, `group_names`
    /// and `ansible_play_batch`.
    fn always(&self, name: &str) -> Option<&Slot<Kind>>
        ensures { spot_view result
            ≡ slot_at name.now (named_slots (setting self.now) 0 no_slots) };

    /// What is known of `ansible_failed_result` in a `rescue` part: a record with the text `msg`.
    fn failure(&self) -> &Slot<Kind>
        ensures { spot (is_always result.now.presence) (kind_view result.now.kind)
            ≡ failure_spot };

    /// Whether there is a host of that name.
    fn has_host(&self, host: &str) -> bool
        ensures { result ≡ has_view host.now (setting self.now).views };

    /// What is known of a variable of the host of that name.
    fn other(&self, host: &str, name: &str) -> Option<&Slot<Kind>>
        ensures { spot_view result
            ≡ slot_at name.now (view_of host.now (setting self.now).views) };

    /// Whether the host of that name, where it is active, has the variable from this place on.
    fn lasts(&self, host: &str, place: u32, name: &str) -> bool
        ensures { result
            ≡ is_later (later_of host.now (setting self.now).laters) place name.now };

    /// The name of the host at that place of the group.
    fn member(&self, group: &str, place: usize) -> Option<&str>
        ensures { option_map (λ s. s.now) result
            ≡ member_of group.now place (setting self.now).groups };

    /// Law: what is known of each host's variables is of well-formed kinds.
    fn views_are_well()
        ensures { (o : Self) → WellViews (setting o).views };
}
