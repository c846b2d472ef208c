// What is known of variables before any test, and the names of `vars`.
ghost use Rattle.std.specs.Prelude.{◌≡◌, ◌≤◌, IfSome, option_map, ℕ};
ghost use Rattle.pb_semantics.specs.Words.{slot_at};
ghost use Rattle.pb_language.specs.Expansion.{expanded};
ghost use Rattle.pb_language.specs.Scope.{has_view, is_later, later_of, view_of};
ghost use Rattle.pb_language.specs.World.{member_of};
ghost use Rattle.pb_kind.specs.Words.{slots_view, spot_view};
ghost use Rattle.pb_syntax.specs.ExprView.{expr_view};
ghost use Rattle.pb_syntax.specs.declared.expr.Expr.{size-Expr};
ghost use Rattle.pb_syntax.specs.Aliases.{no_trees};
ghost use Rattle.pb_taught.specs.Before.{Before};
ghost use Rattle.pb_taught.specs.OwnScope.{own_scope};

use pb_kind::below::find;
use pb_kind::{Kind, Slot, Slots};
use pb_syntax::Expr;

/// What is known of variables before any test, and the trees of the names that are values of
/// `vars`. Such a name hides a variable of that name.
pub trait Known {
    /// What is known, of which no test has taught anything, and the whole tree of each name of
    /// `vars`.
    ghost before: { Self → Before };

    /// No tree of a name of `vars` is deeper than that.
    ghost depth: { Self → ℕ };

    /// The tree of a name of `vars`, which may read other such names; none where it is no such
    /// name.
    fn tree(&self, name: &str) -> Option<&Expr>
        ensures whole { (before self.now).trees name.now
            ≡ option_map (λ e. expanded (before self.now).trees (expr_view e.now)) result }
        ensures depth { IfSome result (λ e. size-Expr e.now ≤ depth self.now) };

    /// What is known of a variable of the host's own.
    fn own(&self, name: &str) -> Option<&Slot<Kind>>
        ensures { spot_view result ≡ slot_at name.now (before self.now).scope.own };

    /// The host's name.
    fn this(&self) -> &str
        ensures { result.now ≡ (before self.now).scope.this };

    /// Whether there is a host of that name.
    fn has_host(&self, host: &str) -> bool
        ensures { result ≡ has_view host.now (before self.now).scope.table };

    /// What is known of a variable of the host of that name.
    fn other(&self, host: &str, name: &str) -> Option<&Slot<Kind>>
        ensures { spot_view result
            ≡ slot_at name.now (view_of host.now (before self.now).scope.table) };

    /// Whether the host of that name, where it is active, has the variable from this place on.
    fn lasts(&self, host: &str, name: &str) -> bool
        ensures { result ≡ is_later (later_of host.now (before self.now).scope.laters)
            (before self.now).scope.place name.now };

    /// The name of the host at that place of the group.
    fn member(&self, group: &str, place: usize) -> Option<&str>
        ensures { option_map (λ s. s.now) result
            ≡ member_of group.now place (before self.now).scope.groups };
}

// The variables of a host alone, without `vars`.
impl Known for Slots {
    ghost before = { λ m.
        record { scope = own_scope (slots_view m.entries); trees = no_trees } };

    ghost depth = { λ _. 0 };

    fn tree(&self, _: &str) -> Option<&Expr> {
        None
    }

    fn own(&self, name: &str) -> Option<&Slot<Kind>> {
        find(self, name)
    }

    fn this(&self) -> &str {
        ""
    }

    fn has_host(&self, _: &str) -> bool {
        false
    }

    fn other(&self, _: &str, _: &str) -> Option<&Slot<Kind>> {
        None
    }

    fn lasts(&self, _: &str, _: &str) -> bool {
        false
    }

    fn member(&self, _: &str, _: usize) -> Option<&str> {
        None
    }
}
