// The laws of what expressions read through names of `vars`, each on a function that does nothing.
ghost use Rattle.std.specs.Prelude.{[], ◌≡◌, Option, false, not, option_map};
ghost use Rattle.pb_language.specs.Expansion.{expanded, part_named, trees};
ghost use Rattle.pb_language.specs.Expression.{Expression, Expressions, Name, Parts};
ghost use Rattle.pb_language.specs.Program.{Inventory};
ghost use Rattle.pb_language.specs.Rules.{any_too_long, expanded_known, expanded_reads};
ghost use Rattle.pb_language.specs.Rules.{names_known, reads_others};
ghost use Rattle.pb_syntax.specs.Aliases.{IsInOrder, trees_in};
ghost use Rattle.pb_vars.specs.Order.{HaveShort, StandBehind};
ghost use Rattle.pb_vars.specs.Reads.{every_read, expanded_every_read, is_known, is_own};
ghost use Rattle.pb_vars.specs.Same.{HaveSame};

/// An expression reads others' values where some place of it isn't the host's own.
pub fn reads_are_own()
    ensures one { (e : Expression) → reads_others e ≡ not (every_read is_own e) }
    ensures all { (t : Name → Option Expression) (es : Expressions)
        → expanded_reads t es ≡ not (expanded_every_read t is_own es) }
{}

/// The hosts and groups that an expression names are known where those at each place are.
pub fn reads_are_known()
    ensures one { (v : Inventory) (e : Expression)
        → names_known v e ≡ every_read (is_known v) e }
    ensures all { (v : Inventory) (t : Name → Option Expression) (es : Expressions)
        → expanded_known v t es ≡ expanded_every_read t (is_known v) es }
{}

/// Where no chain of names is too long, the tree of a name is its value, with the trees of the
/// names that it reads.
pub fn trees_are_whole()
    ensures { (ps : Parts) → any_too_long ps ps ≡ false
        → (n : Name) → trees ps n ≡ option_map (expanded (trees ps)) (part_named n ps) }
{}

/// The same names with the same values have the same trees, and chains of the same lengths.
pub fn same_scopes()
    ensures trees { (ps qs : Parts) → HaveSame ps qs → (n : Name) → trees ps n ≡ trees qs n }
    ensures chains { (ps qs : Parts) → HaveSame ps qs
        → any_too_long ps ps ≡ any_too_long qs qs }
{}

/// Where no chain of names is too long, names that stand behind those that their values read, with
/// all short ones among them, are all names in such an order.
pub fn all_are_in_order()
    ensures { (scope ps : Parts) → any_too_long scope scope ≡ false → StandBehind scope [] ps
        → HaveShort scope ps → IsInOrder scope [] ps }
{}

/// Names in an order in which each stands behind those that its value reads, worked out one by one
/// in that order, have the trees of the definitions.
pub fn trees_in_order()
    ensures { (scope ps : Parts) → any_too_long scope scope ≡ false → IsInOrder scope [] ps
        → (n : Name) → trees_in ps n ≡ trees scope n }
{}
