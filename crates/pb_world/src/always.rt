// The names that are always there.
ghost use Rattle.std.specs.Prelude.{◌≡◌, option_map};
ghost use Rattle.pb_semantics.specs.Words.{Fields as FieldsData, field_value};
ghost use Rattle.pb_value.specs.Words.{view};
ghost use Rattle.pb_world.specs.Always.{always_over, or_else};

use pb_value::Value;

/// The values of the names that are always there (Ansible's page on special variables), each made
/// once: for a run, a host, a change of the active hosts or a failure.
#[derive(Drop)]
pub struct AlwaysThere<'r> {
    /// `inventory_hostname`
    pub host_name: &'r Value,
    /// `groups`
    pub groups: &'r Value,
    /// `group_names`
    pub group_names: &'r Value,
    /// `ansible_play_batch`
    pub play_batch: &'r Value,
    /// `ansible_failed_result`, inside a `rescue` part.
    pub failure: Option<&'r Value>,
}

impl AlwaysThere<'_> {
    /// The value of the name, where it is one of them.
    pub fn value(&self, name: &str) -> Option<&Value>
        ensures { (fs : FieldsData) → or_else (option_map (λ v. view v.now) result)
            (field_value name.now fs) ≡ field_value name.now (always_over self.now fs) }
    {
        match name {
            "inventory_hostname" => Some(self.host_name),
            "groups" => Some(self.groups),
            "group_names" => Some(self.group_names),
            "ansible_play_batch" => Some(self.play_batch),
            "ansible_failed_result" => self.failure,
            _ => None,
        }
    }
}
