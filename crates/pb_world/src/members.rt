// The members of groups.
ghost use Rattle.std.specs.Prelude.{◌<◌, ◌≡◌, All, IfSome, length, option_map};
ghost use Rattle.pb_inventory.specs.Numbered.{named};
ghost use Rattle.pb_inventory.specs.Words.{inventory_view};
ghost use Rattle.pb_language.specs.Plays.{group_named};
ghost use Rattle.pb_language.specs.World.{member_of, name_at};
ghost use Rattle.pb_world.specs.Hosts.{names_of_hosts};

use pb_inventory::Inventory;

// The name of the host at that place of the group.
pub(crate) fn member_at<'i>(inventory: &'i Inventory, group: &str, place: usize) -> Option<&'i str>
    ensures { option_map (λ s. s.now) result
        ≡ member_of group.now place (inventory_view inventory.now).groups }
{
    match members_of(inventory, group) {
        Some(members) => name_in(inventory, members, place),
        None => None,
    }
}

fn name_in<'i>(inventory: &'i Inventory, members: &[usize], place: usize) -> Option<&'i str>
    requires { All (λ p. p < length (inventory_view inventory.now).hosts) members.now }
    ensures { option_map (λ s. s.now) result ≡ name_at place
        (named (names_of_hosts (inventory_view inventory.now).hosts) members.now) }
{
    if place >= members.len() {
        return None;
    }
    let host = members[place];
    Some(inventory.host_name(host))
}

// The places of the hosts of the group of that name.
fn members_of<'i>(inventory: &'i Inventory, group: &str) -> Option<&'i [usize]>
    ensures named { option_map
        (λ ps. named (names_of_hosts (inventory_view inventory.now).hosts) ps.now) result
        ≡ group_named group.now (inventory_view inventory.now).groups }
    ensures placed { IfSome result
        (λ ps. All (λ p. p < length (inventory_view inventory.now).hosts) ps.now) }
{
    match inventory.groups().get(group) {
        Some(members) => Some(members.as_slice()),
        None => None,
    }
}
