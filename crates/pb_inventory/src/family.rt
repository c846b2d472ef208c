// The members of groups with those of their children, and how deep groups lie.
ghost use Rattle.std.specs.Prelude.{[], ◌++◌, ◌<◌, ◌∷◌, ◌≡◌, ◌≤◌, IfOk, OnOk, false, get_or};
ghost use Rattle.std.specs.Prelude.{if◌then◌else◌, length, max, replicate, slice_set, ℕ};
ghost use Rattle.std.specs.List.{All, flat_map};
ghost use Rattle.pb_inventory.specs.Families.{AreBelow, AreDepths, IsMarked, add_numbers, lists_of};
ghost use Rattle.pb_inventory.specs.Families.{once};
ghost use Rattle.pb_inventory.specs.Graph.{IsGraph, IsOrder, children_at, is_in, parents_count};
ghost use Rattle.pb_inventory.specs.Held.{held};

use std::alloc::{AllocError, Global};

// The members of each group: its own hosts, then those of its children in their order, each once,
// where it first comes.
pub(crate) fn members_of(
    alloc: Global,
    own: &[Vec<usize>],
    children: &[Vec<usize>],
    order: &[usize],
    hosts: usize,
) -> Result<Vec<Vec<usize>>, AllocError>
    requires graph { IsGraph (lists_of children.now) }
    requires order { IsOrder (lists_of children.now) order.now }
    requires count { length (lists_of own.now) ≡ length (lists_of children.now) }
    requires known { AreBelow hosts own.now }
    ensures count { IfOk result (λ m. length m.items ≡ length (lists_of children.now)) }
    ensures members { IfOk result (λ m. let cs = lists_of children.now in
        (i : ℕ) → i < length cs → get_or (lists_of m.items) i []
        ≡ once (held (parents_count cs) (λ n. get_or (lists_of own.now) n []) cs i)) }
    ensures known { IfOk result (λ m. AreBelow hosts m.items) }
{
    let mut members = empty_lists(alloc, children.len())?;
    let mut seen = vec![in alloc; order.len(); hosts]?;
    for place in (0..order.len()).rev() {
        let group = order[place];
        let family = family_of(
            alloc,
            own[group].as_slice(),
            children[group].as_slice(),
            members.as_slice(),
            seen.as_mut_slice(),
            place,
        )?;
        members[group] = family;
    }
    Ok(members)
}

// So many lists, none of which has a number yet.
pub(crate) fn empty_lists(alloc: Global, count: usize) -> Result<Vec<Vec<usize>>, AllocError>
    ensures { IfOk result (λ lists. lists_of lists.items ≡ replicate count []) }
{
    let mut lists = Vec::with_capacity(alloc, count)?;
    for _ in 0..count {
        lists.push(Vec::new(alloc))?;
    }
    Ok(lists)
}

// The members of a group, where those of its children are known. The stamp is below each in the
// table of the hosts.
fn family_of(
    alloc: Global,
    own: &[usize],
    children: &[usize],
    members: &[Vec<usize>],
    seen: &mut [usize],
    stamp: usize,
) -> Result<Vec<usize>, AllocError>
    requires own { All (λ h. h < length seen.old) own.now }
    requires children { All (λ c. c < length members.now) children.now }
    requires members { AreBelow (length seen.old) members.now }
    requires stamp { All (λ s. stamp < s) seen.old }
    ensures members { IfOk result (λ v. v.items
        ≡ once (own.now ++ flat_map (children_at (lists_of members.now)) children.now)) }
    ensures known { IfOk result (λ v. All (λ h. h < length seen.new) v.items) }
    ensures stamps { OnOk result (All (λ s. stamp ≤ s) seen.new) }
{
    let mut family = Vec::new(alloc);
    add_hosts(&mut family, own, seen, stamp)?;
    for child in children {
        add_hosts(&mut family, members[*child].as_slice(), seen, stamp)?;
    }
    Ok(family)
}

// Adds the hosts that are not yet there.
pub(crate) fn add_hosts(
    family: &mut Vec<usize>,
    hosts: &[usize],
    seen: &mut [usize],
    stamp: usize,
) -> Result<(), AllocError>
    requires known { All (λ h. h < length seen.old) hosts.now }
    requires marks { IsMarked family.old.items seen.old stamp }
    ensures members { OnOk result (family.new.items ≡ add_numbers family.old.items hosts.now) }
    ensures marks { OnOk result (IsMarked family.new.items seen.new stamp) }
{
    if family.len() == seen.len() {
        return Ok(());
    }
    for host in hosts {
        add_host(family, *host, seen, stamp)?;
    }
    Ok(())
}

// Adds the host if it is not yet there.
pub(crate) fn add_host(
    family: &mut Vec<usize>,
    host: usize,
    seen: &mut [usize],
    stamp: usize,
) -> Result<(), AllocError>
    requires known { host < length seen.old }
    requires marks { IsMarked family.old.items seen.old stamp }
    ensures members { OnOk result (family.new.items ≡ add_numbers family.old.items (host ∷ [])) }
    ensures marks { OnOk result (IsMarked family.new.items seen.new stamp) }
{
    if seen[host] != stamp {
        family.push(host)?;
        seen[host] = stamp;
    }
    Ok(())
}

// How deep each group lies: 0 of the root, else one more than its deepest parent but the root,
// and 1 where there is none.
pub(crate) fn depths_of(
    alloc: Global,
    children: &[Vec<usize>],
    order: &[usize],
    root: usize,
) -> Result<Vec<usize>, AllocError>
    requires graph { IsGraph (lists_of children.now) }
    requires order { IsOrder (lists_of children.now) order.now }
    requires root { (i : ℕ) → is_in root (children_at (lists_of children.now) i) ≡ false }
    ensures { IfOk result (λ d. AreDepths root (lists_of children.now) d.items) }
{
    let mut depths = first_depths(alloc, children.len(), root)?;
    for group in order {
        if *group != root {
            let depth = depths[*group] + 1;
            deepen(depths.as_mut_slice(), children[*group].as_slice(), depth);
        }
    }
    Ok(depths)
}

// The depths of so many groups before any child is known.
fn first_depths(alloc: Global, groups: usize, root: usize) -> Result<Vec<usize>, AllocError>
    ensures { IfOk result (λ d. d.items ≡ slice_set (replicate groups 1) root 0) }
{
    let mut depths = vec![in alloc; 1; groups]?;
    if root < groups {
        depths[root] = 0;
    }
    Ok(depths)
}

// Makes each of these groups at least so deep.
fn deepen(depths: &mut [usize], groups: &[usize], depth: usize)
    requires { All (λ g. g < length depths.old) groups.now }
    ensures { (g : ℕ) → get_or depths.new g 0
        ≡ (if is_in g groups.now then max (get_or depths.old g 0) depth
        else get_or depths.old g 0) }
{
    for group in groups {
        depths[*group] = depths[*group].max(depth);
    }
}
