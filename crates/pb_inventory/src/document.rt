// What a JSON value writes down as an inventory: groups, and the variables of hosts.
ghost use Rattle.std.specs.Prelude.{◌≡◌, IfOk, Ok, Some, codes, map, option_map, string_bytes};
ghost use Rattle.std.specs.Prelude.{true};
ghost use Rattle.std.specs.Str.{bytes_eq};
ghost use Rattle.pb_semantics.specs.Words.{Gives, field_value, list, rec};
ghost use Rattle.pb_language.specs.Written.{document_in as document_meant};
ghost use Rattle.pb_language.specs.Written.{fields_of as fields_meant, group_in as group_meant};
ghost use Rattle.pb_language.specs.Written.{groups_in as groups_meant};
ghost use Rattle.pb_language.specs.Written.{hostvars_in as hostvars_meant};
ghost use Rattle.pb_language.specs.Written.{is_group_form, is_there, named_group};
ghost use Rattle.pb_language.specs.TaskForm.{text_in};
ghost use Rattle.pb_language.specs.Written.{names_in as names_meant, names_of as names_given};
ghost use Rattle.pb_value.specs.Words.{fields_view, items_view, view};
ghost use Rattle.pb_inventory.specs.Documents.{document_view, formed, has_group_key, names_view};
ghost use Rattle.pb_inventory.specs.Documents.{variables_view, written_view};
ghost use Rattle.pb_inventory.specs.Numbered.{are_apart, written_names};
ghost use Rattle.pb_inventory.specs.Offences.{offence_of};

use crate::fault::InventoryFault;
use crate::names::is_group;
use pb_value::{Fields, Value, Weighed, field_of};
use std::alloc::Global;
use std::sync::Arc;

// The key of what is said of hosts, which is no group.
const META: &str = "_meta";

// A group as it is written: its own hosts, its variables, and the names of its children.
#[derive(Drop)]
pub(crate) struct Written {
    pub(crate) name: Arc<String>,
    pub(crate) hosts: Vec<Arc<String>>,
    pub(crate) variables: Option<Arc<Weighed<Fields>>>,
    pub(crate) children: Vec<Arc<String>>,
}

// Groups in the order of their names' bytes, and the variables of hosts by their names.
#[derive(Drop)]
pub(crate) struct Document {
    pub(crate) groups: Vec<Written>,
    pub(crate) hostvars: Option<Arc<Weighed<Fields>>>,
}

// What the value writes down.
pub(crate) fn document_in(alloc: Global, value: &Value) -> Result<Document, InventoryFault>
    ensures given { Gives (λ d. Ok (document_view d)) offence_of result
        (formed (document_meant (view value.now))) }
    ensures apart { IfOk result
        (λ d. are_apart (written_names (document_view d).groups) ≡ true) }
{
    match value {
        Value::Rec(fields) => document_of(alloc, fields),
        _ => Err(InventoryFault::Form),
    }
}

fn document_of(alloc: Global, fields: &Fields) -> Result<Document, InventoryFault>
    ensures given { Gives (λ d. Ok (document_view d)) offence_of result
        (formed (document_meant (rec (fields_view fields.now.entries)))) }
    ensures apart { IfOk result
        (λ d. are_apart (written_names (document_view d).groups) ≡ true) }
{
    let groups = groups_in(alloc, fields)?;
    let hostvars = hostvars_in(field_of(fields, META))?;
    Ok(Document { groups, hostvars })
}

fn groups_in(alloc: Global, fields: &Fields) -> Result<Vec<Written>, InventoryFault>
    ensures given { Gives (λ ws. Ok (map written_view ws.items)) offence_of result
        (formed (groups_meant (fields_view fields.now.entries))) }
    ensures apart { IfOk result
        (λ ws. are_apart (written_names (map written_view ws.items)) ≡ true) }
{
    let mut groups = Vec::with_capacity(alloc, fields.len())?;
    for (name, value) in fields.iter() {
        if is_meta(name.as_str()) {
            continue;
        }
        groups.push(named_group(alloc, name.as_str(), value)?)?;
    }
    Ok(groups)
}

fn is_meta(name: &str) -> bool
    ensures { result ≡ bytes_eq name.now (codes "_meta") }
{
    name == META
}

fn named_group(alloc: Global, name: &str, value: &Value) -> Result<Written, InventoryFault>
    ensures given { Gives (λ w. Ok (written_view w)) offence_of result
        (formed (named_group name.now (view value.now))) }
    ensures name { IfOk result (λ w. string_bytes w.name.value ≡ name.now) }
{
    if !is_group(name) {
        return Err(InventoryFault::Form);
    }
    group_in(alloc, name, value)
}

fn group_in(alloc: Global, name: &str, value: &Value) -> Result<Written, InventoryFault>
    ensures given { Gives (λ w. Ok (written_view w)) offence_of result
        (formed (group_meant name.now (view value.now))) }
    ensures name { IfOk result (λ w. string_bytes w.name.value ≡ name.now) }
{
    match value {
        Value::List(items) => list_group(alloc, name, items.as_slice()),
        Value::Rec(fields) => record_group(alloc, name, fields),
        _ => Err(InventoryFault::Form),
    }
}

// A group that is a list of its hosts.
fn list_group(alloc: Global, name: &str, items: &[Value]) -> Result<Written, InventoryFault>
    ensures given { Gives (λ w. Ok (written_view w)) offence_of result
        (formed (group_meant name.now (list (items_view items.now)))) }
    ensures name { IfOk result (λ w. string_bytes w.name.value ≡ name.now) }
{
    let hosts = names_in(alloc, items)?;
    let name = Arc::new(alloc, String::from_str(alloc, name)?)?;
    Ok(Written {
        name,
        hosts,
        variables: None,
        children: Vec::new(alloc),
    })
}

fn record_group(alloc: Global, name: &str, fields: &Fields) -> Result<Written, InventoryFault>
    ensures given { Gives (λ w. Ok (written_view w)) offence_of result
        (formed (group_meant name.now (rec (fields_view fields.now.entries)))) }
    ensures name { IfOk result (λ w. string_bytes w.name.value ≡ name.now) }
{
    if !is_group_form(fields) {
        return Err(InventoryFault::Form);
    }
    let hosts = names_of(alloc, field_of(fields, "hosts"))?;
    let variables = fields_of(field_of(fields, "vars"))?;
    let children = names_of(alloc, field_of(fields, "children"))?;
    let name = Arc::new(alloc, String::from_str(alloc, name)?)?;
    Ok(Written {
        name,
        hosts,
        variables,
        children,
    })
}

// Whether the record is empty, or has one of the keys of a group.
fn is_group_form(fields: &Fields) -> bool
    ensures { result ≡ is_group_form (fields_view fields.now.entries) }
{
    if fields.is_empty() {
        return true;
    }
    has_group_key(fields)
}

fn has_group_key(fields: &Fields) -> bool
    ensures { result ≡ has_group_key (fields_view fields.now.entries) }
{
    has_field(fields, "hosts") || has_field(fields, "vars") || has_field(fields, "children")
}

fn has_field(fields: &Fields, name: &str) -> bool
    ensures { result ≡ is_there (field_value name.now (fields_view fields.now.entries)) }
{
    field_of(fields, name).is_some()
}

fn names_of(alloc: Global, value: Option<&Value>) -> Result<Vec<Arc<String>>, InventoryFault>
    ensures { Gives (λ ns. Ok (names_view ns.items)) offence_of result
        (formed (names_given (option_map (λ v. view v.now) value.entry))) }
{
    match value {
        None => Ok(Vec::new(alloc)),
        Some(Value::List(items)) => names_in(alloc, items.as_slice()),
        Some(_) => Err(InventoryFault::Form),
    }
}

fn names_in(alloc: Global, items: &[Value]) -> Result<Vec<Arc<String>>, InventoryFault>
    ensures { Gives (λ ns. Ok (names_view ns.items)) offence_of result
        (formed (names_meant (items_view items.now))) }
{
    let mut names = Vec::with_capacity(alloc, items.len())?;
    for item in items {
        names.push(name_of(item)?)?;
    }
    Ok(names)
}

fn name_of(value: &Value) -> Result<Arc<String>, InventoryFault>
    ensures { Gives (λ n. Ok (string_bytes n.value)) offence_of result
        (formed (text_in (Some (view value.now)))) }
{
    match value {
        Value::Text(name) => Ok(name.clone()?),
        _ => Err(InventoryFault::Form),
    }
}

fn hostvars_in(meta: Option<&Value>) -> Result<Option<Arc<Weighed<Fields>>>, InventoryFault>
    ensures { Gives (λ vs. Ok (variables_view vs)) offence_of result
        (formed (hostvars_meant (option_map (λ v. view v.now) meta.entry))) }
{
    match meta {
        None => Ok(None),
        Some(meta) => hostvars_of(meta),
    }
}

fn hostvars_of(meta: &Value) -> Result<Option<Arc<Weighed<Fields>>>, InventoryFault>
    ensures { Gives (λ vs. Ok (variables_view vs)) offence_of result
        (formed (hostvars_meant (Some (view meta.now)))) }
{
    match meta {
        Value::Rec(fields) => fields_of(field_of(fields, "hostvars")),
        _ => Err(InventoryFault::Form),
    }
}

fn fields_of(value: Option<&Value>) -> Result<Option<Arc<Weighed<Fields>>>, InventoryFault>
    ensures { Gives (λ vs. Ok (variables_view vs)) offence_of result
        (formed (fields_meant (option_map (λ v. view v.now) value.entry))) }
{
    match value {
        None => Ok(None),
        Some(value) => Ok(Some(fields_in(value)?)),
    }
}

fn fields_in(value: &Value) -> Result<Arc<Weighed<Fields>>, InventoryFault>
    ensures { Gives (λ fs. Ok (fields_view fs.value.parts.entries)) offence_of result
        (formed (fields_meant (Some (view value.now)))) }
{
    match value {
        Value::Rec(fields) => Ok(fields.clone()?),
        _ => Err(InventoryFault::Form),
    }
}
