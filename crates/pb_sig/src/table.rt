// The parameters and the shapes of the built-in modules, as rows.
ghost use Rattle.std.specs.Prelude.{◌≡◌, IfOk, map};
ghost use Rattle.pb_semantics.specs.Words.{recs};
ghost use Rattle.pb_kind.specs.Words.{kind_view};
ghost use Rattle.pb_sig.specs.Table.{command, copy, file, file_facts, host_facts, ping, service};
ghost use Rattle.pb_sig.specs.Table.{setup, slots, stat};
ghost use Rattle.pb_sig.specs.Views.{parameter_view};

use crate::rows::{lines, may, must, parameters_of, shape_of};
use crate::signature::Parameter;
use pb_kind::Kind;
use std::alloc::{AllocError, Global};

// The most parts of the facts that one call of `setup` asks for.
const MOST_SUBSETS: usize = 64;

// A failed answer that tells `msg` alone.
pub(crate) fn msg_shape(alloc: Global) -> Result<Kind, AllocError>
    ensures { IfOk result (λ k. kind_view k ≡ ping.failure) }
{
    let rows = [must("changed", Kind::Bool), must("msg", Kind::Text)];
    shape_of(alloc, &rows)
}

pub(crate) fn ping_parameters(alloc: Global) -> Result<Vec<Parameter>, AllocError>
    ensures { IfOk result (λ ps. map parameter_view ps.items ≡ ping.params) }
{
    parameters_of(alloc, &[may("data", Kind::Text)])
}

pub(crate) fn ping_shape(alloc: Global) -> Result<Kind, AllocError>
    ensures { IfOk result (λ k. kind_view k ≡ ping.ok) }
{
    let rows = [must("changed", Kind::Bool), must("ping", Kind::Text)];
    shape_of(alloc, &rows)
}

pub(crate) fn program_parameters(alloc: Global) -> Result<Vec<Parameter>, AllocError>
    ensures { IfOk result (λ ps. map parameter_view ps.items ≡ command.params) }
{
    let rows = [
        must("cmd", Kind::Text),
        may("chdir", Kind::Text),
        may("creates", Kind::Text),
        may("removes", Kind::Text),
    ];
    parameters_of(alloc, &rows)
}

pub(crate) fn program_shape(alloc: Global) -> Result<Kind, AllocError>
    ensures { IfOk result (λ k. kind_view k ≡ command.ok) }
{
    let stdout_lines = lines(alloc)?;
    let stderr_lines = lines(alloc)?;
    let rows = [
        must("changed", Kind::Bool),
        must("rc", Kind::Int),
        must("stdout", Kind::Text),
        must("stderr", Kind::Text),
        must("stdout_lines", stdout_lines),
        must("stderr_lines", stderr_lines),
    ];
    shape_of(alloc, &rows)
}

pub(crate) fn program_failure_shape(alloc: Global) -> Result<Kind, AllocError>
    ensures { IfOk result (λ k. kind_view k ≡ command.failure) }
{
    let stdout_lines = lines(alloc)?;
    let stderr_lines = lines(alloc)?;
    let rows = [
        must("changed", Kind::Bool),
        must("msg", Kind::Text),
        must("rc", Kind::Int),
        must("stdout", Kind::Text),
        must("stderr", Kind::Text),
        must("stdout_lines", stdout_lines),
        must("stderr_lines", stderr_lines),
    ];
    shape_of(alloc, &rows)
}

pub(crate) fn stat_parameters(alloc: Global) -> Result<Vec<Parameter>, AllocError>
    ensures { IfOk result (λ ps. map parameter_view ps.items ≡ stat.params) }
{
    parameters_of(alloc, &[must("path", Kind::Text)])
}

pub(crate) fn stat_shape(alloc: Global) -> Result<Kind, AllocError>
    ensures { IfOk result (λ k. kind_view k ≡ stat.ok) }
{
    let found = file_facts_shape(alloc)?;
    let rows = [must("changed", Kind::Bool), must("stat", found)];
    shape_of(alloc, &rows)
}

fn file_facts_shape(alloc: Global) -> Result<Kind, AllocError>
    ensures { IfOk result (λ k. kind_view k ≡ recs (slots file_facts)) }
{
    let rows = [
        must("exists", Kind::Bool),
        may("isdir", Kind::Bool),
        may("isreg", Kind::Bool),
        may("size", Kind::Int),
        may("mode", Kind::Text),
    ];
    shape_of(alloc, &rows)
}

pub(crate) fn copy_parameters(alloc: Global) -> Result<Vec<Parameter>, AllocError>
    ensures { IfOk result (λ ps. map parameter_view ps.items ≡ copy.params) }
{
    let rows = [
        must("dest", Kind::Text),
        may("src", Kind::Text),
        may("content", Kind::Text),
        may("mode", Kind::Text),
    ];
    parameters_of(alloc, &rows)
}

pub(crate) fn copy_shape(alloc: Global) -> Result<Kind, AllocError>
    ensures { IfOk result (λ k. kind_view k ≡ copy.ok) }
{
    let rows = [must("changed", Kind::Bool), must("dest", Kind::Text)];
    shape_of(alloc, &rows)
}

pub(crate) fn file_parameters(alloc: Global) -> Result<Vec<Parameter>, AllocError>
    ensures { IfOk result (λ ps. map parameter_view ps.items ≡ file.params) }
{
    let rows = [
        must("path", Kind::Text),
        may("state", Kind::Text),
        may("mode", Kind::Text),
        may("owner", Kind::Text),
        may("group", Kind::Text),
    ];
    parameters_of(alloc, &rows)
}

pub(crate) fn file_shape(alloc: Global) -> Result<Kind, AllocError>
    ensures { IfOk result (λ k. kind_view k ≡ file.ok) }
{
    let rows = [
        must("changed", Kind::Bool),
        may("path", Kind::Text),
        may("state", Kind::Text),
    ];
    shape_of(alloc, &rows)
}

pub(crate) fn service_parameters(alloc: Global) -> Result<Vec<Parameter>, AllocError>
    ensures { IfOk result (λ ps. map parameter_view ps.items ≡ service.params) }
{
    let rows = [
        must("name", Kind::Text),
        may("state", Kind::Text),
        may("enabled", Kind::Bool),
    ];
    parameters_of(alloc, &rows)
}

pub(crate) fn service_shape(alloc: Global) -> Result<Kind, AllocError>
    ensures { IfOk result (λ k. kind_view k ≡ service.ok) }
{
    let rows = [
        must("changed", Kind::Bool),
        must("name", Kind::Text),
        may("state", Kind::Text),
        may("enabled", Kind::Bool),
    ];
    shape_of(alloc, &rows)
}

pub(crate) fn setup_parameters(alloc: Global) -> Result<Vec<Parameter>, AllocError>
    ensures { IfOk result (λ ps. map parameter_view ps.items ≡ setup.params) }
{
    let subsets = Kind::of_item(alloc, Kind::Text, MOST_SUBSETS)?;
    parameters_of(alloc, &[may("gather_subset", subsets)])
}

pub(crate) fn setup_shape(alloc: Global) -> Result<Kind, AllocError>
    ensures { IfOk result (λ k. kind_view k ≡ setup.ok) }
{
    let facts = host_facts_shape(alloc)?;
    let rows = [must("changed", Kind::Bool), must("ansible_facts", facts)];
    shape_of(alloc, &rows)
}

fn host_facts_shape(alloc: Global) -> Result<Kind, AllocError>
    ensures { IfOk result (λ k. kind_view k ≡ recs (slots host_facts)) }
{
    let rows = [
        must("ansible_hostname", Kind::Text),
        must("ansible_system", Kind::Text),
        may("ansible_os_family", Kind::Text),
        may("ansible_distribution", Kind::Text),
        may("ansible_processor_vcpus", Kind::Int),
        may("ansible_memtotal_mb", Kind::Int),
    ];
    shape_of(alloc, &rows)
}
