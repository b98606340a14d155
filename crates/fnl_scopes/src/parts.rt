//! Names that the parts of a network use.
#![tactic(auto, using(crate::proofs::Steps::in_first, crate::proofs::Steps::in_others))]

ghost use Rattle.std.specs.Prelude.{◌≡◌, map};
ghost use Rattle.cal_ast.specs.View.{optional_expr};
ghost use Rattle.fnl_bind.specs.Library.{decl_names};
ghost use Rattle.fnl_bind.specs.Scopes.{unknown_in, unknown_in_connections, unknown_in_decls, unknown_in_instances, unknown_in_parameters, unknown_in_ports, unknown_in_sizes, unknown_names};
ghost use Rattle.fnl_frames.specs.Views.{connection_of, decl_of, instance_of, net_of, parameter_of, port_of, size_of};
ghost use Rattle.fnl_scopes.specs.Tested.{Tests};

use crate::fault::ScopeFault;
use crate::known::{known_expr, known_type};
use crate::name_set::NameSet;
use cal_ast::Expr;
use fnl_read::{NetConnection, NetDecl, NetFile, NetInstance, NetParameter, NetPort, NetSize};

/// That a network uses declared names alone.
pub(crate) fn known_names(net: &NetFile, names: &NameSet) -> Result<(), ScopeFault>
    requires { names.now ≡ decl_names (net_of net.now).decls }
    ensures { Tests result (unknown_names (net_of net.now)) }
{
    known_decls(&net.decls, names)?;
    known_ports(&net.ports, names)?;
    known_instances(&net.instances, names)?;
    known_connections(&net.connections, names)
}

/// The types of ports.
fn known_ports(ports: &[NetPort], names: &NameSet) -> Result<(), ScopeFault>
    ensures { Tests result (unknown_in_ports (map port_of ports.now) names.now) }
{
    let mut rest = ports;
    'ports: while let Some((first, others)) = rest.split_first() {
        known_type(&first.shape, names)?;
        rest = others;
    }
    Ok(())
}

/// The types and the values of declarations.
fn known_decls(decls: &[NetDecl], names: &NameSet) -> Result<(), ScopeFault>
    ensures { Tests result (unknown_in_decls (map decl_of decls.now) names.now) }
{
    let mut rest = decls;
    'decls: while let Some((first, others)) = rest.split_first() {
        known_type(&first.shape, names)?;
        known_value(&first.value, names)?;
        rest = others;
    }
    Ok(())
}

/// A value that may be missing.
fn known_value(value: &Option<Expr>, names: &NameSet) -> Result<(), ScopeFault>
    ensures { Tests result (unknown_in (optional_expr value.now) names.now) }
{
    match value {
        Some(e) => known_expr(e, names),
        None => Ok(()),
    }
}

/// The values of the parameters of instances.
fn known_instances(instances: &[NetInstance], names: &NameSet) -> Result<(), ScopeFault>
    ensures { Tests result (unknown_in_instances (map instance_of instances.now) names.now) }
{
    let mut rest = instances;
    'instances: while let Some((first, others)) = rest.split_first() {
        known_parameters(&first.parameters, names)?;
        rest = others;
    }
    Ok(())
}

/// The values of parameters.
fn known_parameters(parameters: &[NetParameter], names: &NameSet) -> Result<(), ScopeFault>
    ensures { Tests result (unknown_in_parameters (map parameter_of parameters.now) names.now) }
{
    let mut rest = parameters;
    'parameters: while let Some((first, others)) = rest.split_first() {
        known_expr(&first.value, names)?;
        rest = others;
    }
    Ok(())
}

/// The sizes of connections.
fn known_connections(connections: &[NetConnection], names: &NameSet) -> Result<(), ScopeFault>
    ensures { Tests result (unknown_in_connections (map connection_of connections.now) names.now) }
{
    let mut rest = connections;
    'connections: while let Some((first, others)) = rest.split_first() {
        known_sizes(&first.sizes, names)?;
        rest = others;
    }
    Ok(())
}

/// Sizes that are asked for.
fn known_sizes(sizes: &[NetSize], names: &NameSet) -> Result<(), ScopeFault>
    ensures { Tests result (unknown_in_sizes (map size_of sizes.now) names.now) }
{
    let mut rest = sizes;
    'sizes: while let Some((first, others)) = rest.split_first() {
        known_expr(&first.value, names)?;
        rest = others;
    }
    Ok(())
}
