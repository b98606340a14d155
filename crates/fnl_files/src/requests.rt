//! What is asked for.

ghost use Rattle.std.specs.Prelude.{◌≡◌, ◌∷◌, [], ◌++◌, IfOk, OnOk, map};
ghost use Rattle.cal_imports.specs.Whole.{import_edges};
ghost use Rattle.cal_files.specs.SoFar.{imports_tree};
ghost use Rattle.fnl_frames.specs.Views.{instance_of};
ghost use Rattle.fnl_files.specs.Requests.{import_request, instance_request, top_request};
ghost use Rattle.fnl_files.specs.SoFar.{request_of, waiting_of};
ghost use Rattle.fnl_files.specs.Views.{asked_of};

use crate::kind::FileKind;
use cal_ast::Import;
use cal_files::dotted;
use fnl_read::NetInstance;
use rvc_base::{Memory, Place, Refusal, Rule};
use std::alloc::Global;
use std::collections::VecDeque;

/// A class and a kind of file that are asked for, and what is refused if there is no file.
#[derive(Drop)]
pub(crate) struct Request {
    pub class: String,
    pub kind: FileKind,
    pub missing: Refusal,
}

/// What is refused if there is no file, at a place of a file.
fn missing(rule: Rule, file: u32, offset: u32) -> Refusal
    ensures { result ≡ record { rule = rule; place = record { file = file; offset = offset } } }
{
    Refusal {
        rule,
        place: Place { file, offset },
    }
}

/// The request for the top.
fn top_request(alloc: Global, class: &str, kind: FileKind) -> Result<Request, Memory>
    ensures { IfOk result (λ q. request_of q ≡ top_request (asked_of class.now kind)) }
{
    let class = String::from_str(alloc, class)?;
    Ok(Request {
        class,
        kind,
        missing: missing(Rule::NO_FILE, 0, 0),
    })
}

/// The request of an instance in the file of a number.
fn instance_request(alloc: Global, file: u32, instance: &NetInstance) -> Result<Request, Memory>
    ensures { IfOk result (λ q. request_of q ≡ instance_request file (instance_of instance.now)) }
{
    let class = String::from_str(alloc, instance.class.as_str())?;
    Ok(Request {
        class,
        kind: FileKind::Either,
        missing: missing(Rule::NO_FILE, file, instance.class_at),
    })
}

/// The request of an import in the file of a number.
fn import_request(alloc: Global, file: u32, import: &Import) -> Result<Request, Memory>
    ensures { IfOk result (λ q. request_of q ∷ []
        ≡ map (import_request file) (import_edges (imports_tree (import.now ∷ [])))) }
{
    let class = dotted(alloc, &import.path)?;
    Ok(Request {
        class,
        kind: FileKind::Actor,
        missing: missing(Rule::IMPORT_NOT_FOUND, file, import.at),
    })
}

/// The requests of which the first is that for the top.
pub(crate) fn first_requests(
    alloc: Global,
    class: &str,
    kind: FileKind,
) -> Result<VecDeque<Request>, Memory>
    ensures { IfOk result (λ waiting. waiting_of waiting
        ≡ top_request (asked_of class.now kind) ∷ []) }
{
    let mut waiting = VecDeque::new(alloc);
    waiting.push_back(top_request(alloc, class, kind)?)?;
    Ok(waiting)
}

/// Adds the requests of the instances of the file of a number.
pub(crate) fn push_instances(
    alloc: Global,
    waiting: &mut VecDeque<Request>,
    file: u32,
    instances: &[NetInstance],
) -> Result<(), Memory>
    ensures { OnOk result (waiting_of waiting.new
        ≡ waiting_of waiting.old ++ map (instance_request file) (map instance_of instances.now)) }
{
    let mut rest = instances;
    'instances: while let Some((first, others)) = rest.split_first() {
        waiting.push_back(instance_request(alloc, file, first)?)?;
        rest = others;
    }
    Ok(())
}

/// Adds the requests of the imports of the file of a number.
pub(crate) fn push_imports(
    alloc: Global,
    waiting: &mut VecDeque<Request>,
    file: u32,
    imports: &[Import],
) -> Result<(), Memory>
    ensures { OnOk result (waiting_of waiting.new ≡ waiting_of waiting.old
        ++ map (import_request file) (import_edges (imports_tree imports.now))) }
{
    let mut rest = imports;
    'imports: while let Some((first, others)) = rest.split_first() {
        waiting.push_back(import_request(alloc, file, first)?)?;
        rest = others;
    }
    Ok(())
}
