//! Classes that are asked for.

ghost use Rattle.std.specs.Prelude.{◌≡◌, ◌∷◌, [], ◌++◌, IfOk, IfSome, MatchOption, None, OnOk, string_bytes};
ghost use Rattle.cal_ast.specs.View.{import_tree};
ghost use Rattle.cal_imports.specs.Sources.{source_named};
ghost use Rattle.cal_imports.specs.View.{sources};
ghost use Rattle.cal_files.specs.Reads.{import_requests, top_request};
ghost use Rattle.cal_files.specs.SoFar.{AsksFor, imports_tree, past_read, request_of, waiting_of};

use crate::class_text::dotted;
use cal_ast::Import;
use cal_imports::FileSet;
use rvc_base::{Memory, Place, Refusal, Rule};
use std::alloc::Global;
use std::collections::VecDeque;

/// A class that is asked for, and what is refused if it has no file.
#[derive(Drop)]
pub(crate) struct Request {
    pub class: String,
    pub missing: Refusal,
}

/// That for the top.
fn top_request(alloc: Global, class: &str) -> Result<Request, Memory>
    ensures { IfOk result (λ q. request_of q ≡ top_request class.now) }
{
    let class = String::from_str(alloc, class)?;
    Ok(Request {
        class,
        missing: Refusal {
            rule: Rule::NO_FILE,
            place: Place { file: 0, offset: 0 },
        },
    })
}

/// That of an import in the file of a number.
fn import_request(alloc: Global, file: u32, import: &Import) -> Result<Request, Memory>
    ensures { IfOk result (λ q. AsksFor q file (import_tree import.now)) }
{
    let class = dotted(alloc, &import.path)?;
    Ok(Request {
        class,
        missing: Refusal {
            rule: Rule::IMPORT_NOT_FOUND,
            place: Place {
                file,
                offset: import.at,
            },
        },
    })
}

/// The requests of which the first is that for the top.
pub(crate) fn first_requests(alloc: Global, class: &str) -> Result<VecDeque<Request>, Memory>
    ensures { IfOk result (λ waiting. waiting_of waiting ≡ top_request class.now ∷ []) }
{
    let mut waiting = VecDeque::new(alloc);
    waiting.push_back(top_request(alloc, class)?)?;
    Ok(waiting)
}

/// Adds the requests of the imports of the file of a number.
pub(crate) fn push_imports(
    alloc: Global,
    waiting: &mut VecDeque<Request>,
    file: u32,
    imports: &[Import],
) -> Result<(), Memory>
    ensures { OnOk result (waiting_of waiting.new
        ≡ waiting_of waiting.old ++ import_requests file (imports_tree imports.now)) }
{
    let mut rest = imports;
    'imports: while let Some((first, others)) = rest.split_first() {
        waiting.push_back(import_request(alloc, file, first)?)?;
        rest = others;
    }
    Ok(())
}

/// Takes the first request whose class isn't in the set, and drops those before it.
pub(crate) fn next_unread(set: &FileSet, waiting: &mut VecDeque<Request>) -> Option<Request>
    ensures next { MatchOption result (past_read (sources set.now) (waiting_of waiting.old) ≡ [])
        (λ q. past_read (sources set.now) (waiting_of waiting.old)
        ≡ request_of q ∷ waiting_of waiting.new) }
    ensures unread { IfSome result
        (λ q. source_named (string_bytes q.class) (sources set.now) ≡ None) }
{
    'requests: while let Some(request) = waiting.pop_front() {
        if !set.has(request.class.as_str()) {
            return Some(request);
        }
    }
    None
}
