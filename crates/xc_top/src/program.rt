ghost use Rattle.std.specs.Prelude.{map};
ghost use Rattle.std.specs.String.{string_bytes};
ghost use Rattle.xc_course.specs.Works.{Works};
ghost use Rattle.xc_top.specs.Requests.{course_of};
ghost use Rattle.xc_top.specs.Serving.{Serves};
ghost use Rattle.xc_top.specs.Calls.{called, AnswersNoRequest, AnswersRefusal, AnswersService, AnswersReadFault, AnswersWriteFault, AnswersMemory, IsComplete, KeepsTheRest, GetsLine};

use std::alloc::Global;
use xc_base::{Shelf, Sink, put_all};
use xc_eval::{check, generate};
use xc_lines::{Halt, Passed, Status};
use xc_show::{lattice, show};
use xc_words::{Request, request};

/// Serves a request by its mode.
fn dispatch<S: Shelf, W: Sink>(
    alloc: Global,
    request: &Request,
    shelf: &mut S,
    out: &mut W,
) -> Result<Passed, Halt>
    ensures { Works (course_of request.now) (S.seen shelf.old) (S.seen shelf.new) (W.seen out.old) (W.seen out.new) result }
{
    match request {
        Request::Lattice { file } => lattice(alloc, shelf, out, file.as_str()),
        Request::Check { map, formulas, .. } => {
            check(alloc, shelf, out, map.as_str(), formulas.as_str())
        }
        Request::Show { kind, file } => show(alloc, shelf, out, *kind, file.as_str()),
        Request::Gen { number, size } => generate(alloc, out, *number, *size),
    }
}

/// Reads what the words ask for, and does it.
#[tactic(auto, using(crate::proofs::Serving::asked, crate::proofs::Serving::unasked))]
fn serve<S: Shelf, W: Sink>(
    alloc: Global,
    words: &Vec<String>,
    shelf: &mut S,
    out: &mut W,
) -> Result<Passed, Halt>
    ensures { Serves (map string_bytes words.now.items) (S.seen shelf.old) (S.seen shelf.new) (W.seen out.old) (W.seen out.new) result }
{
    let request = request(alloc, words)?;
    dispatch(alloc, &request, shelf, out)
}

/// Puts a line on err.
fn tell<E: Sink>(err: &mut E, line: &str)
    ensures { GetsLine line.now (E.seen err.old) (E.seen err.new) }
{
    let _ = put_all(err, line.as_bytes());
}

/// Does all that the program does, for the words after the program's name.
///
/// The files come from the shelf, the text goes to `out`, and a line to `err` where the request is not served.
pub fn run<S: Shelf, W: Sink, E: Sink>(
    alloc: Global,
    words: &Vec<String>,
    shelf: &mut S,
    out: &mut W,
    err: &mut E,
) -> Status
    // Words exactly where the words are no request.
    ensures words { AnswersNoRequest (called (map string_bytes words.now.items) (S.seen shelf.old) (S.seen shelf.new) (W.seen out.old) (W.seen out.new) (E.seen err.old) (E.seen err.new) result) }
    // A refusal is that of the outcome, with its line.
    ensures refusal { AnswersRefusal (called (map string_bytes words.now.items) (S.seen shelf.old) (S.seen shelf.new) (W.seen out.old) (W.seen out.new) (E.seen err.old) (E.seen err.new) result) }
    // Done and No only where the outcome is served so, with a text of each item, and no put failed.
    ensures service { AnswersService (called (map string_bytes words.now.items) (S.seen shelf.old) (S.seen shelf.new) (W.seen out.old) (W.seen out.new) (E.seen err.old) (E.seen err.new) result) }
    // ReadFault only where one load failed.
    ensures read_fault { AnswersReadFault (called (map string_bytes words.now.items) (S.seen shelf.old) (S.seen shelf.new) (W.seen out.old) (W.seen out.new) (E.seen err.old) (E.seen err.new) result) }
    // WriteFault only where out failed while the items of a served outcome were written.
    ensures write_fault { AnswersWriteFault (called (map string_bytes words.now.items) (S.seen shelf.old) (S.seen shelf.new) (W.seen out.old) (W.seen out.new) (E.seen err.old) (E.seen err.new) result) }
    // Where memory runs out, out gets the first items at most.
    ensures memory { AnswersMemory (called (map string_bytes words.now.items) (S.seen shelf.old) (S.seen shelf.new) (W.seen out.old) (W.seen out.new) (E.seen err.old) (E.seen err.new) result) }
    // Where nothing fails the status is that of the outcome.
    ensures complete { IsComplete (called (map string_bytes words.now.items) (S.seen shelf.old) (S.seen shelf.new) (W.seen out.old) (W.seen out.new) (E.seen err.old) (E.seen err.new) result) }
    // Err gets the line of the status, and the files stay, and the failed names too but for that of one load.
    ensures rest { KeepsTheRest (called (map string_bytes words.now.items) (S.seen shelf.old) (S.seen shelf.new) (W.seen out.old) (W.seen out.new) (E.seen err.old) (E.seen err.new) result) }
{
    match serve(alloc, words, shelf, out) {
        Ok(Passed::Done) => Status::Done,
        Ok(Passed::No) => Status::No,
        Err(halt) => {
            tell(err, halt.line());
            halt.status()
        }
    }
}
