//! Puts an answer on `out`, or the line of a failure on `err`.

ghost use Rattle.std.specs.Prelude.{◌≡◌, ◌⊎◌, ◌≤◌, IfErr, IfOk, OnErr};
ghost use Rattle.nego_cli.specs.Effect.{effect};
ghost use Rattle.nego_cli.specs.Answer.{failure_line};
ghost use Rattle.nego_cli.specs.Delivery.{IsTextPut, IsLinePut, IsFailurePut, IsDelivered, FailureIsNamed};

use crate::Status;
use crate::answer::Answer;
use crate::failure::Failure;
use crate::refusal_text::refusal_line;
use nego_base::Memory;
use nego_io::{Sink, WriteFault, put_all};
use std::alloc::Global;

/// Puts a text on `out`. Where that fails, the line of the write fault is tried on `err`, and its failure changes nothing.
fn put_text<O: Sink, E: Sink>(answer: &Answer, out: &mut O, err: &mut E) -> Status
    ensures put { IsTextPut answer.now (effect O.taken O.faults out.old out.new) (effect E.taken E.faults err.old err.new) result }
    ensures err_untouched { (result ≡ Status.WriteFault) ⊎ (err.new ≡ err.old) }
    ensures out_faults { O.faults out.old ≤ O.faults out.new }
    ensures err_faults { E.faults err.old ≤ E.faults err.new }
{
    if put_all(out, &answer.text).is_ok() {
        return answer.status;
    }
    let _ = put_all(err, b"write fault\n");
    Status::WriteFault
}

/// Puts a line on `err`, and answers the status or the write fault.
fn put_line<E: Sink>(line: &[u8], status: Status, err: &mut E) -> Status
    ensures put { IsLinePut line.now status (effect E.taken E.faults err.old err.new) result }
    ensures later { E.faults err.old ≤ E.faults err.new }
{
    match put_all(err, line) {
        Ok(()) => status,
        Err(WriteFault) => Status::WriteFault,
    }
}

/// The usage line, which names every command, built or not.
const USAGE: &[u8] =
    b"usage: nego check, reduce, replay, ask START.., run START.., node SEED TURNS START.., make N\n";

/// Puts the line that says that memory is wanted.
fn put_memory<E: Sink>(err: &mut E) -> Status
    ensures put { IsLinePut (failure_line Failure.Memory) Status.Memory (effect E.taken E.faults err.old err.new) result }
    ensures later { E.faults err.old ≤ E.faults err.new }
{
    put_line(b"out of memory\n", Status::Memory, err)
}

/// Puts the line of a failure. Where there is no memory for it, the line that says so is put.
fn put_failure<E: Sink>(alloc: Global, failure: &Failure, err: &mut E) -> Status
    requires { FailureIsNamed failure.now }
    ensures put { IsFailurePut failure.now (effect E.taken E.faults err.old err.new) result }
    ensures later { E.faults err.old ≤ E.faults err.new }
{
    match failure {
        Failure::Words => put_line(USAGE, Status::Words, err),
        Failure::Refused(why) => match refusal_line(alloc, why) {
            Ok(line) => put_line(&line, Status::Refused, err),
            Err(Memory) => put_memory(err),
        },
        Failure::ReadFault => put_line(b"read fault\n", Status::ReadFault, err),
        Failure::Memory => put_memory(err),
    }
}

/// Puts the answer out: a text on `out`, or the line of a failure on `err`.
pub(crate) fn deliver<O: Sink, E: Sink>(
    alloc: Global,
    answer: &Result<Answer, Failure>,
    out: &mut O,
    err: &mut E,
) -> Status
    requires { IfErr answer.now FailureIsNamed }
    ensures delivered { IsDelivered answer.now (effect O.taken O.faults out.old out.new) (effect E.taken E.faults err.old err.new) result }
    ensures out_untouched { OnErr answer.now (out.new ≡ out.old) }
    ensures err_untouched { IfOk answer.now (λ _. (result ≡ Status.WriteFault) ⊎ (err.new ≡ err.old)) }
    ensures out_faults { O.faults out.old ≤ O.faults out.new }
    ensures err_faults { E.faults err.old ≤ E.faults err.new }
{
    match answer {
        Ok(answer) => put_text(answer, out, err),
        Err(failure) => put_failure(alloc, failure, err),
    }
}
